// The keys of a context.
ghost use Rattle.std.specs.Prelude.{◌≡◌};
ghost use Rattle.app_context.specs.Keys.{name_of};

/// A key of a context. Those up to `AndroidSdkVersion` have texts, `Units` an object of texts, and
/// `CustomTargetingAttributes` an object.
#[derive(Clone, Copy, Debug, PartialEq, Eq, Drop)]
pub enum ContextKey {
    AppName,
    Channel,
    AppId,
    AppVersion,
    AppBuild,
    Architecture,
    DeviceManufacturer,
    DeviceModel,
    Locale,
    Os,
    OsVersion,
    AndroidSdkVersion,
    Units,
    CustomTargetingAttributes,
}

/// The keys, in the order in which they are tested.
pub(crate) const KEYS: [ContextKey; 14] = [
    ContextKey::AppName,
    ContextKey::Channel,
    ContextKey::AppId,
    ContextKey::AppVersion,
    ContextKey::AppBuild,
    ContextKey::Architecture,
    ContextKey::DeviceManufacturer,
    ContextKey::DeviceModel,
    ContextKey::Locale,
    ContextKey::Os,
    ContextKey::OsVersion,
    ContextKey::AndroidSdkVersion,
    ContextKey::Units,
    ContextKey::CustomTargetingAttributes,
];

/// The keys whose text may be absent.
pub(crate) const OPTIONAL_TEXTS: [ContextKey; 10] = [
    ContextKey::AppId,
    ContextKey::AppVersion,
    ContextKey::AppBuild,
    ContextKey::Architecture,
    ContextKey::DeviceManufacturer,
    ContextKey::DeviceModel,
    ContextKey::Locale,
    ContextKey::Os,
    ContextKey::OsVersion,
    ContextKey::AndroidSdkVersion,
];

/// The keys that have texts.
pub(crate) const TEXT_KEYS: [ContextKey; 12] = [
    ContextKey::AppName,
    ContextKey::Channel,
    ContextKey::AppId,
    ContextKey::AppVersion,
    ContextKey::AppBuild,
    ContextKey::Architecture,
    ContextKey::DeviceManufacturer,
    ContextKey::DeviceModel,
    ContextKey::Locale,
    ContextKey::Os,
    ContextKey::OsVersion,
    ContextKey::AndroidSdkVersion,
];

impl ContextKey {
    /// The key as it stands in a context. It takes no memory.
    pub fn name(self) -> &'static str
        ensures { result.now ≡ name_of self }
    {
        match self {
            ContextKey::AppName => "app_name",
            ContextKey::Channel => "channel",
            ContextKey::AppId => "app_id",
            ContextKey::AppVersion => "app_version",
            ContextKey::AppBuild => "app_build",
            ContextKey::Architecture => "architecture",
            ContextKey::DeviceManufacturer => "device_manufacturer",
            ContextKey::DeviceModel => "device_model",
            ContextKey::Locale => "locale",
            ContextKey::Os => "os",
            ContextKey::OsVersion => "os_version",
            ContextKey::AndroidSdkVersion => "android_sdk_version",
            ContextKey::Units => "units",
            ContextKey::CustomTargetingAttributes => "custom_targeting_attributes",
        }
    }
}
