// The context of an application.
ghost use Rattle.std.specs.Prelude.{◌≡◌, option_map};
ghost use Rattle.app_context.specs.Contexts.{text_of};
ghost use Rattle.app_context.specs.Named.{text_with};

use crate::key::ContextKey;
use crate::members::copy_of_members;
use crate::named::NamedTexts;
use json_tree::Members;
use sequences::Text;
use std::alloc::AllocError;

/// What an application says of itself and of where it runs. A clone is the same context.
#[derive(Drop)]
pub struct Context {
    pub app_name: Text,
    pub channel: Text,
    /// The texts of the keys from `AppId` to `AndroidSdkVersion` that are there, under their names.
    pub texts: NamedTexts,
    /// What is sampled beside the client's id: each unit's value under its name.
    pub units: NamedTexts,
    /// The attributes that the application adds (`custom_targeting_attributes`).
    pub custom: Members,
}

impl Clone for Context {
    ghost is_clone = { λ c d. d ≡ c };

    fn clone(&self) -> Result<Context, AllocError> {
        Ok(Context {
            app_name: self.app_name.clone()?,
            channel: self.channel.clone()?,
            texts: self.texts.clone()?,
            units: self.units.clone()?,
            custom: copy_of_members(self.texts.allocator(), &self.custom)?,
        })
    }
}

impl Context {
    /// The text of the key, where it has one. It takes no memory.
    pub fn text(&self, key: ContextKey) -> Option<&Text>
        ensures { option_map (λ t. t.now) result ≡ text_of key self.now }
    {
        match key {
            ContextKey::AppName => Some(&self.app_name),
            ContextKey::Channel => Some(&self.channel),
            ContextKey::Units | ContextKey::CustomTargetingAttributes => None,
            _ => self.texts.get(key.name()),
        }
    }

    /// The value of the unit of this name, where it has one. It takes no memory.
    pub fn unit(&self, name: &str) -> Option<&Text>
        ensures { option_map (λ t. t.now) result ≡ text_with name.now self.now.units }
    {
        self.units.get(name)
    }
}
