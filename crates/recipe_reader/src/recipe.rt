// The types of a recipe, and the reasons to skip a record.
ghost use Rattle.std.specs.Prelude.{◌≡◌};
ghost use Rattle.recipe_reader.specs.declared.recipe.RecordFault.TheVariants.{OutOfMemory};

use json_tree::Tree;
use plain_text::Slug;
use sequences::{Sequence, Text};
use std::alloc::{AllocError, AllocFailed};

/// An experiment or a rollout, as a record of Experimenter's schema states it. A recipe is valid
/// where it reads back from its own record, as each does that `read_record` or `read_payload`
/// gives. A clone is the same recipe, and `==` holds of the same recipes alone.
#[derive(Drop)]
pub struct Recipe {
    pub slug: Slug,
    /// The application (`appName`). An empty text counts as none.
    pub app_name: Option<Text>,
    /// The channel. An empty text counts as none.
    pub channel: Option<Text>,
    /// Whether nobody new may enrol (`isEnrollmentPaused`).
    pub paused: bool,
    /// Whether this is a rollout and no experiment (`isRollout`).
    pub rollout: bool,
    pub bucket: Bucket,
    /// 1 to 100 branches with different slugs, whose ratios' sum is above 0.
    pub branches: Sequence<Branch>,
    /// The expression that says who may enrol. A text of blanks alone counts as none.
    pub targeting: Option<Text>,
    /// When the record was published (`publishedDate`), as the record spells the moment.
    pub published: Option<Text>,
}

/// The range of buckets whose clients may enrol.
#[derive(Drop)]
pub struct Bucket {
    /// What is sampled (`randomizationUnit`), 1 to 80 bytes.
    pub unit: Text,
    /// At most 256 bytes.
    pub namespace: Text,
    pub start: u32,
    pub count: u32,
    /// How many buckets there are, at least 1.
    pub total: u32,
}

/// One of a recipe's branches.
#[derive(Drop)]
pub struct Branch {
    pub slug: Slug,
    /// The branch's share of all ratios, at most 1,000,000.
    pub ratio: u32,
    /// At most 50 features with different ids.
    pub features: Sequence<FeatureValue>,
}

/// What a branch sets of a feature.
#[derive(Drop)]
pub struct FeatureValue {
    /// The feature's id, a name.
    pub feature: Text,
    /// An object of depth at most 59 and of at most 65,536 bytes of compact text.
    pub value: Tree,
}

/// What a record says beside its slug, its bucket and its branches.
#[derive(Drop)]
pub struct Fields {
    pub app_name: Option<Text>,
    pub channel: Option<Text>,
    pub paused: bool,
    pub rollout: bool,
    pub targeting: Option<Text>,
    pub published: Option<Text>,
}

/// Why a record is skipped. The first that applies is the record's reason.
#[derive(Clone, Copy, Debug, PartialEq, Eq)]
pub enum SkipReason {
    /// The record isn't an object.
    NotAnObject,
    /// `slug` isn't a slug.
    BadSlug,
    /// `schemaVersion` isn't a text whose part before the first `.` is `1`.
    BadSchema,
    /// `appName`, `channel`, `targeting` or `publishedDate` is neither absent, null nor a text,
    /// `isRollout` is neither absent, null nor a truth value, or `isEnrollmentPaused` is neither
    /// absent nor a truth value.
    BadField,
    /// `bucketConfig` isn't an object with texts `randomizationUnit` (1 to 80 bytes) and
    /// `namespace` (at most 256 bytes) and whole `start`, `count` (both 0 to 4,294,967,295) and
    /// `total` (1 to 4,294,967,295).
    BadBucket,
    /// `branches` isn't a list of 1 to 100 branches with different slugs whose ratios' sum is
    /// above 0. A branch is an object with a `slug`, a whole `ratio` from 0 to 1,000,000, and at
    /// most 50 `features` with different ids; where `features` is absent or null, `feature` is the
    /// one feature, and where that is absent or null too there is none. A feature is an object
    /// with a name `featureId`, and with a `value` that is absent, null or an object of depth at
    /// most 59 and of at most 65,536 bytes of compact text.
    BadBranches,
    /// An earlier record of the payload was kept with this slug.
    Duplicate,
}

/// Why `read_record` gives no recipe.
#[derive(Clone, Copy, Debug, PartialEq, Eq)]
pub enum RecordFault {
    /// The record is skipped, for the first reason that applies.
    Skip(SkipReason),
    OutOfMemory,
}

impl From<AllocError> for RecordFault {
    ghost from_gives = { λ _ e. e ≡ OutOfMemory };

    fn from(_e: AllocError) -> RecordFault {
        RecordFault::OutOfMemory
    }
}

impl<T: Drop> From<AllocFailed<T>> for RecordFault {
    ghost from_gives = { λ _ e. e ≡ OutOfMemory };

    fn from(_e: AllocFailed<T>) -> RecordFault {
        RecordFault::OutOfMemory
    }
}
