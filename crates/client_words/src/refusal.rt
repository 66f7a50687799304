// Why a command is refused.
use app_context::ContextKey;
use fml_link::LinkRefusal;
use plain_text::Slug;
use sequences::Text;

/// Why a command is refused. A refusal changes nothing.
#[derive(Drop)]
pub enum Refusal {
    /// No manifest was set in this run.
    NoManifest,
    /// No context was read in this run.
    NoContext,
    /// There is no file of this name.
    AbsentFile(Text),
    /// The file of this name has so many bytes, which is more than 4,194,304.
    FileTooLarge(Text, u64),
    /// The file of this name is no JSON value (RFC 8259), or one that nests beyond 64.
    NotJson(Text),
    /// The file's value is no context: the first key whose value is none that it may have.
    BadContext(ContextKey),
    /// The file's value isn't bindings: the first feature, in key order, at which it fails to be, or the empty text where it is no
    /// object.
    BadBinding(Text),
    /// The file's value isn't an object with a list `data`.
    NoData,
    /// The payload has so many records, which is more than 2,000.
    TooManyRecipes(u64),
    /// The files are no manifest for the channel.
    NotLinked(LinkRefusal),
    /// The object or feature of this name has a default that doesn't fit: the path of the first one, `/fields/NAME`,
    /// `/variables/NAME` or `/defaults/INDEX`.
    BadDefault(Text, Text),
    /// The manifest has no feature of this name.
    UnknownFeature,
    /// The slug isn't opted out, and 4,096 slugs are.
    OptedOutLimit,
    /// No live recipe has the slug.
    NoSuchExperiment,
    /// The slug's live recipe is an experiment and the client doesn't take part in experiments, or a rollout and it doesn't
    /// take part in rollouts.
    NotParticipating,
    /// The recipe has no such branch.
    NoSuchBranch,
    /// The client is enrolled in another recipe of the same kind that shares a feature, which may not be shared: the
    /// least such slug, and its least such feature.
    FeatureTaken(Slug, Text),
    /// The name has no counts, and 64 names have.
    EventLimit,
    /// No change has the number yet: this is the next one.
    NoSuchChange(u64),
    /// The numbers of changes are spent: the next one would pass 9,223,372,036,854,775,807.
    ChangesSpent,
    /// The encoding of the new state would have so many bytes, which is more than 16,777,216.
    StateTooLarge(u128),
}
