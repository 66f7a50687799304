// What a client is asked for.
use enrol_states::Kinds;
use json_tree::Tree;
use plain_text::Slug;
use sequences::Text;

/// What a client is asked for.
#[derive(Drop)]
pub enum Command {
    /// The manifest of which this file is the first, for this channel, becomes that of the run.
    Manifest { file: Text, channel: Text },
    /// The value of this file becomes the context of the run.
    Context { file: Text },
    /// The payload of this file becomes the pending recipes.
    Fetch { file: Text },
    /// The pending recipes become the live ones, and enrolments follow them.
    Apply,
    /// Whether the client takes part in experiments, in rollouts, or in both.
    Participate { kinds: Kinds, on: bool },
    /// The slug is opted out, whether or not it has a recipe.
    OptOut { slug: Slug },
    /// The client is enrolled in this branch of the slug's recipe.
    OptIn { slug: Slug, branch: Slug },
    /// The client begins anew under another id, whose sixteen bytes these are.
    Reset { id: [u8; 16] },
    /// The state, as an answer.
    Show,
    /// The value that the feature of this name has, as an answer.
    Feature { name: Text },
    /// The manifest of the run as a single file, as an answer.
    WriteManifest,
    /// The user did what this name stands for, so many times: 1 to 1,000,000.
    Event { name: Text, count: u32 },
    /// The changes of enrolments that aren't confirmed, as an answer.
    Changes,
    /// The host application knows the changes up to this number.
    Confirm { number: u64 },
    /// The value of this file becomes the bindings of the run.
    Bind { file: Text },
    /// The user gives this value to the preference of this name. The name is 1 to 80 ASCII letters, digits, `-`, `_` and `.`, and
    /// the value is `Truth`, `Whole` or `Text`.
    SetPreference { name: Text, value: Tree },
    /// The user takes the value of the preference of this name away.
    ClearPreference { name: Text },
    /// The preferences that have a value, as an answer.
    Preferences,
}
