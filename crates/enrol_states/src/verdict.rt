// What is found of a client and a live recipe, and what follows from it.
use crate::status::{ErrorCause, Status};
use plain_text::Slug;

/// What is found of a client and a live recipe.
#[derive(Drop)]
pub enum Verdict {
    /// The recipe is for another application.
    DifferentAppName,
    /// The recipe is for another channel.
    DifferentChannel,
    /// The user opted out of the recipe, or of all recipes of its kind.
    OptOut,
    /// Nobody new may enrol, and the client isn't enrolled.
    EnrollmentsPaused,
    /// The targeting is false.
    NotTargeted,
    /// It can't be judged.
    Failed(ErrorCause),
    /// The client's bucket isn't in the recipe's range.
    NotSelected,
    /// The client meets what the recipe asks, and this is its branch.
    Qualified(Slug),
}

/// What follows from a verdict.
#[derive(Drop)]
pub enum Outcome {
    /// This is the new status.
    Keep(Status),
    /// The client would take part, unless another recipe of the same kind holds a feature.
    Wish {
        /// The new status where nothing stands against it.
        won: Status,
        /// The new status where another recipe holds a feature.
        lost: Status,
    },
}
