// What a client is to a recipe.
ghost use Rattle.std.specs.Prelude.{◌≡◌};
ghost use Rattle.enrol_states.specs.Statuses.{is_enrolled};

use plain_text::Slug;

/// What a client is to the recipe of a slug. A clone is the same status, and `==` holds of the same
/// statuses alone.
#[derive(Drop)]
pub enum Status {
    /// The client takes part, in a branch.
    Enrolled {
        reason: EnrolledReason,
        branch: Slug,
    },
    /// The client never took part.
    NotEnrolled {
        reason: NotEnrolledReason,
    },
    /// The client took part in the branch. It takes part again only where its user opts in, or in a
    /// rollout whose range or targeting it had left.
    Disqualified {
        reason: DisqualifiedReason,
        branch: Slug,
    },
    /// The client took part in the branch until the recipe was gone.
    WasEnrolled {
        branch: Slug,
        /// When the recipe was found gone, in whole seconds since 1970.
        ended: u64,
    },
    /// What the recipe says of who may enrol can't be judged.
    Error {
        cause: ErrorCause,
    },
}

impl Status {
    /// Whether the client takes part.
    pub fn is_enrolled(&self) -> bool
        ensures { result ≡ is_enrolled self.now }
    {
        matches!(self, Status::Enrolled { .. })
    }
}

/// Why a client takes part.
#[derive(Clone, Copy, Debug, PartialEq, Eq, Drop)]
pub enum EnrolledReason {
    /// It met what the recipe asks.
    Qualified,
    /// Its user chose the branch.
    OptIn,
}

/// Why a client doesn't take part.
#[derive(Clone, Copy, Debug, PartialEq, Eq, Drop)]
pub enum NotEnrolledReason {
    /// The recipe is for another application.
    DifferentAppName,
    /// The recipe is for another channel.
    DifferentChannel,
    /// Nobody new may enrol.
    EnrollmentsPaused,
    /// Another recipe of the same kind holds one of its features.
    FeatureConflict,
    /// The client's bucket isn't in the recipe's range.
    NotSelected,
    /// The recipe's targeting is false.
    NotTargeted,
    /// The user opted out.
    OptOut,
}

/// Why a client takes part no longer.
#[derive(Clone, Copy, Debug, PartialEq, Eq, Drop)]
pub enum DisqualifiedReason {
    /// Who may enrol can't be judged, or the branch is gone.
    Error,
    /// Another recipe of the same kind holds one of its features.
    FeatureConflict,
    /// The client's bucket isn't in the recipe's range.
    NotSelected,
    /// The recipe is for another application or channel, or its targeting is false.
    NotTargeted,
    /// The user opted out.
    OptOut,
}

/// Why it can't be judged who may enrol.
#[derive(Clone, Copy, Debug, PartialEq, Eq, Drop)]
pub enum ErrorCause {
    /// The targeting isn't an expression.
    Unparsed,
    /// The targeting has no value.
    Faulted,
    /// The targeting's value isn't a truth value.
    NotTruth,
    /// What is sampled has no value.
    NoUnit,
}
