// One change of an enrolment.
ghost use Rattle.std.specs.Prelude.{◌≡◌};

use plain_text::Slug;
use sequences::ExactClone;
use std::alloc::AllocError;

/// Whether the client joined a branch or left it.
#[derive(Clone, Copy, Debug, PartialEq, Eq, Drop)]
pub enum ChangeKind {
    Join,
    Leave,
}

/// One change of an enrolment. A clone is the same change, and shares its texts.
#[derive(Drop)]
pub struct Change {
    /// Its number: in an outbox from 1, and among the changes from one list of rows to another from 0.
    pub number: u64,
    /// The recipe's slug.
    pub slug: Slug,
    pub kind: ChangeKind,
    /// The branch that the client joined or left.
    pub branch: Slug,
}

impl Clone for Change {
    ghost is_clone = { λ c d. d ≡ c };

    fn clone(&self) -> Result<Change, AllocError> {
        Ok(Change {
            number: self.number,
            slug: self.slug.clone()?,
            kind: self.kind,
            branch: self.branch.clone()?,
        })
    }
}

impl ExactClone for Change {
    ghost exact = { λ c d same. same };
}
