// Copies of states, each equal to what it is a copy of. They share lists and texts.
ghost use Rattle.std.specs.Prelude.{◌≡◌, IfOk};

use crate::state::{Row, State};
use crate::status::Status;
use recipe_reader::Recipes;
use sequences::ExactClone;
use std::alloc::AllocError;

impl Clone for Status {
    ghost is_clone = { λ s t. t ≡ s };

    fn clone(&self) -> Result<Status, AllocError> {
        match self {
            Status::Enrolled { reason, branch } => Ok(Status::Enrolled {
                reason: *reason,
                branch: branch.clone()?,
            }),
            Status::NotEnrolled { reason } => Ok(Status::NotEnrolled { reason: *reason }),
            Status::Disqualified { reason, branch } => Ok(Status::Disqualified {
                reason: *reason,
                branch: branch.clone()?,
            }),
            Status::WasEnrolled { branch, ended } => Ok(Status::WasEnrolled {
                branch: branch.clone()?,
                ended: *ended,
            }),
            Status::Error { cause } => Ok(Status::Error { cause: *cause }),
        }
    }
}

impl Clone for Row {
    ghost is_clone = { λ r s. s ≡ r };

    fn clone(&self) -> Result<Row, AllocError> {
        Ok(Row {
            slug: self.slug.clone()?,
            status: self.status.clone()?,
        })
    }
}

impl ExactClone for Row {
    ghost exact = { λ r s same. same };
}

impl Clone for State {
    ghost is_clone = { λ s t. t ≡ s };

    fn clone(&self) -> Result<State, AllocError> {
        Ok(State {
            id: self.id,
            installed: self.installed,
            updated: self.updated,
            version: self.version.clone()?,
            experiments: self.experiments,
            rollouts: self.rollouts,
            opted_out: self.opted_out.clone()?,
            coenrolling: self.coenrolling.clone()?,
            live: self.live.clone()?,
            pending: copy_of_pending(&self.pending)?,
            rows: self.rows.clone()?,
        })
    }
}

pub(crate) fn copy_of_pending(pending: &Option<Recipes>) -> Result<Option<Recipes>, AllocError>
    ensures { IfOk result (λ p. p ≡ pending.now) }
{
    match pending {
        Some(recipes) => Ok(Some(recipes.clone()?)),
        None => Ok(None),
    }
}
