// The state that a change of one slug makes of another.
ghost use Rattle.std.specs.Prelude.{◌≡◌, IfOk};
ghost use Rattle.sequences.specs.ListParts.{IsPart};
ghost use Rattle.enrol_states.specs.NextStates.{HasParts};

use crate::state::{Row, State};
use plain_text::Slug;
use sequences::{ListPart, NextList};
use std::alloc::AllocError;

/// The state after a change, and the parts of its opt-outs and of its rows in which these may differ from those of before. No
/// other list of it differs.
#[derive(Drop)]
pub struct NextState {
    pub state: State,
    /// The part of the slugs that are opted out.
    pub opted_out: ListPart,
    /// The part of the rows.
    pub rows: ListPart,
}

impl State {
    /// The state with the next opt-outs and rows.
    pub(crate) fn with_next(
        &self,
        opted_out: NextList<Slug>,
        rows: NextList<Row>,
    ) -> Result<NextState, AllocError>
        requires opted_out { IsPart opted_out.part self.now.opted_out opted_out.list }
        requires rows { IsPart rows.part self.now.rows rows.list }
        ensures state { IfOk result (λ next. next.state ≡ record self.now { opted_out = opted_out.list; rows = rows.list }) }
        ensures parts { IfOk result (HasParts self.now) }
    {
        Ok(NextState {
            state: self.with_rows(opted_out.list, rows.list)?,
            opted_out: opted_out.part,
            rows: rows.part,
        })
    }
}
