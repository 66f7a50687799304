// The end of an enrolment.
ghost use Rattle.std.specs.Prelude.{◌≡◌, IfOk};
ghost use Rattle.enrol_states.specs.Commands.{enrolment_ended};
ghost use Rattle.enrol_states.specs.Consistent.{IsConsistent};
ghost use Rattle.enrol_states.specs.NextStates.{HasParts};

use crate::joining::rows_opted_out_of;
use crate::next_state::NextState;
use crate::state::State;
use plain_text::Slug;
use sequences::NextList;
use std::alloc::AllocError;

/// The state in which the client takes part in the slug's recipe no more: where it did, the enrolment ends as an opt-out. The slug
/// isn't opted out. The state is lent as to `opt_out`. The one error is want of memory.
pub fn end_enrolment(state: &mut State, slug: &Slug) -> Result<NextState, AllocError>
    requires { IsConsistent state.old }
    ensures same { state.new ≡ state.old }
    ensures state { IfOk result (λ next. next.state ≡ enrolment_ended slug.now state.old) }
    ensures parts { IfOk result (HasParts state.old) }
    ensures consistent { IfOk result (λ next. IsConsistent next.state) }
{
    let opted_out = NextList::same(&state.opted_out)?;
    let rows = rows_opted_out_of(&mut state.rows, slug)?;
    state.with_next(opted_out, rows)
}
