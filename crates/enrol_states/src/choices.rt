// What a user chooses: to be out of an experiment or rollout, to be in a branch of one, and to
// begin anew.
ghost use Rattle.std.specs.Prelude.{◌≡◌, IfOk};
ghost use Rattle.enrol_states.specs.Consistent.{IsConsistent};
ghost use Rattle.enrol_states.specs.Commands.{after_reset};
ghost use Rattle.enrol_states.specs.Choices.{OptsOut, OptsIn};
ghost use Rattle.enrol_states.specs.NextStates.{HasParts};
ghost use Rattle.enrol_states.specs.declared.choices.OptOutFault.TheVariants as out_faults;
ghost use Rattle.enrol_states.specs.declared.choices.OptInFault.TheVariants as in_faults;

use crate::enrolling::enrolled;
use crate::features::taken;
use crate::joining::{rows_opted_out_of, with_slug};
use crate::next_state::NextState;
use crate::state::{State, id_fits, slug_fits};
use plain_text::Slug;
use sequences::{SharedList, Text};
use std::alloc::{AllocError, AllocFailed, Global};
use uuid::Uuid;

/// Why `opt_out` gives no state.
#[derive(Clone, Copy, Debug, PartialEq, Eq, Drop)]
pub enum OptOutFault {
    /// The slug isn't opted out, and 4,096 slugs are.
    OptedOutLimit,
    OutOfMemory,
}

impl From<AllocError> for OptOutFault {
    ghost from_gives = { λ _ e. e ≡ out_faults.OutOfMemory };

    fn from(_e: AllocError) -> OptOutFault {
        OptOutFault::OutOfMemory
    }
}

/// Why `opt_in` gives no state: the first that applies.
#[derive(Drop)]
pub enum OptInFault {
    /// No live recipe has the slug.
    NoSuchExperiment,
    /// Participation of the recipe's kind is off.
    NotParticipating,
    /// The recipe has no such branch.
    NoSuchBranch,
    /// The client is enrolled in another recipe of the same kind that shares a feature, which
    /// isn't one of those that may be shared: the least such slug, and its least such feature.
    FeatureTaken(Slug, Text),
    OutOfMemory,
}

impl From<AllocError> for OptInFault {
    ghost from_gives = { λ _ e. e ≡ in_faults.OutOfMemory };

    fn from(_e: AllocError) -> OptInFault {
        OptInFault::OutOfMemory
    }
}

/// The state in which the slug is opted out, whether or not it has a recipe. An enrolment of it
/// ends, and where the client never took part, the opt-out is the reason. The parts of the opt-outs and of the rows are the place of
/// the slug. Lists that stay as they are are shared, and the others are made in the place of those that these were made of. The
/// state is lent to that, and stays the same.
pub fn opt_out(alloc: Global, state: &mut State, slug: &Slug) -> Result<NextState, OptOutFault>
    requires { IsConsistent state.old }
    ensures same { state.new ≡ state.old }
    ensures answer { OptsOut state.old slug.now result }
    ensures parts { IfOk result (HasParts state.old) }
    ensures consistent { IfOk result (λ next. IsConsistent next.state) }
{
    slug_fits(slug);
    let opted_out = with_slug(&mut state.opted_out, slug)?;
    let rows = rows_opted_out_of(&mut state.rows, slug)?;
    Ok(state.with_next(opted_out, rows)?)
}

/// The state in which the client is enrolled in the branch that its user chose. The state is lent as to `opt_out`.
pub fn opt_in(
    alloc: Global,
    state: &mut State,
    slug: &Slug,
    branch: &Slug,
) -> Result<NextState, OptInFault>
    requires { IsConsistent state.old }
    ensures same { state.new ≡ state.old }
    ensures answer { OptsIn state.old slug.now branch.now result }
    ensures parts { IfOk result (HasParts state.old) }
    ensures consistent { IfOk result (λ next. IsConsistent next.state) }
{
    slug_fits(slug);
    slug_fits(branch);
    let Some(recipe) = state.live.get(slug.text()) else {
        return Err(OptInFault::NoSuchExperiment);
    };
    if !state.takes_part(recipe.kind()) {
        return Err(OptInFault::NotParticipating);
    }
    if !recipe.has_branch(branch.text()) {
        return Err(OptInFault::NoSuchBranch);
    }
    if let Some((holder, feature)) = taken(alloc, state, recipe)? {
        return Err(OptInFault::FeatureTaken(holder, feature));
    }
    Ok(enrolled(state, slug, branch)?)
}

/// The state under another id, without rows and opt-outs. The one error is want of memory.
pub fn reset(alloc: Global, state: &State, id: Uuid) -> Result<State, AllocError>
    requires { IsConsistent state.now }
    ensures state { IfOk result (λ s. s ≡ after_reset state.now id) }
    ensures consistent { IfOk result IsConsistent }
{
    id_fits(id);
    let mut next = state.with_rows(SharedList::new(alloc), SharedList::new(alloc))?;
    next.id = id;
    Ok(next)
}
