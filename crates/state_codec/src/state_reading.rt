// What the first and the later rows of a store say of a state. Of those that encode a state it is that state.
ghost use Rattle.std.specs.Prelude.{◌≡◌, IfOk};
ghost use Rattle.recipe_reader.specs.Payloads.{AreValid};
ghost use Rattle.state_codec.specs.Kinds.{letter};
ghost use Rattle.state_values.specs.Outcome.{Gives};
ghost use Rattle.enrol_states.specs.SoundParts.{AreValidIf};
ghost use Rattle.state_codec.specs.Reading.{id_under, participation_under, version_under, number_under, flag_under, pending_if, lists_in, recipes_in, last_in, state_in, HaveValid};

use crate::row_kind::RowKind;
use crate::sections::{client_rows_under, recipes_under, slugs_under, texts_under, value_under};
use enrol_states::{Row, State};
use plain_text::Slug;
use recipe_reader::Recipes;
use row_batches::StoreRow;
use sequences::{SharedList, Text};
use state_values::{
    CodecFault, Participation, flag_in, id_in, number_in, participation_in, text_in,
};
use std::alloc::Global;
use uuid::Uuid;

/// The lists of a state but for its recipes.
#[derive(Drop)]
pub(crate) struct Lists {
    pub coenrolling: SharedList<Text>,
    pub opted_out: SharedList<Slug>,
    pub rows: SharedList<Row>,
}

/// The recipes of a state.
#[derive(Drop)]
pub(crate) struct StateRecipes {
    pub live: Recipes,
    pub pending: Option<Recipes>,
}

/// The moments and the version of a state.
#[derive(Drop)]
pub(crate) struct Last {
    pub installed: u64,
    pub updated: u64,
    pub version: Text,
}

#[tactic(auto, unfolding(crate::specs::Reading::state_in))]
pub(crate) fn state_in(
    alloc: Global,
    first: &[StoreRow],
    later: &[StoreRow],
) -> Result<State, CodecFault>
    ensures state { Gives (λ s. s) result (state_in first.now later.now) }
    ensures live { IfOk result (λ s. AreValid s.live) }
    ensures pending { IfOk result (λ s. AreValidIf s.pending) }
{
    let id = id_under(later)?;
    let participation = participation_under(later)?;
    let last = last_in(alloc, later)?;
    let lists = lists_in(alloc, first, later)?;
    let recipes = recipes_in(alloc, later)?;
    Ok(State {
        id,
        installed: last.installed,
        updated: last.updated,
        version: last.version,
        experiments: participation.experiments,
        rollouts: participation.rollouts,
        opted_out: lists.opted_out,
        coenrolling: lists.coenrolling,
        live: recipes.live,
        pending: recipes.pending,
        rows: lists.rows,
    })
}

#[tactic(auto, unfolding(crate::specs::Reading::lists_in))]
fn lists_in(alloc: Global, first: &[StoreRow], later: &[StoreRow]) -> Result<Lists, CodecFault>
    ensures { Gives (λ l. l) result (lists_in first.now later.now) }
{
    let coenrolling = texts_under(alloc, RowKind::Coenrolling, first)?;
    let opted_out = slugs_under(alloc, RowKind::OptedOut, later)?;
    let rows = client_rows_under(alloc, RowKind::Status, later)?;
    Ok(Lists {
        coenrolling: SharedList::from_sequence(alloc, coenrolling)?,
        opted_out: SharedList::from_sequence(alloc, opted_out)?,
        rows: SharedList::from_sequence(alloc, rows)?,
    })
}

#[tactic(auto, unfolding(crate::specs::Reading::recipes_in))]
fn recipes_in(alloc: Global, rows: &[StoreRow]) -> Result<StateRecipes, CodecFault>
    ensures recipes { Gives (λ r. r) result (recipes_in rows.now) }
    ensures valid { IfOk result HaveValid }
{
    let live = recipes_under(alloc, RowKind::Live, rows, &Recipes::new(alloc))?;
    let waiting = recipes_under(alloc, RowKind::Pending, rows, &live)?;
    let pending = flag_under(RowKind::IsPending, rows)?;
    Ok(StateRecipes {
        live,
        pending: pending_if(pending, waiting),
    })
}

fn pending_if(pending: bool, waiting: Recipes) -> Option<Recipes>
    ensures pending { result ≡ pending_if pending waiting }
    ensures valid { AreValid waiting → AreValidIf result }
{
    if pending { Some(waiting) } else { None }
}

#[tactic(auto, unfolding(crate::specs::Reading::last_in))]
fn last_in(alloc: Global, rows: &[StoreRow]) -> Result<Last, CodecFault>
    ensures { Gives (λ l. l) result (last_in rows.now) }
{
    let installed = number_under(RowKind::Installed, rows)?;
    let updated = number_under(RowKind::Updated, rows)?;
    let version = version_under(alloc, rows)?;
    Ok(Last {
        installed,
        updated,
        version,
    })
}

#[tactic(auto, unfolding(crate::specs::Reading::id_under))]
fn id_under(rows: &[StoreRow]) -> Result<Uuid, CodecFault>
    ensures { Gives (λ id. id) result (id_under rows.now) }
{
    let value = value_under(RowKind::Id, rows)?;
    id_in(value)
}

#[tactic(auto, unfolding(crate::specs::Reading::participation_under))]
fn participation_under(rows: &[StoreRow]) -> Result<Participation, CodecFault>
    ensures { Gives (λ p. p) result (participation_under rows.now) }
{
    let value = value_under(RowKind::Participation, rows)?;
    participation_in(value)
}

#[tactic(auto, unfolding(crate::specs::Reading::version_under))]
fn version_under(alloc: Global, rows: &[StoreRow]) -> Result<Text, CodecFault>
    ensures { Gives (λ t. t) result (version_under rows.now) }
{
    let value = value_under(RowKind::Version, rows)?;
    text_in(alloc, value)
}

#[tactic(auto, unfolding(crate::specs::Reading::number_under))]
fn number_under(kind: RowKind, rows: &[StoreRow]) -> Result<u64, CodecFault>
    ensures { Gives (λ n. n) result (number_under (letter kind) rows.now) }
{
    let value = value_under(kind, rows)?;
    number_in(value)
}

#[tactic(auto, unfolding(crate::specs::Reading::flag_under))]
fn flag_under(kind: RowKind, rows: &[StoreRow]) -> Result<bool, CodecFault>
    ensures { Gives (λ b. b) result (flag_under (letter kind) rows.now) }
{
    let value = value_under(kind, rows)?;
    Ok(flag_in(value))
}
