// The batches of a state's rows: the one that makes them, whose bytes are the state's encoding, and the one that changes them to
// the next state's.
ghost use Rattle.std.specs.Prelude.{◌≡◌, ◌≤◌, ◌<◌, ◌+◌, ◌^◌, ◌++◌, [], length, IfOk, OnOk};
ghost use Rattle.enrol_states.specs.Consistent.{IsConsistent};
ghost use Rattle.row_batches.specs.Batch.{applied, batch_text, whole_of};
ghost use Rattle.row_batches.specs.Between.{put_where_differs, changes_between, between};
ghost use Rattle.state_codec.specs.RecipeLists.{HasLists};
ghost use Rattle.state_codec.specs.Sound.{IsSound};
ghost use Rattle.state_values.specs.Values.{participation_byte};
ghost use Rattle.state_codec.specs.Encoding.{pending_recipes, first_rows, later_rows, rows_of, encoding};
ghost use Rattle.state_codec.specs.RecipeChanges.{client_row_changes, live_changes, opted_out_changes, pending_changes};
ghost use Rattle.state_codec.specs.SingleRows.{single_row};

use crate::recipe_lists::RecipeLists;
use crate::row_kind::RowKind;
use crate::rows::rows_of;
use crate::single_row::SingleRow;
use enrol_states::State;
use recipe_reader::{Recipe, Recipes};
use row_batches::{Batch, RowChange, add_changes};
use sequences::Sequence;
use std::alloc::{AllocError, Global};

/// The batch that makes the state's rows: a clear of all rows, and a put of each. Its bytes are the state's encoding.
#[tactic(auto, using(crate::proofs::Room::rows_room), unfolding(crate::specs::Encoding::encoding))]
pub fn whole_batch(alloc: Global, state: &State) -> Result<Batch, AllocError>
    requires state { IsConsistent state.now }
    requires size { length (encoding state.now) < 2 ^ 32 }
    ensures batch { IfOk result (λ batch. batch ≡ whole_of (rows_of state.now)) }
    ensures text { IfOk result (λ batch. batch_text batch ≡ encoding state.now) }
    ensures gives { IfOk result (λ batch. applied batch [] ≡ rows_of state.now) }
{
    let rows = rows_of(alloc, state)?;
    Batch::whole_of(alloc, rows)
}

/// The encoding of the state: a clear of all rows, and a put of each of its rows in the order of
/// their keys.
pub fn write_state(alloc: Global, state: &State) -> Result<Vec<u8>, AllocError>
    requires { IsSound state.now }
    ensures { IfOk result (λ bytes. bytes.items ≡ encoding state.now) }
{
    let batch = whole_batch(alloc, state)?;
    batch.bytes(alloc)
}

/// The batch from the rows of a state to those of the next: a put for each row that is new or differs, a delete for each that
/// is gone, and nothing else. Its cost is that of comparing the states: a row is made only where it changes, and recipes are
/// compared as values.
pub fn change_between(alloc: Global, old: &State, new: &State) -> Result<Batch, AllocError>
    requires old_state { IsConsistent old.now }
    requires new_state { IsConsistent new.now }
    requires old_size { length (encoding old.now) < 2 ^ 32 }
    requires new_size { length (encoding new.now) < 2 ^ 32 }
    ensures between { IfOk result (λ batch. batch ≡ between (rows_of old.now) (rows_of new.now)) }
    ensures gives { IfOk result (λ batch. applied batch (rows_of old.now) ≡ rows_of new.now) }

    // The bytes of a clear and of a put of each row that stands after the batch are the encoding of the next state.
    ensures whole { IfOk result (λ batch. batch_text (whole_of (applied batch (rows_of old.now))) ≡ encoding new.now) }
    ensures size { IfOk result (λ batch. length (batch_text batch) ≤ length (encoding old.now) + length (encoding new.now)) }
{
    let mut changes = Sequence::new(alloc);
    add_first_changes(alloc, &mut changes, old, new)?;
    add_later_changes(alloc, &mut changes, old, new, RecipeLists::MayDiffer)?;
    Ok(Batch::of_changes(changes))
}

/// Adds the changes from the first rows of a state to those of the next, as `change_between` has them of all rows.
#[tactic(auto, using(row_batches::proofs::ItemWalks::all_fit), unfolding(crate::specs::Encoding::first_rows))]
pub fn add_first_changes(
    alloc: Global,
    changes: &mut Sequence<RowChange>,
    old: &State,
    new: &State,
) -> Result<(), AllocError>
    ensures { OnOk result (changes.new ≡ changes.old ++ changes_between (first_rows old.now) (first_rows new.now)) }
{
    add_changes(
        alloc,
        changes,
        &RowKind::Coenrolling,
        old.coenrolling.as_slice(),
        new.coenrolling.as_slice(),
    )
}

/// Adds the changes from the later rows of a state to those of the next, as `change_between` has them of all rows, where it is
/// known which lists are as before, and in which parts others may differ. What is as before isn't looked at, so the cost is that
/// of the rest, which is walked once.
pub fn add_later_changes(
    alloc: Global,
    changes: &mut Sequence<RowChange>,
    old: &State,
    new: &State,
    recipes: RecipeLists,
) -> Result<(), AllocError>
    requires old_state { IsConsistent old.now }
    requires new_state { IsConsistent new.now }
    requires recipes { HasLists recipes old.now new.now }
    ensures { OnOk result (changes.new ≡ changes.old ++ changes_between (later_rows (participation_byte old.now) old.now) (later_rows (participation_byte new.now) new.now)) }
{
    add_single(alloc, changes, SingleRow::Id, old, new)?;
    add_recipes(alloc, changes, old, new, recipes)?;
    add_opted_out(alloc, changes, old, new, recipes)?;
    add_single(alloc, changes, SingleRow::Participation, old, new)?;
    add_single(alloc, changes, SingleRow::IsPending, old, new)?;
    add_client_rows(alloc, changes, old, new, recipes)?;
    add_single(alloc, changes, SingleRow::Installed, old, new)?;
    add_single(alloc, changes, SingleRow::Updated, old, new)?;
    add_single(alloc, changes, SingleRow::Version, old, new)
}

// Adds the changes of the rows of recipes.
#[tactic(auto, using(crate::proofs::Items::all_valid))]
fn add_recipes(
    alloc: Global,
    changes: &mut Sequence<RowChange>,
    old: &State,
    new: &State,
    recipes: RecipeLists,
) -> Result<(), AllocError>
    requires old_state { IsConsistent old.now }
    requires new_state { IsConsistent new.now }
    requires recipes { HasLists recipes old.now new.now }
    ensures { OnOk result (changes.new ≡ changes.old ++ (live_changes old.now new.now ++ pending_changes old.now new.now)) }
{
    match recipes {
        RecipeLists::AsBefore | RecipeLists::AllBut { .. } => Ok(()),
        RecipeLists::LiveAsBefore => add_pending(alloc, changes, old, new),
        RecipeLists::MayDiffer => {
            add_changes(
                alloc,
                changes,
                &RowKind::Live,
                old.live.as_slice(),
                new.live.as_slice(),
            )?;
            add_pending(alloc, changes, old, new)
        }
    }
}

// Adds the changes of the rows of pending recipes.
#[tactic(auto, using(crate::proofs::Room::pending_valid, crate::proofs::Items::all_valid))]
fn add_pending(
    alloc: Global,
    changes: &mut Sequence<RowChange>,
    old: &State,
    new: &State,
) -> Result<(), AllocError>
    requires old_state { IsConsistent old.now }
    requires new_state { IsConsistent new.now }
    ensures { OnOk result (changes.new ≡ changes.old ++ pending_changes old.now new.now) }
{
    add_changes(
        alloc,
        changes,
        &RowKind::Pending,
        pending_recipes(&old.pending),
        pending_recipes(&new.pending),
    )
}

// Adds the changes of the rows of the slugs that are opted out.
#[tactic(auto, using(row_batches::proofs::ItemWalks::all_fit))]
fn add_opted_out(
    alloc: Global,
    changes: &mut Sequence<RowChange>,
    old: &State,
    new: &State,
    recipes: RecipeLists,
) -> Result<(), AllocError>
    requires old_state { IsConsistent old.now }
    requires new_state { IsConsistent new.now }
    requires recipes { HasLists recipes old.now new.now }
    ensures { OnOk result (changes.new ≡ changes.old ++ opted_out_changes old.now new.now) }
{
    let part = recipes.opted_out_part(old, new);
    add_changes(
        alloc,
        changes,
        &RowKind::OptedOut,
        part.of_old(old.opted_out.as_slice()),
        part.of_new(new.opted_out.as_slice()),
    )
}

// Adds the changes of the rows of the statuses.
fn add_client_rows(
    alloc: Global,
    changes: &mut Sequence<RowChange>,
    old: &State,
    new: &State,
    recipes: RecipeLists,
) -> Result<(), AllocError>
    requires old_state { IsConsistent old.now }
    requires new_state { IsConsistent new.now }
    requires recipes { HasLists recipes old.now new.now }
    ensures { OnOk result (changes.new ≡ changes.old ++ client_row_changes old.now new.now) }
{
    let part = recipes.row_part(old, new);
    add_changes(
        alloc,
        changes,
        &RowKind::Status,
        part.of_old(old.rows.as_slice()),
        part.of_new(new.rows.as_slice()),
    )
}

// Adds a put of the new state's row, where its value differs. Else no row is made.
#[tactic(auto, using(crate::proofs::SingleRows::put_none, crate::proofs::SingleRows::put_other))]
fn add_single(
    alloc: Global,
    changes: &mut Sequence<RowChange>,
    single: SingleRow,
    old: &State,
    new: &State,
) -> Result<(), AllocError>
    requires old_state { IsConsistent old.now }
    requires new_state { IsConsistent new.now }
    ensures { OnOk result (changes.new ≡ changes.old ++ put_where_differs (single_row single old.now) (single_row single new.now)) }
{
    if single.has_same_value(old, new) {
        return Ok(());
    }
    changes.push(RowChange::Put(single.of(alloc, new)?))
}

/// The recipes that are pending, if any are.
pub(crate) fn pending_recipes(pending: &Option<Recipes>) -> &[Recipe]
    ensures { result.now ≡ pending_recipes pending.now }
{
    match pending {
        Some(recipes) => recipes.as_slice(),
        None => &[],
    }
}
