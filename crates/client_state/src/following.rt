// What follows a change of the enrolment.
ghost use Rattle.std.specs.Prelude.{◌≡◌, ◌+◌, false, nat_lt, length, IfOk, IsErrOf, IsTrue, OnErr, OnOk, option_map};
ghost use Rattle.std.specs.Option.{unwrap_or};
ghost use Rattle.enrol_states.specs.Consistent as states;
ghost use Rattle.change_outbox.specs.Contents as contents;
ghost use Rattle.change_outbox.specs.Contents.{Contents, IsMadeOf, appended, last_number, numbered};
ghost use Rattle.client_state.specs.Changes.{HasHoldersOfBefore, IsChangeOf, IsNext, IsNextOutbox, IsNextOutboxIf, IsNextPreferencesIf, IsWholeChangeOf, preferences_or, state_after};
ghost use Rattle.client_state.specs.Following.{changes_from, followed, spends};
ghost use Rattle.client_state.specs.Sound.{IsConsistent};

use crate::client_state::ClientState;
use crate::preference_changes::{Sources, changes_done};
use crate::state_change::{NextEnrolment, StateChange};
use change_outbox::{AppendChangesFault, Change, Outbox, changes_of};
use enrol_states::State;
use fml_types::Manifest;
use pref_bindings::{Bindings, NextPreferences, Prefs};
use sequences::Sequence;
use std::alloc::{AllocError, Global};

/// The change with what follows it: where it has a next enrolment, the outbox gets the changes of enrolments under its next numbers,
/// and the preferences do their leaves and then their joins. A join sets what the branch of the slug's live recipe sets of the bound
/// preferences, where there are a manifest and bindings. Where no enrolment changes, both stay as they are. `ChangesSpent` comes
/// exactly where the outbox's next number would pass 9,223,372,036,854,775,807. Of the rows of both enrolments the part is walked
/// once that may differ, and the texts of entries are shared. The state is lent to the outbox, and stays the same. After an error the
/// change is as it was.
#[tactic(auto, using(crate::proofs::Followed::none_followed, crate::proofs::Followed::none_whole, crate::proofs::Followed::none_spent, crate::proofs::Followed::empty_followed, crate::proofs::Followed::empty_whole, crate::proofs::Followed::empty_spent, crate::proofs::Followed::all_followed, crate::proofs::Followed::all_whole, crate::proofs::Followed::all_spent))]
pub fn follow(
    alloc: Global,
    state: &mut ClientState,
    change: &mut StateChange,
    manifest: Option<&Manifest>,
    bindings: Option<&Bindings>,
) -> Result<(), AppendChangesFault>
    requires state { IsConsistent state.old }
    requires change { IsChangeOf state.old change.old }
    requires holders { HasHoldersOfBefore state.old change.old }
    ensures same { state.new ≡ state.old }
    ensures followed { OnOk result (state_after change.new state.old ≡ followed (option_map (λ m. m.now) manifest.entry) (option_map (λ b. b.now) bindings.entry) change.old state.old) }
    ensures change { OnOk result (IsWholeChangeOf state.old change.new) }
    ensures not_spent { OnOk result (spends change.old state.old ≡ false) }
    ensures spent { IsErrOf result AppendChangesFault.ChangesSpent → IsTrue (spends change.old state.old) }
    ensures unchanged { OnErr result (change.new ≡ change.old) }
{
    let Some(next) = &change.enrolment else {
        return Ok(());
    };
    let changes = enrolment_changes(alloc, &state.enrolment, next)?;
    if changes.is_empty() {
        return Ok(());
    }
    let sources = Sources {
        enrolment: &next.state,
        manifest,
        bindings,
    };
    let done = changes_done(
        alloc,
        &sources,
        changes.as_slice(),
        change.preferences_or(&state.preferences),
    )?;
    let outbox = next_outbox(&mut state.outbox, &mut change.outbox, changes)?;
    change.preferences = next_preferences(&state.preferences, change.preferences.take(), done);
    change.outbox = Some(outbox);
    Ok(())
}

// The changes from the enrolment to the next one, numbered from 0. Of the rows the part alone is looked at that may differ.
fn enrolment_changes(
    alloc: Global,
    old: &State,
    next: &NextEnrolment,
) -> Result<Sequence<Change>, AllocError>
    requires old_state { states.IsConsistent old.now }
    requires next { IsNext old.now next.now }
    ensures { IfOk result (λ changes. changes ≡ numbered 0 (changes_from old.now next.now.state)) }
{
    let part = next.recipes.row_part(old, &next.state);
    changes_of(
        alloc,
        part.of_old(old.rows.as_slice()),
        part.of_new(next.state.rows.as_slice()),
    )
}

// The preferences that the changes left, which may differ in the whole list, or else the next ones of before the changes.
fn next_preferences(
    before: &Prefs,
    next: Option<NextPreferences>,
    done: Option<Prefs>,
) -> Option<NextPreferences>
    requires { IsNextPreferencesIf before.now next }
    ensures preferences { preferences_or result before.now ≡ unwrap_or done (preferences_or next before.now) }
    ensures next { IsNextPreferencesIf before.now result }
{
    match done {
        Some(done) => Some(NextPreferences::whole(before, done)),
        None => next,
    }
}

// The next outbox, or else that of before, with the changes. Both are lent, and stay the same.
#[tactic(auto, using(change_outbox::proofs::Made::made_itself))]
fn next_outbox(
    before: &mut Outbox,
    next: &mut Option<Outbox>,
    changes: Sequence<Change>,
) -> Result<Outbox, AppendChangesFault>
    requires next { IsNextOutboxIf before.old next.old }
    ensures same { before.new ≡ before.old }
    ensures same_next { next.new ≡ next.old }
    ensures outbox { IfOk result (λ outbox. outbox ≡ appended changes (unwrap_or next.old before.old)) }
    ensures next { IfOk result (IsNextOutbox before.old) }
    ensures not_spent { IfOk result (λ _. nat_lt last_number ((unwrap_or next.old before.old).next + length changes) ≡ false) }
    ensures spent { IsErrOf result AppendChangesFault.ChangesSpent → IsTrue (nat_lt last_number ((unwrap_or next.old before.old).next + length changes)) }
{
    match next {
        Some(outbox) => with_changes(outbox, changes),
        None => with_changes(before, changes),
    }
}

// The outbox with the changes. It is made of all that this one is made of.
#[tactic(auto, using(change_outbox::proofs::Made::appended_made))]
fn with_changes(
    outbox: &mut Outbox,
    changes: Sequence<Change>,
) -> Result<Outbox, AppendChangesFault>
    ensures same { outbox.new ≡ outbox.old }
    ensures sound { contents.IsSound outbox.old }
    ensures outbox { IfOk result (λ o. o ≡ appended changes outbox.old) }
    ensures next { IfOk result (λ next. (o : Contents) → IsMadeOf o outbox.old → IsNextOutbox o next) }
    ensures not_spent { IfOk result (λ _. nat_lt last_number (outbox.old.next + length changes) ≡ false) }
    ensures spent { IsErrOf result AppendChangesFault.ChangesSpent → IsTrue (nat_lt last_number (outbox.old.next + length changes)) }
{
    outbox.next();
    let next = outbox.append(changes)?;
    next.next();
    Ok(next)
}
