// A step is prepared: its new parts, the changed rows and its answer are built before the first write.
ghost use Rattle.std.specs.Prelude.{◌≡◌, ◌≤◌, ◌<◌, List, ℕ, Option, None, IfOk, IfErr, IsErrOf, IsTrue, OnOk, false, length};
ghost use Rattle.host_model.specs.Causes.{Rose};
ghost use Rattle.enrol_states.specs.State.{last_moment};
ghost use Rattle.jexl_transforms.specs.Table.{HasStandardNames};
ghost use Rattle.client_state.specs.Changes.{state_after, IsChangeOf, IsWholeChangeOf};
ghost use Rattle.client_state.specs.Following.{followed, spends};
ghost use Rattle.client_state.specs.Sound.{max_size};
ghost use Rattle.client_state.specs.Encoding.{encoding};
ghost use Rattle.client_words.specs.Commands.{IsCommand};
ghost use Rattle.client_steps.specs.Asked.{asked_outcome, answer_for, changed_outcome, FollowsFrom, IsAnswerOrRefused};
ghost use Rattle.client_steps.specs.Commands.{names_file, HasAsked};
ghost use Rattle.client_steps.specs.ServedValues.{IsTyped};
ghost use Rattle.client_steps.specs.Settings.{setting};
ghost use Rattle.client_steps.specs.Sessions.{changed_by};
ghost use Rattle.client_steps.specs.Steps.{Accepted, outcome, done};

use crate::client::Client;
use crate::prepared::Prepared;
use change_outbox::AppendChangesFault;
use client_state::{BoxedChange, StateChange};
use client_steps::{
    Asked, SessionChange, StepFault, applying, confirming, counting, fetching, listing_changes,
    listing_preferences, participating, reading_bindings, reading_context, resetting, serving,
    setting_manifest, showing, writing_manifest,
};
use client_words::{Answer, Command, Refusal};
use host_model::Shelf;
use jexl_transforms::TransformTable;
use std::alloc::{AllocError, Global};

impl Client {
    ghost use Rattle.client_core.specs.Clients.{state_of, session_of, step_of, IsSameClient};
    ghost use Rattle.client_core.specs.Prepared.{IsMadeOn, Leads, answer_in};

    /// Prepares the step of a command at a moment, in whole seconds since 1970. It changes neither the state nor the
    /// session, and writes nothing. A command that is refused is `Ok` with its refusal as the answer. The table has the
    /// transforms that targeting may name.
    pub fn prepare<F: Shelf>(
        &mut self,
        alloc: Global,
        command: &Command,
        now: u64,
        table: &TransformTable,
        shelf: &mut F,
    ) -> Result<Prepared, StepFault>
        requires command { IsCommand command.now }
        requires moment { now ≤ last_moment }
        requires table { HasStandardNames table.now }

        ensures same { IsSameClient self.old self.new }
        ensures made { IfOk result (λ prepared. IsMadeOn self.new prepared) }

        // Of a command that names a file it is said where the shelf tells its files, and of each other one of every shelf.
        ensures step { (IsTrue (names_file command.now) → F.tells)
            → IfOk result (λ prepared. Leads self.new prepared (step_of self.old (setting F.Shelf shelf.old now) command.now)) }

        // A value that is answered of a feature has the feature's type.
        ensures typed { IfOk result (λ prepared. IsTyped (state_of self.old) (session_of self.old) command.now (answer_in prepared)) }

        // `context`, `bind` and `fetch` ask the shelf for their file, and for no other. `manifest` asks for no file, or for the first ones
        // of the list of its manifest's files, each of them once. Each other command asks for none.
        ensures asked { HasAsked F.Shelf command.now shelf.old shelf.new }
        ensures unasked { names_file command.now ≡ false → shelf.new ≡ shelf.old }
        ensures shelf_fault { IsErrOf result StepFault.ShelfFault → IsTrue (names_file command.now) }
        ensures files { F.tells → (name : List ℕ) → F.file shelf.new name ≡ F.file shelf.old name }
        ensures cause { IsErrOf result StepFault.ShelfFault → Rose (F.faults shelf.old) (F.faults shelf.new) }
        ensures faults { F.faults shelf.old ≤ F.faults shelf.new }
        ensures quiet { ¬ IsErrOf result StepFault.ShelfFault → F.faults shelf.new ≡ F.faults shelf.old }
    {
        let asked = self.asked(alloc, command, now, table, shelf)?;
        Ok(self.done(alloc, asked)?)
    }

    // What a command asks for.
    #[tactic(auto, using(crate::proofs::Asking::none_asked, crate::proofs::Asking::manifest_asked, crate::proofs::Asking::context_asked, crate::proofs::Asking::fetch_asked, crate::proofs::Asking::bind_asked))]
    fn asked<F: Shelf>(
        &mut self,
        alloc: Global,
        command: &Command,
        now: u64,
        table: &TransformTable,
        shelf: &mut F,
    ) -> Result<Asked, StepFault>
        requires command { IsCommand command.now }
        requires moment { now ≤ last_moment }
        requires table { HasStandardNames table.now }
        ensures same { self.new ≡ self.old }
        ensures outcome { (IsTrue (names_file command.now) → F.tells) → IfOk result (λ asked. asked_outcome (state_of self.old) (session_of self.old) asked
            ≡ outcome (setting F.Shelf shelf.old now) (state_of self.old) (session_of self.old) command.now) }
        ensures follows { IfOk result (λ asked. FollowsFrom (state_of self.old) asked) }
        ensures typed { IfOk result (λ asked. IsTyped (state_of self.old) (session_of self.old) command.now (answer_for asked)) }
        ensures asked { HasAsked F.Shelf command.now shelf.old shelf.new }
        ensures unasked { names_file command.now ≡ false → shelf.new ≡ shelf.old }
        ensures shelf_fault { IsErrOf result StepFault.ShelfFault → IsTrue (names_file command.now) }
        ensures files { F.tells → (name : List ℕ) → F.file shelf.new name ≡ F.file shelf.old name }
        ensures cause { IsErrOf result StepFault.ShelfFault → Rose (F.faults shelf.old) (F.faults shelf.new) }
        ensures faults { F.faults shelf.old ≤ F.faults shelf.new }
        ensures quiet { ¬ IsErrOf result StepFault.ShelfFault → F.faults shelf.new ≡ F.faults shelf.old }
    {
        match command {
            Command::Manifest { file, channel } => setting_manifest(alloc, shelf, file, channel),
            Command::Context { file } => reading_context(alloc, shelf, file),
            Command::Fetch { file } => fetching(alloc, self.state(), shelf, file),
            Command::Bind { file } => reading_bindings(alloc, shelf, file),
            _ => Ok(self.asked_of_state(alloc, command, now, table)?),
        }
    }

    // What a command asks for that names no file.
    fn asked_of_state(
        &mut self,
        alloc: Global,
        command: &Command,
        now: u64,
        table: &TransformTable,
    ) -> Result<Asked, AllocError>
        requires files { names_file command.now ≡ false }
        requires command { IsCommand command.now }
        requires moment { now ≤ last_moment }
        requires table { HasStandardNames table.now }
        ensures same { self.new ≡ self.old }
        ensures outcome { IfOk result (λ asked. (files : List ℕ → Option (List ℕ)) → asked_outcome (state_of self.old) (session_of self.old) asked
            ≡ outcome (record { files = files; now = now }) (state_of self.old) (session_of self.old) command.now) }
        ensures follows { IfOk result (λ asked. FollowsFrom (state_of self.old) asked) }
        ensures typed { IfOk result (λ asked. IsTyped (state_of self.old) (session_of self.old) command.now (answer_for asked)) }
    {
        match command {
            Command::Apply => applying(alloc, self.state(), &self.session, table, now),
            Command::Participate { kinds, on } => participating(alloc, self.state(), *kinds, *on),
            Command::OptOut { slug } => self.opting_out(alloc, slug),
            Command::OptIn { slug, branch } => self.opting_in(alloc, slug, branch),
            Command::Reset { id } => resetting(alloc, self.state(), *id),
            Command::Show => showing(self.state()),
            Command::Feature { name } => serving(alloc, self.state(), &self.session, name),
            Command::WriteManifest => writing_manifest(alloc, &self.session),
            Command::Event { name, count } => counting(alloc, self.state(), name, *count, now),
            Command::Changes => listing_changes(self.state()),
            Command::Confirm { number } => confirming(alloc, self.state(), *number),
            Command::SetPreference { name, value } => self.preferring(alloc, name, Some(value)),
            Command::ClearPreference { name } => self.preferring(alloc, name, None),
            Command::Preferences => listing_preferences(self.state()),
            Command::Manifest { .. } => unreachable!(),
            Command::Context { .. } => unreachable!(),
            Command::Fetch { .. } => unreachable!(),
            Command::Bind { .. } => unreachable!(),
        }
    }

    // The step of what is asked for, unless numbers of changes are spent or the new state is too large.
    fn done(&mut self, alloc: Global, asked: Asked) -> Result<Prepared, AllocError>
        requires { FollowsFrom (state_of self.old) asked }
        ensures same { IsSameClient self.old self.new }
        ensures made { IfOk result (λ prepared. IsMadeOn self.new prepared) }
        ensures step { IfOk result (λ prepared. Leads self.new prepared (done (state_of self.old) (session_of self.old)
            (asked_outcome (state_of self.old) (session_of self.old) asked))) }
        ensures answer { IfOk result (λ prepared. IsAnswerOrRefused (answer_for asked) (answer_in prepared)) }
    {
        match asked {
            Asked::NewState { change, answer } => self.changed(alloc, change, answer),
            Asked::Followed { change, answer } => self.changed_to(alloc, change, answer),
            Asked::SameState { change, answer } => Ok(self.unchanged(change, answer)),
            Asked::Refused(refusal) => {
                Ok(self.unchanged(SessionChange::Stays, Answer::Refused(refusal)))
            }
        }
    }

    // The step to the state after a change, with what follows the change: unless numbers are spent, or else the state is too large.
    fn changed(
        &mut self,
        alloc: Global,
        mut change: BoxedChange,
        answer: Answer,
    ) -> Result<Prepared, AllocError>
        requires change { IsChangeOf (state_of self.old) change }
        requires preferences { change.preferences ≡ None }
        ensures same { IsSameClient self.old self.new }
        ensures made { IfOk result (λ prepared. IsMadeOn self.new prepared) }
        ensures step { IfOk result (λ prepared. Leads self.new prepared (done (state_of self.old) (session_of self.old) (changed_outcome (state_of self.old) (session_of self.old) change answer))) }
        ensures answer { IfOk result (λ prepared. IsAnswerOrRefused answer (answer_in prepared)) }
    {
        match self.followed(alloc, change.get_mut()) {
            Ok(()) => self.changed_to(alloc, change, answer),
            Err(AppendChangesFault::ChangesSpent) => {
                Ok(self.unchanged(SessionChange::Stays, Answer::Refused(Refusal::ChangesSpent)))
            }
            Err(AppendChangesFault::OutOfMemory) => Err(AllocError),
        }
    }

    // Adds what follows the change to it, by the session's manifest and bindings. The state is lent to that, and stays the same.
    pub(crate) fn followed(
        &mut self,
        alloc: Global,
        change: &mut StateChange,
    ) -> Result<(), AppendChangesFault>
        requires change { IsChangeOf (state_of self.old) change.old }
        requires preferences { change.old.preferences ≡ None }
        ensures same { self.new ≡ self.old }
        ensures followed { OnOk result (state_after change.new (state_of self.old)
            ≡ followed (session_of self.old).manifest (session_of self.old).bindings change.old (state_of self.old)) }
        ensures change { OnOk result (IsWholeChangeOf (state_of self.old) change.new) }
        ensures not_spent { OnOk result (spends change.old (state_of self.old) ≡ false) }
        ensures spent { IsErrOf result AppendChangesFault.ChangesSpent → IsTrue (spends change.old (state_of self.old)) }
    {
        // Its contract says that the state is sound.
        self.store.state();
        let manifest = self.session.manifest();
        let bindings = self.session.bindings();
        self.store.follow(alloc, change, manifest, bindings)
    }

    // The step to the state after a change, unless it is too large.
    fn changed_to(
        &mut self,
        alloc: Global,
        change: BoxedChange,
        answer: Answer,
    ) -> Result<Prepared, AllocError>
        requires { IsWholeChangeOf (state_of self.old) change }
        ensures same { IsSameClient self.old self.new }
        ensures made { IfOk result (λ prepared. IsMadeOn self.new prepared) }
        ensures step { IfOk result (λ prepared. Leads self.new prepared (done (state_of self.old) (session_of self.old) (Accepted (state_after change (state_of self.old)) (session_of self.old) answer))) }
        ensures answer { IfOk result (λ prepared. IsAnswerOrRefused answer (answer_in prepared)) }
    {
        match self.store.prepare(alloc, change)? {
            Ok(change) => Ok(Prepared {
                change,
                session: SessionChange::Stays,
                answer,
            }),
            Err(size) => Ok(self.unchanged(
                SessionChange::Stays,
                Answer::Refused(Refusal::StateTooLarge(size)),
            )),
        }
    }

    // The state is as before.
    fn unchanged(&self, session: SessionChange, answer: Answer) -> Prepared
        ensures sound { length (encoding (state_of self.now)) ≤ max_size }
        ensures made { IsMadeOn self.now result }
        ensures step { Leads self.now result (record { state = state_of self.now; session = changed_by (session_of self.now) session; answer = answer }) }
    {
        // Its contract says that the state is sound.
        self.store.state();
        Prepared {
            change: None,
            session,
            answer,
        }
    }
}
