// The session of a run.
ghost use Rattle.std.specs.Prelude.{◌≡◌, option_map};
ghost use Rattle.client_steps.specs.Sessions.{no_session, changed_by};

use crate::linked_manifest::LinkedManifest;
use crate::run_context::RunContext;
use fml_types::Manifest;
use pref_bindings::Bindings;

/// What a run keeps beside the client's state, from one command to the next. It begins and ends with the run.
#[derive(Drop)]
pub struct Session {
    /// The manifest that was set last.
    pub(crate) manifest: Option<LinkedManifest>,
    /// The context that was read last.
    pub(crate) context: Option<RunContext>,
    /// The bindings of preferences that were read last.
    pub(crate) bindings: Option<Bindings>,
}

/// What a step makes of the session.
#[derive(Drop)]
pub enum SessionChange {
    /// It is as before.
    Stays,
    /// This manifest is set.
    Manifest(LinkedManifest),
    /// This context is set.
    Context(RunContext),
    /// These bindings are set.
    Bindings(Bindings),
}

impl Session {
    /// The session of a run that begins.
    pub fn new() -> Session
        ensures { result ≡ no_session }
    {
        Session {
            manifest: None,
            context: None,
            bindings: None,
        }
    }

    /// The manifest that was set last. It takes no memory.
    pub fn manifest(&self) -> Option<&Manifest>
        ensures { option_map (λ m. m.now) result ≡ self.now.manifest }
    {
        match &self.manifest {
            Some(linked) => Some(linked.manifest()),
            None => None,
        }
    }

    /// The bindings that were read last. It takes no memory.
    pub fn bindings(&self) -> Option<&Bindings>
        ensures { option_map (λ b. b.now) result ≡ self.now.bindings }
    {
        self.bindings.as_ref()
    }

    /// Takes a change over.
    pub fn take_over(&mut self, change: SessionChange)
        ensures { self.new ≡ changed_by self.old change }
    {
        match change {
            SessionChange::Stays => {}
            SessionChange::Manifest(manifest) => self.manifest = Some(manifest),
            SessionChange::Context(context) => self.context = Some(context),
            SessionChange::Bindings(bindings) => self.bindings = Some(bindings),
        }
    }
}
