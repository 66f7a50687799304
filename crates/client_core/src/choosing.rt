// `opt-out` and `opt-in`: the state is lent to what they ask for.
ghost use Rattle.std.specs.Prelude.{◌≡◌, IfOk};
ghost use Rattle.client_steps.specs.Asked.{asked_outcome, FollowsFrom};
ghost use Rattle.client_steps.specs.Steps.{enrolling, opting_in, opting_out};

use crate::client::Client;
use client_steps::{Asked, opting_in, opting_out};
use plain_text::Slug;
use std::alloc::{AllocError, Global};

impl Client {
    ghost use Rattle.client_core.specs.Clients.{state_of, session_of};

    /// What `opt-out` asks for.
    pub(crate) fn opting_out(&mut self, alloc: Global, slug: &Slug) -> Result<Asked, AllocError>
        ensures same { self.new ≡ self.old }
        ensures asks { IfOk result (λ asked. asked_outcome (state_of self.old) (session_of self.old) asked
            ≡ enrolling (state_of self.old) (session_of self.old) (opting_out (state_of self.old).enrolment (session_of self.old) slug.now)) }
        ensures follows { IfOk result (λ asked. FollowsFrom (state_of self.old) asked) }
    {
        // Its contract says that the state is sound.
        self.state();
        self.store.lend(|state| opting_out(alloc, state, slug))
    }

    /// What `opt-in` asks for.
    pub(crate) fn opting_in(
        &mut self,
        alloc: Global,
        slug: &Slug,
        branch: &Slug,
    ) -> Result<Asked, AllocError>
        ensures same { self.new ≡ self.old }
        ensures asks { IfOk result (λ asked. asked_outcome (state_of self.old) (session_of self.old) asked
            ≡ enrolling (state_of self.old) (session_of self.old) (opting_in (state_of self.old).enrolment (session_of self.old) slug.now branch.now)) }
        ensures follows { IfOk result (λ asked. FollowsFrom (state_of self.old) asked) }
    {
        // Its contract says that the state is sound.
        self.state();
        self.store
            .lend(|state| opting_in(alloc, state, slug, branch))
    }
}
