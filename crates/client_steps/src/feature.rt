// What a feature has.
ghost use Rattle.std.specs.Prelude.{◌≡◌, IfOk};
ghost use Rattle.client_state.specs.Sound.{IsConsistent};
ghost use Rattle.client_words.specs.declared.command.Command.TheVariants.{Feature};
ghost use Rattle.client_steps.specs.Asked.{asked_outcome, answer_for, FollowsFrom};
ghost use Rattle.client_steps.specs.ServedValues.{IsTyped};
ghost use Rattle.client_steps.specs.Steps.{serving};

use crate::asked::Asked;
use crate::session::Session;
use client_state::ClientState;
use client_words::{Answer, Refusal};
use feature_serving::{ServeFault, served};
use fml_value::to_tree;
use sequences::Text;
use std::alloc::{AllocError, Global};

/// What `feature` asks for.
pub fn serving(
    alloc: Global,
    state: &ClientState,
    session: &Session,
    name: &Text,
) -> Result<Asked, AllocError>
    requires { IsConsistent state.now }
    ensures asks { IfOk result (λ asked. asked_outcome state.now session.now asked
        ≡ serving state.now session.now name.now session.now.manifest) }
    ensures follows { IfOk result (λ asked. FollowsFrom state.now asked) }
    ensures typed { IfOk result (λ asked. IsTyped state.now session.now (Feature name.now) (answer_for asked)) }
{
    let Some(linked) = &session.manifest else {
        return Ok(Asked::Refused(Refusal::NoManifest));
    };
    match served(alloc, linked.manifest(), &state.enrolment, name.as_str()) {
        Ok(value) => {
            let tree = to_tree(alloc, &value)?;
            Ok(Asked::same(Answer::Value(tree)))
        }
        Err(ServeFault::UnknownFeature) => Ok(Asked::Refused(Refusal::UnknownFeature)),
        Err(ServeFault::OutOfMemory) => Err(AllocError),
    }
}
