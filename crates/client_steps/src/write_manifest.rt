// `write-manifest`: the manifest of the run as one file.
ghost use Rattle.std.specs.Prelude.{◌≡◌, IfOk};
ghost use Rattle.json_tree.specs.declared.tree.Tree.{Tree};
ghost use Rattle.client_state.specs.declared.client_state.ClientState.{ClientState};
ghost use Rattle.client_steps.specs.Asked.{asked_outcome, answer_for, FollowsFrom};
ghost use Rattle.client_steps.specs.Steps.{writing_manifest};
ghost use Rattle.client_steps.specs.WrittenManifests.{IsWritten};

use crate::asked::Asked;
use crate::session::Session;
use client_words::{Answer, Refusal};
use fml_imports::single;
use std::alloc::{AllocError, Global};

/// What `write-manifest` asks for. A file with the answered tree's text, of at most 4,194,304 bytes, makes an equal manifest
/// for the manifest's channel.
pub fn writing_manifest(alloc: Global, session: &Session) -> Result<Asked, AllocError>
    ensures asks { IfOk result (λ asked. (s : ClientState) → asked_outcome s session.now asked
        ≡ writing_manifest s session.now session.now.manifest) }
    ensures follows { IfOk result (λ asked. (s : ClientState) → FollowsFrom s asked) }
    ensures written { IfOk result (λ asked. (tree : Tree) → answer_for asked ≡ Answer.Manifest tree → IsWritten session.now tree) }
{
    let Some(linked) = &session.manifest else {
        return Ok(Asked::Refused(Refusal::NoManifest));
    };
    let tree = single(alloc, linked.manifest())?;
    Ok(Asked::same(Answer::Manifest(tree)))
}
