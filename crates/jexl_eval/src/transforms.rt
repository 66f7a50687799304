// Calls of transforms.
ghost use Rattle.std.specs.Prelude.{ℕ, Bool, List, map};
ghost use Rattle.json_tree.specs.Json.{members_of};
ghost use Rattle.jexl_value.specs.Value.{as_json};
ghost use Rattle.jexl_transforms.specs.Answering.{Calls};
ghost use Rattle.jexl_transforms.specs.Table.{has_transform};
ghost use Rattle.jexl_eval.specs.Gives.{Gives};
ghost use Rattle.jexl_eval.specs.Seen.{found_as_json};
ghost use Rattle.jexl_eval.specs.Meaning.{transformed};

use crate::fault::EvalFault;
use crate::found::Found;
use crate::scene::Scene;
use jexl_transforms::{CallFault, TransformTable};
use jexl_value::{Attributes, Value};

/// What answers calls of transforms.
pub(crate) trait TransformCalls {
    /// Whether there is a transform of this name.
    ghost has: { Self → List ℕ → Bool };

    /// The value of the transform of this name beside these attributes, for a subject and arguments.
    fn answer(
        &self,
        name: &str,
        attributes: &Attributes,
        subject: &Value,
        arguments: &[Value],
    ) -> Result<Value, CallFault>
        ensures { Calls (has self.now) name.now (members_of attributes.now.pairs) (as_json subject.now) (map as_json arguments.now) result };
}

impl TransformCalls for TransformTable {
    ghost has = { has_transform };

    fn answer(
        &self,
        name: &str,
        attributes: &Attributes,
        subject: &Value,
        arguments: &[Value],
    ) -> Result<Value, CallFault> {
        self.call(name, attributes, subject, arguments)
    }
}

/// The value of the scene's transform of this name. UnknownTransform exactly where there is none, and
/// BadArguments exactly where the transform refuses the subject and the arguments.
pub(crate) fn transformed<'a, C: TransformCalls>(
    scene: &Scene<'_, '_, C>,
    name: &str,
    subject: &Value,
    arguments: &[Value],
) -> Result<Found<'a>, EvalFault>
    ensures { Gives found_as_json result (transformed (C.TransformCalls.has scene.now.table.now) name.now (members_of scene.now.attributes.now.pairs) (as_json subject.now) (map as_json arguments.now)) }
{
    match scene
        .table
        .answer(name, scene.attributes, subject, arguments)
    {
        Ok(value) => Ok(Found::Owned(value)),
        Err(CallFault::UnknownTransform) => Err(EvalFault::UnknownTransform),
        Err(CallFault::BadArguments) => Err(EvalFault::BadArguments),
        Err(CallFault::OutOfMemory) => Err(EvalFault::OutOfMemory),
    }
}
