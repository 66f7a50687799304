// A transform in a table, beside what is known of it.
ghost use Rattle.std.specs.Prelude.{map};
ghost use Rattle.jexl_value.specs.Value.{as_json};
ghost use Rattle.jexl_transforms.specs.Meaning.{meaning};
ghost use Rattle.jexl_transforms.specs.Answering.{Answers, AnswersAs};

use crate::answer::{Transform, TransformAnswer};
use jexl_value::{Attributes, Value};
use sequences::Text;

/// A transform under its name. It may be called on all arguments, and answers what its name means or
/// want of memory.
#[derive(Drop)]
pub struct Entry {
    pub name: Text,
    pub run: Transform,
    ghost callable: { Transform.IsAlwaysCallable run },
    ghost answers: { ∥ AnswersAs name (Transform.post run) ∥₁ },
}

impl Entry {
    /// What the transform answers.
    pub fn answer(
        &self,
        attributes: &Attributes,
        subject: &Value,
        arguments: &[Value],
    ) -> TransformAnswer
        ensures { Transform.post self.now.run attributes.entry subject.entry arguments.entry result }
    {
        (self.run)(attributes, subject, arguments)
    }
}
