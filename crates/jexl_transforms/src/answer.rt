// What a transform answers, and what a table of them does.
ghost use Rattle.std.specs.Prelude.{◌≡◌};
ghost use Rattle.jexl_transforms.specs.Answering.{result_of};

use jexl_value::{Attributes, Value};

/// A stored transform: from the attributes, the subject and the arguments to an answer.
pub type Transform = Box<dyn Fn(&Attributes, &Value, &[Value]) -> TransformAnswer>;

/// What a transform answers.
#[derive(Drop)]
pub enum TransformAnswer {
    /// Its value.
    Gives(Value),
    /// No value: it takes no such subject or arguments.
    Refused,
    /// Want of memory.
    OutOfMemory,
}

/// Why a transform was not put into a table. The box comes back.
#[derive(Drop)]
pub enum PushFault {
    /// The table has a transform of this name.
    DuplicateName(Transform),
    /// Want of memory.
    OutOfMemory(Transform),
}

/// Why a call of a transform has no value.
#[derive(Debug, Drop, Clone, Copy, PartialEq, Eq)]
pub enum CallFault {
    /// The table has no transform of this name.
    UnknownTransform,
    /// The transform refuses the subject and the arguments.
    BadArguments,
    /// Want of memory.
    OutOfMemory,
}

/// What a call of a table says where its transform gives this answer.
pub(crate) fn result_of(answer: TransformAnswer) -> Result<Value, CallFault>
    ensures { result ≡ result_of answer }
{
    match answer {
        TransformAnswer::Gives(value) => Ok(value),
        TransformAnswer::Refused => Err(CallFault::BadArguments),
        TransformAnswer::OutOfMemory => Err(CallFault::OutOfMemory),
    }
}
