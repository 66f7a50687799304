// A step, built before anything of it is written.
ghost use Rattle.std.specs.Prelude.{◌≡◌};

use client_steps::SessionChange;
use client_store::Change;
use client_words::Answer;

/// What a command leaves, and its answer. Where the state changes it holds the parts that change, with the changed rows.
#[derive(Drop)]
pub struct Prepared {
    pub(crate) change: Option<Change>,
    /// What becomes of the session.
    pub(crate) session: SessionChange,
    pub(crate) answer: Answer,
}

impl Prepared {
    ghost use Rattle.client_core.specs.Prepared.{answer_in};

    /// The answer to the command. It takes no memory.
    pub fn answer(&self) -> &Answer
        ensures { result.now ≡ answer_in self.now }
    {
        &self.answer
    }
}
