// The context of a run.
ghost use Rattle.std.specs.Prelude.{◌≡◌, IfOk};

use app_context::Context;
use std::alloc::{AllocError, Global};
use std::marker::Model;

/// The context of a run, in a box. Contracts see it as the context.
#[derive(Drop)]
pub struct RunContext {
    context: Box<Context>,
}

impl Model for RunContext {
    ghost use Rattle.std.specs.Coded.{codes};
    ghost use Rattle.json_tree.specs.Json.{json_code};
    ghost use Rattle.app_context.specs.declared.context.Context.{Context};

    ghost Value = { Context };

    ghost coded = { Prim.hlevel (codes, json_code) };

    ghost view = { λ c. c.context.value };
}

impl RunContext {
    /// A context in a box of its own.
    pub(crate) fn new(alloc: Global, context: Context) -> Result<RunContext, AllocError>
        ensures { IfOk result (λ c. c ≡ context) }
    {
        Ok(RunContext {
            context: Box::new(alloc, context)?,
        })
    }

    /// The context. It takes no memory.
    pub(crate) fn get(&self) -> &Context
        ensures { result.now ≡ self.now }
    {
        &self.context
    }
}
