// What a recipe's targeting says of a client.
ghost use Rattle.std.specs.Prelude.{◌≡◌, IfOk, Result};
ghost use Rattle.json_tree.specs.Json.{Json};
ghost use Rattle.jexl_eval.specs.Faults.{Fault};
ghost use Rattle.jexl_eval.specs.Gives.{Gives};
ghost use Rattle.jexl_eval.specs.Meaning.{truth_meant};
ghost use Rattle.enrol_evolver.specs.Expressions.{evaluating_wants_memory};
ghost use Rattle.enrol_evolver.specs.Targeting.{targeting, said, said_by, said_by_truth, tree_of};
ghost use Rattle.enrol_evolver.specs.Clients.{of_client, IsInOrder, IsReadyFor};

use crate::client::Client;
use crate::expressions::expression_of;
use app_context::set_already_enrolled;
use enrol_states::ErrorCause;
use jexl_eval::{EvalFault, eval_truth};
use jexl_transforms::TransformTable;
use jexl_value::Attributes;
use plain_text::Slug;
use recipe_reader::Recipe;
use std::alloc::{AllocError, Global};

/// What a recipe's targeting says of a client.
#[derive(Clone, Copy, Debug, PartialEq, Eq, Drop)]
pub enum Targeting {
    /// The client may enrol: the expression is true, or there is none.
    Passes,
    /// The expression is false.
    Misses,
    /// The expression says neither.
    Fails(ErrorCause),
}

/// What expressions are evaluated by.
#[derive(Drop)]
pub(crate) struct Evaluator<'a> {
    /// The client's attributes, for whichever recipe was judged last.
    pub(crate) attributes: Attributes,
    /// The standard transforms.
    pub(crate) table: &'a TransformTable,
}

/// What the recipe's targeting says of the client.
pub(crate) fn targeting_of(
    alloc: Global,
    client: &Client,
    evaluator: &mut Evaluator,
    recipe: &Recipe,
) -> Result<Targeting, AllocError>
    requires in_order { IsInOrder client.now }
    requires ready { IsReadyFor client.now evaluator.old }
    ensures says { IfOk result (λ t. t ≡ of_client targeting client.now recipe.now) }
    ensures ready { IsReadyFor client.now evaluator.new }
{
    match &recipe.targeting {
        Some(text) => said_by(alloc, client, evaluator, &recipe.slug, text.as_str()),
        None => Ok(Targeting::Passes),
    }
}

/// What the text says of the client, for the recipe of the slug.
fn said_by(
    alloc: Global,
    client: &Client,
    evaluator: &mut Evaluator,
    slug: &Slug,
    text: &str,
) -> Result<Targeting, AllocError>
    requires in_order { IsInOrder client.now }
    requires ready { IsReadyFor client.now evaluator.old }
    ensures says { IfOk result (λ t. t ≡ of_client said_by client.now slug.now (tree_of text.now)) }
    ensures ready { IsReadyFor client.now evaluator.new }
{
    let Some(expression) = expression_of(alloc, text)? else {
        return Ok(Targeting::Fails(ErrorCause::Unparsed));
    };
    set_already_enrolled(alloc, &mut evaluator.attributes, client.state, slug)?;
    let truth = eval_truth(alloc, &expression, &evaluator.attributes, evaluator.table);
    said(truth)
}

/// What the truth value says, or a fault in its place.
fn said(truth: Result<Option<bool>, EvalFault>) -> Result<Targeting, AllocError>
    ensures { (meant : Result Json Fault) → Gives (λ t. t) truth (truth_meant meant) → IfOk result (λ t. t ≡ said meant) }
{
    match truth {
        Ok(truth) => Ok(said_by_truth(truth)),
        Err(fault) => {
            if evaluating_wants_memory(fault) {
                return Err(AllocError);
            }
            Ok(Targeting::Fails(ErrorCause::Faulted))
        }
    }
}

/// What the truth value says, or that there is none: `true` and `false` alone are truths.
fn said_by_truth(truth: Option<bool>) -> Targeting
    ensures { result ≡ said_by_truth truth }
{
    match truth {
        Some(true) => Targeting::Passes,
        Some(false) => Targeting::Misses,
        None => Targeting::Fails(ErrorCause::NotTruth),
    }
}

fn evaluating_wants_memory(fault: EvalFault) -> bool
    ensures { result ≡ evaluating_wants_memory fault }
{
    matches!(fault, EvalFault::OutOfMemory)
}
