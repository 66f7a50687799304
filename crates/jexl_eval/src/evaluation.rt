// The value of a tree.
//
// A filter's condition is evaluated for each item. A part of it that has one value for all of them, as
// `preparing.rt` says which, is evaluated where the first item asks for it, and is known from then on
// until the whole expression was evaluated. So filters within conditions don't multiply, unless their
// subjects depend on the item.
ghost use Rattle.std.specs.Prelude.{◌≡◌, [], ◌∷◌, ◌++◌, Some, Ok, OnOk, if◌then◌else◌};
ghost use Rattle.json_tree.specs.Json.{null, members_of};
ghost use Rattle.jexl_parser.specs.View.{view, views, view_pairs, constant as literal_of};
ghost use Rattle.jexl_value.specs.Meaning.{is_truthy};
ghost use Rattle.jexl_value.specs.Names.{with_member};
ghost use Rattle.jexl_value.specs.Value.{as_json};
ghost use Rattle.jexl_transforms.specs.Table.{has_transform};
ghost use Rattle.jexl_eval.specs.Gives.{Gives};
ghost use Rattle.jexl_eval.specs.Seen.{found_as_json};
ghost use Rattle.jexl_eval.specs.Places.{trees_of, Fits, FitsBelow, AllFit, PairsFit, IsPart};
ghost use Rattle.jexl_eval.specs.Parts.{values_of, AreKnown};
ghost use Rattle.jexl_eval.specs.FirstValues.{members_meant, index_meant, filter_meant, operation_meant};
ghost use Rattle.jexl_eval.specs.Meaning.{meaning, meanings, pair_meanings, constant, truth_of, truth_meant};

use crate::elements::{index, member, member_of, value_or_null};
use crate::fault::EvalFault;
use crate::found::{Found, list, object, opposite, truth};
use crate::known::Known;
use crate::operations::{decided, filter_items, operate};
use crate::places::Places;
use crate::preparing::prepare;
use crate::scene::Scene;
use crate::transforms::{TransformCalls, transformed};
use jexl_parser::{BinarySign, Expr, Literal, Node};
use jexl_transforms::TransformTable;
use jexl_value::{Attributes, NamedValues, Text, Value, Values, truthy};
use std::alloc::{AllocError, Global};

/// The value of an expression.
///
/// # Errors
///
/// The first fault from the left, each exactly where the meaning has it: `Overflow` where the result
/// of an operation is no whole number of 64 bits, `ZeroDivisor` where the right side of `//` or `%` is
/// 0, `Kind` where an operation or a filter isn't for values of these kinds or an exponent is below 0,
/// `UnknownTransform` where the table has no transform of a name, and `BadArguments` where a transform
/// refuses its subject or its arguments. `OutOfMemory` where memory is wanting.
pub fn eval(
    alloc: Global,
    expr: &Expr,
    attributes: &Attributes,
    table: &TransformTable,
) -> Result<Value, EvalFault>
    ensures { Gives as_json result (meaning (has_transform table.now) (members_of attributes.now.pairs) null (view expr.now.root)) }
{
    let nothing = Value::Null;
    match found(alloc, expr, attributes, table, &nothing) {
        Ok(found) => Ok(found.into_value()?),
        Err(fault) => Err(fault),
    }
}

/// The truth value that an expression has, and none where its value is of another kind. The value is
/// not copied.
///
/// # Errors
///
/// Those of `eval`, each exactly where the meaning has it, and `OutOfMemory` where memory is wanting.
#[tactic(auto, using(crate::proofs::Faulting::truth_fails))]
pub fn eval_truth(
    alloc: Global,
    expr: &Expr,
    attributes: &Attributes,
    table: &TransformTable,
) -> Result<Option<bool>, EvalFault>
    ensures { Gives (λ t. t) result (truth_meant (meaning (has_transform table.now) (members_of attributes.now.pairs) null (view expr.now.root))) }
{
    let nothing = Value::Null;
    match found(alloc, expr, attributes, table, &nothing) {
        Ok(found) => Ok(truth_of(found.value())),
        Err(fault) => Err(fault),
    }
}

fn truth_of(value: &Value) -> Option<bool>
    ensures { result ≡ truth_of (as_json value.now) }
{
    match value {
        Value::Truth(truth) => Some(*truth),
        _ => None,
    }
}

// The value of an expression, borrowed where it lies in the attributes.
fn found<'a>(
    alloc: Global,
    expr: &Expr,
    attributes: &'a Attributes,
    table: &TransformTable,
    nothing: &'a Value,
) -> Result<Found<'a>, EvalFault>
    ensures { Gives found_as_json result (meaning (has_transform table.now) (members_of attributes.now.pairs) (as_json nothing.now) (view expr.now.root)) }
{
    let mut parts = Vec::new(alloc);
    let places = prepare(alloc, &expr.root, &mut parts)?;
    let mut known = Known::new(alloc, parts.len())?;
    let scene = Scene {
        alloc,
        attributes,
        table,
        parts: parts.as_slice(),
        current: nothing,
    };
    evaluate(&expr.root, &places, &scene, &mut known)
}

// The value of a tree, borrowed where it lies in the attributes or in the current item. It is kept where
// the tree has a place.
#[cycle(evaluate)]
fn evaluate<'a, C: TransformCalls>(
    node: &Node,
    places: &Places,
    scene: &Scene<'a, '_, C>,
    known: &mut Known,
) -> Result<Found<'a>, EvalFault>
    requires fits { Fits (trees_of scene.now.parts.now) (view node.now) places.now }
    requires known { AreKnown (C.TransformCalls.has scene.now.table.now) (members_of scene.now.attributes.now.pairs) (trees_of scene.now.parts.now) (values_of known.old) }
    ensures value { Gives found_as_json result (meaning (C.TransformCalls.has scene.now.table.now) (members_of scene.now.attributes.now.pairs) (as_json scene.now.current.now) (view node.now)) }
    ensures known { OnOk result (AreKnown (C.TransformCalls.has scene.now.table.now) (members_of scene.now.attributes.now.pairs) (trees_of scene.now.parts.now) (values_of known.new)) }
{
    match places.place() {
        Some(place) => kept_part(place, node, places.below(), scene, known),
        None => unkept(node, places.below(), scene, known),
    }
}

// The value of a tree, where parts below it may be kept.
#[cycle(evaluate)]
fn unkept<'a, C: TransformCalls>(
    node: &Node,
    places: &Places,
    scene: &Scene<'a, '_, C>,
    known: &mut Known,
) -> Result<Found<'a>, EvalFault>
    requires fits { FitsBelow (trees_of scene.now.parts.now) (view node.now) places.now }
    requires known { AreKnown (C.TransformCalls.has scene.now.table.now) (members_of scene.now.attributes.now.pairs) (trees_of scene.now.parts.now) (values_of known.old) }
    ensures value { Gives found_as_json result (meaning (C.TransformCalls.has scene.now.table.now) (members_of scene.now.attributes.now.pairs) (as_json scene.now.current.now) (view node.now)) }
    ensures known { OnOk result (AreKnown (C.TransformCalls.has scene.now.table.now) (members_of scene.now.attributes.now.pairs) (trees_of scene.now.parts.now) (values_of known.new)) }
{
    match node {
        Node::Literal(literal) => constant(literal),
        Node::Name(name) => Ok(value_or_null(scene.attributes.get(name.as_str()))),
        Node::Relative(name) => Ok(member_of(scene.current, name.as_str())),
        Node::List(nodes) => Ok(list(each(nodes.as_slice(), places, scene, known)?)),
        Node::Members(pairs) => Ok(object(each_member(pairs.as_slice(), places, scene, known)?)),
        Node::Member(subject, name) => {
            member(evaluate(subject, places, scene, known)?, name.as_str())
        }
        Node::Index(subject, key) => {
            let subject = evaluate(subject, places, scene, known)?;
            indexed(subject, key, places.after(), scene, known)
        }
        Node::Filter(subject, condition) => {
            let subject = evaluate(subject, places, scene, known)?;
            filtered(subject, condition, places.after(), scene, known)
        }
        Node::Transform(subject, name, arguments) => {
            let subject = evaluate(subject, places, scene, known)?;
            let arguments = each(arguments.as_slice(), places.after(), scene, known)?;
            transformed(scene, name.as_str(), subject.value(), arguments.as_slice())
        }
        Node::Not(inside) => Ok(opposite(evaluate(inside, places, scene, known)?)),
        Node::Binary(sign, left, right) => {
            let left = evaluate(left, places, scene, known)?;
            operation(*sign, left, right, places.after(), scene, known)
        }
        Node::Choose(condition, first, second) => {
            let condition = evaluate(condition, places, scene, known)?;
            if truthy(condition.value()) {
                evaluate(first, places.after(), scene, known)
            } else {
                evaluate(second, places.after().after(), scene, known)
            }
        }
        Node::OrElse(first, second) => {
            let first = evaluate(first, places, scene, known)?;
            or_else(first, second, places.after(), scene, known)
        }
    }
}

// The values of trees, from the left.
#[cycle(evaluate)]
fn each<'a, C: TransformCalls>(
    nodes: &[Node],
    places: &Places,
    scene: &Scene<'a, '_, C>,
    known: &mut Known,
) -> Result<Values, EvalFault>
    requires fits { AllFit (trees_of scene.now.parts.now) (views nodes.now) places.now }
    requires known { AreKnown (C.TransformCalls.has scene.now.table.now) (members_of scene.now.attributes.now.pairs) (trees_of scene.now.parts.now) (values_of known.old) }
    ensures value { Gives (λ xs. xs) result (meanings (C.TransformCalls.has scene.now.table.now) (members_of scene.now.attributes.now.pairs) (as_json scene.now.current.now) (views nodes.now)) }
    ensures known { OnOk result (AreKnown (C.TransformCalls.has scene.now.table.now) (members_of scene.now.attributes.now.pairs) (trees_of scene.now.parts.now) (values_of known.new)) }
{
    let mut values = Values::new(scene.alloc);
    let mut places = places;
    for node in nodes {
        let value = evaluate(node, places, scene, known)?;
        push(&mut values, value)?;
        places = places.after();
    }
    Ok(values)
}

// The members that get the values of trees, one after another.
#[cycle(evaluate)]
fn each_member<'a, C: TransformCalls>(
    pairs: &[(Text, Node)],
    places: &Places,
    scene: &Scene<'a, '_, C>,
    known: &mut Known,
) -> Result<NamedValues, EvalFault>
    requires fits { PairsFit (trees_of scene.now.parts.now) (view_pairs pairs.now) places.now }
    requires known { AreKnown (C.TransformCalls.has scene.now.table.now) (members_of scene.now.attributes.now.pairs) (trees_of scene.now.parts.now) (values_of known.old) }
    ensures value { Gives (λ ms. ms) result (members_meant (pair_meanings (C.TransformCalls.has scene.now.table.now) (members_of scene.now.attributes.now.pairs) (as_json scene.now.current.now) (view_pairs pairs.now))) }
    ensures known { OnOk result (AreKnown (C.TransformCalls.has scene.now.table.now) (members_of scene.now.attributes.now.pairs) (trees_of scene.now.parts.now) (values_of known.new)) }
{
    let mut members = NamedValues::new(scene.alloc);
    let mut places = places;
    for (name, node) in pairs {
        let member = evaluate(node, places, scene, known)?;
        put(&mut members, name, member)?;
        places = places.after();
    }
    Ok(members)
}

// The part of a value at a key.
#[cycle(evaluate)]
fn indexed<'a, C: TransformCalls>(
    subject: Found<'a>,
    key: &Node,
    places: &Places,
    scene: &Scene<'a, '_, C>,
    known: &mut Known,
) -> Result<Found<'a>, EvalFault>
    requires fits { Fits (trees_of scene.now.parts.now) (view key.now) places.now }
    requires known { AreKnown (C.TransformCalls.has scene.now.table.now) (members_of scene.now.attributes.now.pairs) (trees_of scene.now.parts.now) (values_of known.old) }
    ensures value { Gives found_as_json result (index_meant (found_as_json subject.entry) (meaning (C.TransformCalls.has scene.now.table.now) (members_of scene.now.attributes.now.pairs) (as_json scene.now.current.now) (view key.now))) }
    ensures known { OnOk result (AreKnown (C.TransformCalls.has scene.now.table.now) (members_of scene.now.attributes.now.pairs) (trees_of scene.now.parts.now) (values_of known.new)) }
{
    let key = evaluate(key, places, scene, known)?;
    index(subject, key.value())
}

// The items for which the condition's value counts as true.
#[cycle(evaluate)]
fn filtered<'a, C: TransformCalls>(
    subject: Found<'a>,
    condition: &Node,
    places: &Places,
    scene: &Scene<'a, '_, C>,
    known: &mut Known,
) -> Result<Found<'a>, EvalFault>
    requires fits { Fits (trees_of scene.now.parts.now) (view condition.now) places.now }
    requires known { AreKnown (C.TransformCalls.has scene.now.table.now) (members_of scene.now.attributes.now.pairs) (trees_of scene.now.parts.now) (values_of known.old) }
    ensures value { Gives found_as_json result (filter_meant (λ x. meaning (C.TransformCalls.has scene.now.table.now) (members_of scene.now.attributes.now.pairs) x (view condition.now)) (found_as_json subject.entry)) }
    ensures known { OnOk result (AreKnown (C.TransformCalls.has scene.now.table.now) (members_of scene.now.attributes.now.pairs) (trees_of scene.now.parts.now) (values_of known.new)) }
{
    let items = filter_items(subject.value())?;
    let mut kept = Values::new(scene.alloc);
    for item in items {
        let around = Scene {
            alloc: scene.alloc,
            attributes: scene.attributes,
            table: scene.table,
            parts: scene.parts,
            current: item,
        };
        let verdict = evaluate(condition, places, &around, known)?;
        keep_if(&mut kept, verdict.value(), item)?;
    }
    Ok(list(kept))
}

// What an operator makes of a value and the value of its right side, which isn't evaluated where the
// left one decides.
#[cycle(evaluate)]
fn operation<'a, C: TransformCalls>(
    sign: BinarySign,
    left: Found<'a>,
    right: &Node,
    places: &Places,
    scene: &Scene<'a, '_, C>,
    known: &mut Known,
) -> Result<Found<'a>, EvalFault>
    requires fits { Fits (trees_of scene.now.parts.now) (view right.now) places.now }
    requires known { AreKnown (C.TransformCalls.has scene.now.table.now) (members_of scene.now.attributes.now.pairs) (trees_of scene.now.parts.now) (values_of known.old) }
    ensures value { Gives found_as_json result (operation_meant sign (found_as_json left.entry) (meaning (C.TransformCalls.has scene.now.table.now) (members_of scene.now.attributes.now.pairs) (as_json scene.now.current.now) (view right.now))) }
    ensures known { OnOk result (AreKnown (C.TransformCalls.has scene.now.table.now) (members_of scene.now.attributes.now.pairs) (trees_of scene.now.parts.now) (values_of known.new)) }
{
    if let Some(decided) = decided(sign, left.value()) {
        return Ok(truth(decided));
    }
    let right = evaluate(right, places, scene, known)?;
    operate(scene.alloc, sign, left, right.value())
}

// The first value, or that of the second tree where the first one doesn't count as true.
#[cycle(evaluate)]
fn or_else<'a, C: TransformCalls>(
    first: Found<'a>,
    second: &Node,
    places: &Places,
    scene: &Scene<'a, '_, C>,
    known: &mut Known,
) -> Result<Found<'a>, EvalFault>
    requires fits { Fits (trees_of scene.now.parts.now) (view second.now) places.now }
    requires known { AreKnown (C.TransformCalls.has scene.now.table.now) (members_of scene.now.attributes.now.pairs) (trees_of scene.now.parts.now) (values_of known.old) }
    ensures value { Gives found_as_json result (if is_truthy (found_as_json first.entry) then Ok (found_as_json first.entry) else meaning (C.TransformCalls.has scene.now.table.now) (members_of scene.now.attributes.now.pairs) (as_json scene.now.current.now) (view second.now)) }
    ensures known { OnOk result (AreKnown (C.TransformCalls.has scene.now.table.now) (members_of scene.now.attributes.now.pairs) (trees_of scene.now.parts.now) (values_of known.new)) }
{
    if truthy(first.value()) {
        Ok(first)
    } else {
        evaluate(second, places, scene, known)
    }
}

// The value of a part that is kept, which is evaluated unless it is known.
#[cycle(evaluate)]
fn kept_part<'a, C: TransformCalls>(
    place: usize,
    part: &Node,
    places: &Places,
    scene: &Scene<'a, '_, C>,
    known: &mut Known,
) -> Result<Found<'a>, EvalFault>
    requires part { IsPart (trees_of scene.now.parts.now) (view part.now) (Some place) }
    requires fits { FitsBelow (trees_of scene.now.parts.now) (view part.now) places.now }
    requires known { AreKnown (C.TransformCalls.has scene.now.table.now) (members_of scene.now.attributes.now.pairs) (trees_of scene.now.parts.now) (values_of known.old) }
    ensures value { Gives found_as_json result (meaning (C.TransformCalls.has scene.now.table.now) (members_of scene.now.attributes.now.pairs) (as_json scene.now.current.now) (view part.now)) }
    ensures known { OnOk result (AreKnown (C.TransformCalls.has scene.now.table.now) (members_of scene.now.attributes.now.pairs) (trees_of scene.now.parts.now) (values_of known.new)) }
{
    if let Some(value) = known.at(place) {
        return Ok(Found::Shared(value.clone()?));
    }
    let value = unkept(part, places, scene, known)?;
    Ok(known.keep(scene.alloc, place, value)?)
}

// A value is put at the end, copied where it is borrowed.
fn push(values: &mut Values, value: Found) -> Result<(), AllocError>
    ensures { OnOk result (values.new ≡ values.old ++ found_as_json value.entry ∷ []) }
{
    values.push(value.into_value()?)?;
    Ok(())
}

// A member gets this value, copied where it is borrowed. Want of memory leaves the members as they
// were.
fn put(members: &mut NamedValues, name: &Text, value: Found) -> Result<(), AllocError>
    ensures { OnOk result (members.new ≡ with_member name.now (found_as_json value.entry) members.old) }
{
    members.insert(name.clone()?, value.into_value()?)?;
    Ok(())
}

// A copy of an item is put at the end, where the verdict on it counts as true.
fn keep_if(kept: &mut Values, verdict: &Value, item: &Value) -> Result<(), AllocError>
    ensures { OnOk result (kept.new ≡ (if is_truthy (as_json verdict.now) then kept.old ++ as_json item.now ∷ [] else kept.old)) }
{
    if truthy(verdict) {
        kept.push(item.clone()?)?;
    }
    Ok(())
}

// The value of a constant.
fn constant<'a>(literal: &Literal) -> Result<Found<'a>, EvalFault>
    ensures { Gives found_as_json result (Ok (constant (literal_of literal.now))) }
{
    match literal {
        Literal::Null => Ok(Found::Owned(Value::Null)),
        Literal::Truth(truth) => Ok(Found::Owned(Value::Truth(*truth))),
        Literal::Whole(whole) => Ok(Found::Owned(Value::Whole(*whole))),
        Literal::Text(text) => Ok(Found::Owned(Value::Text(text.clone()?))),
    }
}
