// Which parts of a tree are kept.
//
// The condition of a filter is evaluated for each item. A part of it in which no relative name stands
// outside the brackets of filters has one value for all of them, since a relative name speaks of the
// item of the innermost filter around it. Such a part is kept. Constants, names and members of names
// aren't: a look at them takes no longer than a look at what would be kept.
ghost use Rattle.std.specs.Prelude.{◌≡◌, IfOk, OnOk};
ghost use Rattle.jexl_parser.specs.View.{view};
ghost use Rattle.jexl_eval.specs.Places.{after, trees_of, Extends, IsPart, IsPlaced, HasPlaces, HasPlacesBelow, HaveAllPlaces, HavePairPlaces};

use crate::places::Places;
use crate::relative::has_relative;
use jexl_parser::Node;
use jexl_value::Text;
use std::alloc::{AllocError, Global};

/// The places of a tree. In the conditions of its filters, a part that has one value for all items gets
/// a place, and is put into `parts` there.
pub(crate) fn prepare<'e>(
    alloc: Global,
    node: &'e Node,
    parts: &mut Vec<&'e Node>,
) -> Result<Places, AllocError>
    ensures { IfOk result (λ p. HasPlaces (trees_of parts.new.items) (view node.now) p) }
{
    before(alloc, node, false, Places::Nowhere, parts)
}

// The places of a tree and of those after it, whose places are `rest`. Where `keeps` says so, the tree
// stands in the condition of a filter.
#[cycle(before)]
fn before<'e>(
    alloc: Global,
    node: &'e Node,
    keeps: bool,
    rest: Places,
    parts: &mut Vec<&'e Node>,
) -> Result<Places, AllocError>
    ensures grows { OnOk result (Extends (trees_of parts.old.items) (trees_of parts.new.items)) }
    ensures places { IfOk result (λ p. HasPlaces (trees_of parts.new.items) (view node.now) p) }
    ensures rest { IfOk result (λ p. after p ≡ rest) }
{
    let place = place_for(node, keeps, parts)?;
    let below = below(alloc, node, keeps && place.is_none(), parts)?;
    joined(alloc, place, below, rest)
}

// The places of the trees below one.
#[cycle(before)]
fn below<'e>(
    alloc: Global,
    node: &'e Node,
    keeps: bool,
    parts: &mut Vec<&'e Node>,
) -> Result<Places, AllocError>
    ensures grows { OnOk result (Extends (trees_of parts.old.items) (trees_of parts.new.items)) }
    ensures places { IfOk result (λ p. HasPlacesBelow (trees_of parts.new.items) (view node.now) p) }
{
    match node {
        Node::Literal(_) => Ok(Places::Nowhere),
        Node::Name(_) => Ok(Places::Nowhere),
        Node::Relative(_) => Ok(Places::Nowhere),
        Node::List(nodes) => each(alloc, nodes.as_slice(), keeps, parts),
        Node::Members(pairs) => each_member(alloc, pairs.as_slice(), keeps, parts),
        Node::Member(subject, _) => before(alloc, subject, keeps, Places::Nowhere, parts),
        Node::Index(subject, key) => {
            let rest = before(alloc, key, keeps, Places::Nowhere, parts)?;
            before(alloc, subject, keeps, rest, parts)
        }
        Node::Filter(subject, condition) => {
            let rest = before(alloc, condition, true, Places::Nowhere, parts)?;
            before(alloc, subject, keeps, rest, parts)
        }
        Node::Transform(subject, _, arguments) => {
            let rest = each(alloc, arguments.as_slice(), keeps, parts)?;
            before(alloc, subject, keeps, rest, parts)
        }
        Node::Not(inside) => before(alloc, inside, keeps, Places::Nowhere, parts),
        Node::Binary(_, left, right) => {
            let rest = before(alloc, right, keeps, Places::Nowhere, parts)?;
            before(alloc, left, keeps, rest, parts)
        }
        Node::Choose(condition, first, second) => {
            let last = before(alloc, second, keeps, Places::Nowhere, parts)?;
            let rest = before(alloc, first, keeps, last, parts)?;
            before(alloc, condition, keeps, rest, parts)
        }
        Node::OrElse(first, second) => {
            let rest = before(alloc, second, keeps, Places::Nowhere, parts)?;
            before(alloc, first, keeps, rest, parts)
        }
    }
}

// The places of trees, which are made from the last one on.
#[cycle(before)]
fn each<'e>(
    alloc: Global,
    nodes: &'e [Node],
    keeps: bool,
    parts: &mut Vec<&'e Node>,
) -> Result<Places, AllocError>
    ensures grows { OnOk result (Extends (trees_of parts.old.items) (trees_of parts.new.items)) }
    ensures places { IfOk result (λ p. HaveAllPlaces (trees_of parts.new.items) nodes.now p) }
{
    let mut places = Places::Nowhere;
    for index in (0..nodes.len()).rev() {
        places = before(alloc, &nodes[index], keeps, places, parts)?;
    }
    Ok(places)
}

// The places of the trees of members, which are made from the last one on.
#[cycle(before)]
fn each_member<'e>(
    alloc: Global,
    pairs: &'e [(Text, Node)],
    keeps: bool,
    parts: &mut Vec<&'e Node>,
) -> Result<Places, AllocError>
    ensures grows { OnOk result (Extends (trees_of parts.old.items) (trees_of parts.new.items)) }
    ensures places { IfOk result (λ p. HavePairPlaces (trees_of parts.new.items) pairs.now p) }
{
    let mut places = Places::Nowhere;
    for index in (0..pairs.len()).rev() {
        places = before(alloc, &pairs[index].1, keeps, places, parts)?;
    }
    Ok(places)
}

// The next place, for a tree that is a part to be kept.
fn place_for<'e>(
    node: &'e Node,
    keeps: bool,
    parts: &mut Vec<&'e Node>,
) -> Result<Option<usize>, AllocError>
    ensures grows { OnOk result (Extends (trees_of parts.old.items) (trees_of parts.new.items)) }
    ensures place { IfOk result (λ place. IsPart (trees_of parts.new.items) (view node.now) place) }
{
    if !keeps || is_look(node) || has_relative(node) {
        return Ok(None);
    }
    let place = parts.len();
    parts.push(node)?;
    Ok(Some(place))
}

// Whether the tree is a constant, a name or a member of a name.
fn is_look(node: &Node) -> bool {
    match node {
        Node::Literal(_) => true,
        Node::Name(_) => true,
        Node::Member(subject, _) => is_look(subject),
        _ => false,
    }
}

// The places of a list of trees, by those of the first one.
fn joined(
    alloc: Global,
    place: Option<usize>,
    below: Places,
    rest: Places,
) -> Result<Places, AllocError>
    ensures { IfOk result (λ p. IsPlaced place below rest p) }
{
    match (place, below, rest) {
        (None, Places::Nowhere, Places::Nowhere) => Ok(Places::Nowhere),
        (place, below, rest) => {
            let below = Box::new(alloc, below)?;
            let rest = Box::new(alloc, rest)?;
            Ok(Places::From(place, below, rest))
        }
    }
}
