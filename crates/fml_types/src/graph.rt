// What the fields of objects need of other objects.
ghost use Rattle.std.specs.Prelude.{◌≡◌, ◌+◌, map, min, option_and_then, IfOk};
ghost use Rattle.json_tree.specs.Json.{items_of, members_of};
ghost use Rattle.json_tree.specs.Tree.{json_of};
ghost use Rattle.fml_types.specs.Graph.{mention, is_named, is_list, is_map, has_no_items, has_no_members, is_empty_json, is_empty, need_of, objects_in, objects_in_items, objects_in_members, default_len, objects_in_default, size_of, times_of, part_of, graph_of};
ghost use Rattle.fml_types.specs.Capped.{cap, capped};
ghost use Rattle.fml_types.specs.Named.{place};
ghost use Rattle.fml_types.specs.Shapes.{shape_of};

use crate::by_name::ByName;
use crate::field_type::FieldType;
use crate::manifest::{Field, ObjectDefinition};
use json_length::length_within;
use json_tree::{Items, Members, Tree};
use sequences::{Sequence, Text};
use std::alloc::{AllocError, Global};

/// One above the greatest weight that an object may have. Greater numbers count as this one.
pub(crate) const CAP: u64 = 16_385;

/// Which objects a field needs.
#[derive(Clone, Copy, Debug, PartialEq, Eq)]
pub enum Need {
    Nothing,
    /// The one that its type is.
    Mentioned,
    /// Each that its type reaches.
    Reached,
}

/// A field, as heights and weights see it.
#[derive(Drop)]
pub struct Part {
    /// The place of the object that the type mentions.
    pub mentions: Option<usize>,
    pub need: Need,
    /// What the field weighs without the objects that it needs.
    pub size: u64,
    /// How often the greatest weight of these objects counts.
    pub times: u64,
}

/// The fields of each object, with weights that count up to the cap.
pub(crate) fn graph_of(
    alloc: Global,
    objects: &ByName<ObjectDefinition>,
) -> Result<Sequence<Sequence<Part>>, AllocError>
    ensures { IfOk result (λ g. g ≡ map (λ ps. map capped ps) (graph_of objects.now)) }
{
    let definitions = objects.as_slice();
    let mut graph = Sequence::new(alloc);
    for (_, definition) in definitions {
        graph.push(parts_of(alloc, objects, &definition.fields)?)?;
    }
    Ok(graph)
}

fn parts_of(
    alloc: Global,
    objects: &ByName<ObjectDefinition>,
    fields: &ByName<Field>,
) -> Result<Sequence<Part>, AllocError>
    ensures { IfOk result (λ ps. ps ≡ map capped (map (part_of objects.now) fields.now)) }
{
    let pairs = fields.as_slice();
    let mut parts = Sequence::new(alloc);
    for (name, field) in pairs {
        parts.push(part_of(objects, name, field))?;
    }
    Ok(parts)
}

#[tactic(auto, unfolding(crate::specs::Graph::part_of))]
fn part_of(objects: &ByName<ObjectDefinition>, name: &Text, field: &Field) -> Part
    ensures { result ≡ capped (part_of objects.now (name.now, field.now)) }
{
    let is_empty = is_empty(&field.field_type, &field.default);
    Part {
        mentions: place_of(objects, &field.field_type),
        need: need_of(&field.field_type, is_empty),
        size: size_of(name, field),
        times: times_of(field),
    }
}

fn place_of(objects: &ByName<ObjectDefinition>, of: &FieldType) -> Option<usize>
    ensures { result ≡ option_and_then (λ n. place n objects.now) (mention (shape_of of.now)) }
{
    match of {
        FieldType::Named(name) => objects.place(name.as_str()),
        FieldType::Option(inner) | FieldType::List(inner) | FieldType::Map(_, inner) => {
            place_of(objects, inner.get())
        }
        _ => None,
    }
}

fn need_of(of: &FieldType, is_empty: bool) -> Need
    ensures { result ≡ need_of (shape_of of.now) is_empty }
{
    if !is_empty {
        Need::Reached
    } else if is_named(of) {
        Need::Mentioned
    } else {
        Need::Nothing
    }
}

fn is_named(of: &FieldType) -> bool
    ensures { result ≡ is_named (shape_of of.now) }
{
    match of {
        FieldType::Named(_) => true,
        _ => false,
    }
}

fn is_list(of: &FieldType) -> bool
    ensures { result ≡ is_list (shape_of of.now) }
{
    match of {
        FieldType::List(_) => true,
        _ => false,
    }
}

fn is_map(of: &FieldType) -> bool
    ensures { result ≡ is_map (shape_of of.now) }
{
    match of {
        FieldType::Map(_, _) => true,
        _ => false,
    }
}

/// Whether a default says nothing.
fn is_empty(of: &FieldType, default: &Option<Tree>) -> bool
    ensures { result ≡ is_empty (shape_of of.now) default.now }
{
    match default {
        None => true,
        Some(tree) => is_empty_tree(of, tree),
    }
}

fn is_empty_tree(of: &FieldType, tree: &Tree) -> bool
    ensures { result ≡ is_empty_json (shape_of of.now) (json_of tree.now) }
{
    match tree {
        Tree::Null => true,
        Tree::List(items) => has_no_items(items) && is_list(of),
        Tree::Object(members) => has_no_members(members) && (is_map(of) || is_named(of)),
        _ => false,
    }
}

fn has_no_items(items: &Items) -> bool
    ensures { result ≡ has_no_items (items_of items.now) }
{
    match items.as_slice() {
        [] => true,
        [..] => false,
    }
}

fn has_no_members(members: &Members) -> bool
    ensures { result ≡ has_no_members (members_of members.now) }
{
    match members.as_slice() {
        [] => true,
        [..] => false,
    }
}

#[tactic(auto, unfolding(crate::specs::Graph::size_of))]
fn size_of(name: &Text, field: &Field) -> u64
    ensures { result ≡ cap (size_of name.now field.now) }
{
    let of_default = default_len(&field.default);
    let of_name = name.as_str().len() as u64;
    of_name
        .saturating_add(86)
        .saturating_add(of_default)
        .min(CAP)
}

/// How many bytes the default's text has, up to `CAP`.
fn default_len(default: &Option<Tree>) -> u64
    ensures { result ≡ cap (default_len default.now) }
{
    match default {
        None => 4,
        Some(tree) => match length_within(tree, u128::from(CAP)) {
            Some(length) => length as u64,
            None => CAP,
        },
    }
}

#[tactic(auto, unfolding(crate::specs::Graph::times_of))]
fn times_of(field: &Field) -> u64
    ensures { result ≡ cap (times_of field.now) }
{
    if is_empty(&field.field_type, &field.default) {
        return 1;
    }
    objects_in_default(&field.default)
        .saturating_add(1)
        .min(CAP)
}

fn objects_in_default(default: &Option<Tree>) -> u64
    ensures { result ≡ cap (objects_in_default default.now) }
{
    match default {
        None => 0,
        Some(tree) => objects_in(tree),
    }
}

#[cycle(objects_in)]
fn objects_in(tree: &Tree) -> u64
    ensures { result ≡ cap (objects_in (json_of tree.now)) }
{
    match tree {
        Tree::List(items) => objects_in_items(items),
        Tree::Object(members) => capped_sum(1, objects_in_members(members)),
        _ => 0,
    }
}

#[cycle(objects_in)]
fn objects_in_items(items: &Items) -> u64
    ensures { result ≡ cap (objects_in_items (items_of items.now)) }
{
    let trees = items.as_slice();
    let mut count = 0;
    for tree in trees {
        count = capped_sum(count, objects_in(tree));
    }
    count
}

#[cycle(objects_in)]
fn objects_in_members(members: &Members) -> u64
    ensures { result ≡ cap (objects_in_members (members_of members.now)) }
{
    let pairs = members.as_slice();
    let mut count = 0;
    for (_, tree) in pairs {
        count = capped_sum(count, objects_in(tree));
    }
    count
}

/// The sum, which counts up to the cap.
pub(crate) fn capped_sum(left: u64, right: u64) -> u64
    ensures { result ≡ cap (left + right) }
{
    left.saturating_add(right).min(CAP)
}
