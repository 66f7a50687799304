// Which objects are too high or too heavy.
ghost use Rattle.std.specs.Prelude.{◌≡◌, map, None, option_map, IfOk};
ghost use Rattle.fml_types.specs.Capped.{capped};
ghost use Rattle.fml_types.specs.Graph.{graph_of};
ghost use Rattle.fml_types.specs.Ground.{first_above, endless, too_large, grounding, GivesGround};
ghost use Rattle.fml_types.specs.Reach.{AreMentioned};
ghost use Rattle.fml_types.specs.Values.{value_in};
ghost use Rattle.fml_types.specs.declared.grounding.GroundFault.TheVariants.{OutOfMemory};

use crate::by_name::ByName;
use crate::graph::{Part, graph_of};
use crate::heights::{heights, value_in};
use crate::manifest::{ObjectDefinition, TypeTable};
use crate::reach::mentioned_by;
use crate::weights::weights;
use sequences::{Sequence, Text};
use std::alloc::{AllocError, AllocFailed, Global};

const MAX_HEIGHT: u64 = 32;

const MAX_WEIGHT: u64 = 16_384;

/// Why objects aren't grounded.
#[derive(Drop)]
pub enum Ungrounded {
    /// The object's height is above 32. This one has the least name of those.
    EndlessObject(Text),
    /// No height is above 32, but the object's weight is above 16,384. This one has the least name
    /// of those.
    ObjectTooLarge(Text),
}

/// Why `grounded` doesn't answer that objects are.
#[derive(Drop)]
pub enum GroundFault {
    /// They aren't.
    Refused(Ungrounded),
    OutOfMemory,
}

impl From<AllocError> for GroundFault {
    ghost from_gives = { λ _ e. e ≡ OutOfMemory };

    fn from(_e: AllocError) -> GroundFault {
        GroundFault::OutOfMemory
    }
}

impl<T: Drop> From<AllocFailed<T>> for GroundFault {
    ghost from_gives = { λ _ e. e ≡ OutOfMemory };

    fn from(_e: AllocFailed<T>) -> GroundFault {
        GroundFault::OutOfMemory
    }
}

/// Whether no object has a height above 32 or a weight above 16,384.
///
/// A type mentions at most one object. It reaches that object, and in turn each that the types of
/// that object's fields reach. A default is empty where it is absent or null, where it is `[]` for
/// a `List`, and where it is `{}` for a `Map` or an object. An object needs the object that a
/// field's type is, and, where a field's default isn't empty, each that the field's type reaches.
/// Its height is one more than the greatest height that it needs, and without bound on a cycle.
///
/// Its weight is 2 plus a share for each field: the length of the field's name, plus 86, plus the
/// length of the default's compact text (4 where it is absent), plus the greatest weight of the
/// objects that the field needs; where the default isn't empty, that weight counts once more for
/// each object in the default.
#[tactic(auto, unfolding(crate::specs::Ground::grounding))]
pub fn grounded(alloc: Global, types: &TypeTable) -> Result<(), GroundFault>
    ensures { GivesGround result (grounding types.now) }
{
    let graph = graph_of(alloc, &types.objects)?;
    let graph = graph.as_slice();
    let mentioned_by = mentioned_by(alloc, graph)?;
    if let Some(name) = endless(alloc, graph, &mentioned_by, &types.objects)? {
        return Err(GroundFault::Refused(Ungrounded::EndlessObject(name)));
    }
    if let Some(name) = too_large(alloc, graph, &mentioned_by, &types.objects)? {
        return Err(GroundFault::Refused(Ungrounded::ObjectTooLarge(name)));
    }
    Ok(())
}

/// The least name of an object that is too high.
fn endless(
    alloc: Global,
    graph: &[Sequence<Part>],
    mentioned_by: &[Sequence<usize>],
    objects: &ByName<ObjectDefinition>,
) -> Result<Option<Text>, AllocError>
    requires graph { graph.now ≡ map (λ ps. map capped ps) (graph_of objects.now) }
    requires mentioned { AreMentioned graph.now mentioned_by.now }
    ensures { IfOk result (λ name. name ≡ endless objects.now) }
{
    let heights = heights(alloc, graph, mentioned_by)?;
    let name = copied(first_above(MAX_HEIGHT, &heights, objects.as_slice()))?;
    Ok(name)
}

/// The least name of an object that is too heavy, where none is too high.
fn too_large(
    alloc: Global,
    graph: &[Sequence<Part>],
    mentioned_by: &[Sequence<usize>],
    objects: &ByName<ObjectDefinition>,
) -> Result<Option<Text>, AllocError>
    requires graph { graph.now ≡ map (λ ps. map capped ps) (graph_of objects.now) }
    requires mentioned { AreMentioned graph.now mentioned_by.now }
    requires low { endless objects.now ≡ None }
    ensures { IfOk result (λ name. name ≡ too_large objects.now) }
{
    let weights = weights(alloc, graph, mentioned_by)?;
    let name = copied(first_above(MAX_WEIGHT, &weights, objects.as_slice()))?;
    Ok(name)
}

fn copied(name: Option<&Text>) -> Result<Option<Text>, AllocError>
    ensures { IfOk result (λ copy. copy ≡ option_map (λ text. text.now) name.entry) }
{
    match name {
        Some(text) => Ok(Some(text.clone()?)),
        None => Ok(None),
    }
}

/// The first name whose value is above the limit.
fn first_above<'a, T>(limit: u64, values: &[u64], names: &'a [(Text, T)]) -> Option<&'a Text>
    ensures { option_map (λ name. name.now) result ≡ first_above limit (value_in values.now) 0 names.now }
{
    for place in 0..names.len() {
        if value_in(values, place) > limit {
            return Some(&names[place].0);
        }
    }
    None
}
