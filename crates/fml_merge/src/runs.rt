// Which trees of one name count where they are laid one after the other.
ghost use Rattle.std.specs.Prelude.{IfOk};
ghost use Rattle.fml_types.specs.Shape.{Shape};
ghost use Rattle.fml_value.specs.Typed.{TypedValue};
ghost use Rattle.fml_merge.specs.Laying.{trees_of, CountsOf, IsWithin};
ghost use Rattle.fml_merge.specs.Layers.{trees_depth};

use crate::sorting::Piece;
use fml_types::{FieldType, TypeTable};
use fml_value::takes;
use json_tree::{Members, Tree};
use std::alloc::{AllocError, Global};

/// What counts of trees that are laid one after the other: the last that is no object, which
/// replaces all that was laid before it, and the objects after it.
#[derive(Drop)]
pub(crate) struct Counted<'a> {
    pub(crate) replacing: Option<&'a Tree>,
    pub(crate) objects: Vec<&'a Members>,
}

/// What counts of the pieces' trees, of those that the type takes.
pub(crate) fn counted_trees<'a>(
    alloc: Global,
    types: &TypeTable,
    of: &FieldType,
    pieces: &[Piece<'a>],
) -> Result<Counted<'a>, AllocError>
    ensures same { IfOk result (λ c. (z : Shape → TypedValue) (v : TypedValue) → CountsOf z types.now of.now v pieces.now c) }
    ensures within { IfOk result (λ c. IsWithin c (trees_depth (trees_of pieces.now))) }
{
    let mut replacing = None;
    let mut objects = Vec::new(alloc);
    for piece in pieces {
        if takes(types, of, piece.tree) {
            match piece.tree {
                Tree::Object(members) => objects.push(members)?,
                _ => {
                    replacing = Some(piece.tree);
                    objects.clear();
                }
            }
        }
    }
    Ok(Counted { replacing, objects })
}
