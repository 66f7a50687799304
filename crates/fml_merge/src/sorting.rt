// The members of layers, by their names.
ghost use Rattle.std.specs.Prelude.{◌≡◌, ◌≤◌, ◌++◌, ℕ, List, length, map, IfOk, OnOk};
ghost use Rattle.std.specs.List.{list_any};
ghost use Rattle.std.specs.Cmp.Lexicographic.{slice_cmp};
ghost use Rattle.std.specs.Ordering.{nat_cmp};
ghost use Rattle.fml_types.specs.Shapes.{shape_of};
ghost use Rattle.fml_value.specs.Takes as taking;
ghost use Rattle.json_tree.specs.Json.{Json};
ghost use Rattle.json_tree.specs.Tree.{json_of};
ghost use Rattle.fml_merge.specs.Layers as layering;
ghost use Rattle.fml_merge.specs.Layers.{piece_of, trees_under, AreClimbing, run_length};

use fml_types::{FieldType, TypeTable};
use fml_value::takes;
use json_tree::{Members, Tree};
use sequences::Text;
use std::alloc::{AllocError, Global};
use std::cmp::Ordering;

/// A member of a layer.
#[derive(Clone, Copy)]
pub(crate) struct Piece<'a> {
    pub(crate) name: &'a Text,
    pub(crate) tree: &'a Tree,
}

impl<'a> Piece<'a> {
    // How the names compare.
    fn compare(&self, other: &Piece) -> Ordering
        ensures { result ≡ slice_cmp nat_cmp self.now.name.now other.now.name.now }
    {
        self.name.as_str().cmp(other.name.as_str())
    }
}

/// The members of the layers in order by name, and those of one name in the layers' order.
pub(crate) fn pieces_by_name<'a>(
    alloc: Global,
    layers: &[&'a Members],
) -> Result<Vec<Piece<'a>>, AllocError>
    ensures climbing { IfOk result (λ ps. AreClimbing (map piece_of ps.items)) }
    ensures trees { IfOk result (λ ps. (name : List ℕ) → trees_under name (map piece_of ps.items) ≡ trees_under name (layering.pieces (map (λ l. l.now) layers.now))) }
{
    let mut pieces = pieces(alloc, layers)?;
    pieces.sort_by(|piece, other| piece.compare(other))?;
    Ok(pieces)
}

// The members of the layers, in the layers' order.
fn pieces<'a>(alloc: Global, layers: &[&'a Members]) -> Result<Vec<Piece<'a>>, AllocError>
    ensures { IfOk result (λ ps. map piece_of ps.items ≡ layering.pieces (map (λ l. l.now) layers.now)) }
{
    let mut pieces = Vec::new(alloc);
    for layer in layers {
        push_members(&mut pieces, layer)?;
    }
    Ok(pieces)
}

// Puts the members of a layer at the end.
fn push_members<'a>(pieces: &mut Vec<Piece<'a>>, layer: &'a Members) -> Result<(), AllocError>
    ensures { OnOk result (map piece_of pieces.new.items ≡ map piece_of pieces.old.items ++ layer.now) }
{
    let members = layer.as_slice();
    for (name, tree) in members {
        pieces.push(Piece { name, tree })?;
    }
    Ok(())
}

/// How many pieces come first that have the name.
pub(crate) fn run_length(pieces: &[Piece], name: &str) -> usize
    ensures value { result ≡ run_length name.now (map piece_of pieces.now) }
    ensures within { result ≤ length pieces.now }
{
    for (index, piece) in pieces.iter().enumerate() {
        if piece.name.as_str() != name {
            return index;
        }
    }
    pieces.len()
}

/// Whether the type takes one of the trees.
pub(crate) fn takes_any(types: &TypeTable, of: &FieldType, pieces: &[Piece]) -> bool
    ensures { result ≡ list_any (taking.takes types.now (shape_of of.now)) (map (λ p. json_of p.tree.now) pieces.now) }
{
    for piece in pieces {
        if takes(types, of, piece.tree) {
            return true;
        }
    }
    false
}
