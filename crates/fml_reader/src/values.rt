// Single values of a module.
ghost use Rattle.std.specs.Prelude.{◌≡◌, nat_le, length};
ghost use Rattle.json_tree.specs.Bytes.{text_of};
ghost use Rattle.json_tree.specs.Tree.{json_of};
ghost use Rattle.fml_reader.specs.Outcome.{Gives};
ghost use Rattle.fml_reader.specs.Values.{text_in, truth_in, object_in, value_in, is_key};

use crate::fault::{ModuleFault, bad};
use crate::walks::Part;
use json_length::length_within;
use json_tree::Tree;
use sequences::Text;
use std::alloc::Global;

const MAX_VALUE_LEN: u128 = 65_536;

const MAX_KEY_LEN: usize = 80;

impl Part for Text {
    ghost said = { text_in };

    fn read(alloc: Global, tree: &Tree) -> Result<Text, ModuleFault> {
        match tree {
            Tree::Text(text) => Ok(text.clone()?),
            _ => Err(bad(alloc)),
        }
    }
}

impl Part for bool {
    ghost said = { truth_in };

    fn read(alloc: Global, tree: &Tree) -> Result<bool, ModuleFault> {
        match tree {
            Tree::Truth(truth) => Ok(*truth),
            _ => Err(bad(alloc)),
        }
    }
}

/// A default, whose compact text has at most 65,536 bytes.
impl Part for Tree {
    ghost said = { value_in };

    #[tactic(auto, using(crate::proofs::SameTrees::same_trees))]
    fn read(alloc: Global, tree: &Tree) -> Result<Tree, ModuleFault> {
        if is_short(tree) {
            Ok(tree.clone()?)
        } else {
            Err(bad(alloc))
        }
    }
}

/// Whether the tree's compact text, which isn't written, has at most 65,536 bytes.
fn is_short(tree: &Tree) -> bool
    ensures { result ≡ nat_le (length (text_of (json_of tree.now))) 65536 }
{
    length_within(tree, MAX_VALUE_LEN).is_some()
}

pub(crate) fn object_in(alloc: Global, tree: &Tree) -> Result<(), ModuleFault>
    ensures { Gives (λ u. u) result (object_in (json_of tree.now)) }
{
    match tree {
        Tree::Object(_) => Ok(()),
        _ => Err(bad(alloc)),
    }
}

/// Whether the key has 1 to 80 bytes.
pub(crate) fn is_key(key: &str) -> bool
    ensures { result ≡ is_key key.now }
{
    1 <= key.len() && key.len() <= MAX_KEY_LEN
}
