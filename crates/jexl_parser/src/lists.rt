// Lists of trees and of members, kept only while no path in them has more than `MAX_HEIGHT` nodes.
ghost use Rattle.std.specs.Prelude.{◌≡◌, ◌≤◌, ◌+◌, IfOk, Some, None, suc, max};
ghost use Rattle.jexl_parser.specs.Tree.{Items, Members, none as no_trees, no_pair, add, add_pair, most, most_of_pairs, height as tree_height};
ghost use Rattle.jexl_parser.specs.Seen.{fit, cap, seen_item, seen_pair};
ghost use Rattle.jexl_parser.specs.View.{view, views, view_pairs};
ghost use Rattle.jexl_parser.specs.Kept.{see, see_list, see_members};

use crate::node::{MAX_HEIGHT, Node};
use crate::part::{PairParts, Part, Parts};
use sequences::Text;
use std::alloc::{AllocError, Global};

/// No items.
pub fn no_items(alloc: Global) -> Parts
    ensures { see_list result ≡ cap MAX_HEIGHT (Items no_trees) }
{
    Parts {
        trees: Some(Vec::new(alloc)),
        height: 1,
        relative: false,
    }
}

/// The list with one more tree.
#[tactic(auto, using(crate::proofs::Views::views_push))]
fn pushed(mut trees: Vec<Node>, tree: Node) -> Result<Vec<Node>, AllocError>
    ensures { IfOk result (λ v. views v.items ≡ add (views trees.items) (view tree)) }
{
    trees.push(tree)?;
    Ok(trees)
}

/// A list that is kept.
fn kept_list(trees: Vec<Node>, height: u16, relative: bool) -> Parts
    requires counted { height ≡ suc (most (views trees.items)) }
    requires bounded { height ≤ MAX_HEIGHT + 1 }
    ensures { see_list result ≡ record { tree = Some (Items (views trees.items)); relative = relative } }
{
    Parts {
        trees: Some(trees),
        height,
        relative,
    }
}

/// A list with one more tree, if it fits.
#[tactic(auto, using(crate::proofs::Views::item_tall, crate::proofs::Views::item_fits, crate::proofs::Views::item_height))]
fn joined(trees: Vec<Node>, tree: Node, height: u16, relative: bool) -> Result<Parts, AllocError>
    requires { height ≡ max (suc (most (views trees.items))) (suc (tree_height (view tree))) }
    ensures { IfOk result (λ p. see_list p ≡ record { tree = fit MAX_HEIGHT (Items (add (views trees.items) (view tree))); relative = relative }) }
{
    if height > MAX_HEIGHT {
        return Ok(tall_list(relative));
    }
    let trees = pushed(trees, tree)?;
    Ok(kept_list(trees, height, relative))
}

/// One more item.
pub fn with_item(a: Parts, b: Part) -> Result<Parts, AllocError>
    ensures { IfOk result (λ p. see_list p ≡ seen_item MAX_HEIGHT (see_list a) (see b)) }
{
    let height = a.height.max(b.height + 1);
    let relative = a.relative || b.relative;
    let first_tree = a.trees;
    let second_tree = b.tree;
    match first_tree {
        None => Ok(tall_list(relative)),
        Some(trees) => match second_tree {
            None => Ok(tall_list(relative)),
            Some(tree) => joined(trees, Box::into_inner(tree), height, relative),
        },
    }
}

/// A list that isn't kept.
fn tall_list(relative: bool) -> Parts
    ensures { see_list result ≡ record { tree = None; relative = relative } }
{
    Parts {
        trees: None,
        height: MAX_HEIGHT + 1,
        relative,
    }
}

/// No members.
pub fn no_pairs(alloc: Global) -> PairParts
    ensures { see_members result ≡ cap MAX_HEIGHT (Members no_pair) }
{
    PairParts {
        pairs: Some(Vec::new(alloc)),
        height: 1,
        relative: false,
    }
}

/// Members that aren't kept.
fn tall_members(relative: bool) -> PairParts
    ensures { see_members result ≡ record { tree = None; relative = relative } }
{
    PairParts {
        pairs: None,
        height: MAX_HEIGHT + 1,
        relative,
    }
}

/// The members with one more pair.
#[tactic(auto, using(crate::proofs::Views::pairs_push))]
fn pushed_pair(
    alloc: Global,
    mut pairs: Vec<(Text, Node)>,
    key: &str,
    tree: Node,
) -> Result<Vec<(Text, Node)>, AllocError>
    ensures { IfOk result (λ v. view_pairs v.items ≡ add_pair (view_pairs pairs.items) key.now (view tree)) }
{
    let key = Text::new(alloc, key)?;
    pairs.push((key, tree))?;
    Ok(pairs)
}

/// Members that are kept.
fn kept_members(pairs: Vec<(Text, Node)>, height: u16, relative: bool) -> PairParts
    requires counted { height ≡ suc (most_of_pairs (view_pairs pairs.items)) }
    requires bounded { height ≤ MAX_HEIGHT + 1 }
    ensures { see_members result ≡ record { tree = Some (Members (view_pairs pairs.items)); relative = relative } }
{
    PairParts {
        pairs: Some(pairs),
        height,
        relative,
    }
}

/// Members with one more pair, if they fit.
#[tactic(auto, using(crate::proofs::Views::pair_tall, crate::proofs::Views::pair_fits, crate::proofs::Views::pair_height))]
fn joined_pair(
    alloc: Global,
    pairs: Vec<(Text, Node)>,
    key: &str,
    tree: Node,
    height: u16,
    relative: bool,
) -> Result<PairParts, AllocError>
    requires { height ≡ max (suc (most_of_pairs (view_pairs pairs.items))) (suc (tree_height (view tree))) }
    ensures { IfOk result (λ p. see_members p ≡ record { tree = fit MAX_HEIGHT (Members (add_pair (view_pairs pairs.items) key.now (view tree))); relative = relative }) }
{
    if height > MAX_HEIGHT {
        return Ok(tall_members(relative));
    }
    let pairs = pushed_pair(alloc, pairs, key, tree)?;
    Ok(kept_members(pairs, height, relative))
}

/// One more member.
pub fn with_pair(alloc: Global, a: PairParts, key: &str, b: Part) -> Result<PairParts, AllocError>
    ensures { IfOk result (λ p. see_members p ≡ seen_pair MAX_HEIGHT (see_members a) key.now (see b)) }
{
    let height = a.height.max(b.height + 1);
    let relative = a.relative || b.relative;
    let first_tree = a.pairs;
    let second_tree = b.tree;
    match first_tree {
        None => Ok(tall_members(relative)),
        Some(pairs) => match second_tree {
            None => Ok(tall_members(relative)),
            Some(tree) => joined_pair(alloc, pairs, key, Box::into_inner(tree), height, relative),
        },
    }
}
