// Rows in a search tree, whose forks are turned so that the heights of both sides stay close.
//
// No clause says how high a tree is: the heights of a fork's sides differ by one at most, so that a tree of `n` rows is less than
// one and a half times as high as the binary logarithm of `n`.
ghost use Rattle.std.specs.Prelude.{◌≡◌};
ghost use Rattle.row_batches.specs.Trees.{rows_in, rows_at};

use crate::store_row::StoreRow;
use std::mem;

/// Rows in the order of their keys.
#[cycle(tree)]
#[derive(Drop)]
pub(crate) enum Tree {
    /// No row.
    Leaf,
    /// A row, and those on both sides of it.
    Fork(Box<Fork>),
}

/// A row with those below it and those above.
#[cycle(tree)]
#[derive(Drop)]
pub(crate) struct Fork {
    pub(crate) below: Tree,
    pub(crate) row: StoreRow,
    pub(crate) above: Tree,
    /// How many forks stand over one another in it.
    pub(crate) height: u8,
}

/// How many forks stand over one another in a tree.
pub(crate) fn height(tree: &Tree) -> u8 {
    match tree {
        Tree::Leaf => 0,
        Tree::Fork(fork) => fork.height,
    }
}

/// A fork as a tree, with its height set by those of its sides.
pub(crate) fn closed(mut fork: Box<Fork>) -> Tree
    ensures { rows_in result ≡ rows_at fork.value }
{
    let highest = height(&fork.below).max(height(&fork.above));
    fork.height = highest.saturating_add(1);
    Tree::Fork(fork)
}

/// Turns the top fork, where one side is higher than the other by two, and sets its height by those of its sides.
pub(crate) fn balance(tree: &mut Tree)
    ensures { rows_in tree.new ≡ rows_in tree.old }
{
    if let Tree::Fork(fork) = mem::replace(tree, Tree::Leaf) {
        *tree = balanced(fork);
    }
}

/// A fork as a tree, turned where one side is higher than the other by two.
pub(crate) fn balanced(fork: Box<Fork>) -> Tree
    ensures { rows_in result ≡ rows_at fork.value }
{
    let (below, above) = (height(&fork.below), height(&fork.above));
    if below > above.saturating_add(1) {
        closed(below_up(lean_below(fork)))
    } else if above > below.saturating_add(1) {
        closed(above_up(lean_above(fork)))
    } else {
        closed(fork)
    }
}

// Turns the side below, where its own upper side is the higher one.
fn lean_below(mut fork: Box<Fork>) -> Box<Fork>
    ensures { rows_at result.value ≡ rows_at fork.value }
{
    match mem::replace(&mut fork.below, Tree::Leaf) {
        Tree::Leaf => fork,
        Tree::Fork(below) => {
            let side = if height(&below.above) > height(&below.below) {
                closed(above_up(below))
            } else {
                Tree::Fork(below)
            };
            fork.below = side;
            fork
        }
    }
}

// Turns the side above, where its own lower side is the higher one.
fn lean_above(mut fork: Box<Fork>) -> Box<Fork>
    ensures { rows_at result.value ≡ rows_at fork.value }
{
    match mem::replace(&mut fork.above, Tree::Leaf) {
        Tree::Leaf => fork,
        Tree::Fork(above) => {
            let side = if height(&above.below) > height(&above.above) {
                closed(below_up(above))
            } else {
                Tree::Fork(above)
            };
            fork.above = side;
            fork
        }
    }
}

// The fork of the side below comes over its own.
fn below_up(mut fork: Box<Fork>) -> Box<Fork>
    ensures { rows_at result.value ≡ rows_at fork.value }
{
    match mem::replace(&mut fork.below, Tree::Leaf) {
        Tree::Leaf => fork,
        Tree::Fork(mut below) => {
            fork.below = mem::replace(&mut below.above, Tree::Leaf);
            below.above = closed(fork);
            below
        }
    }
}

// The fork of the side above comes over its own.
fn above_up(mut fork: Box<Fork>) -> Box<Fork>
    ensures { rows_at result.value ≡ rows_at fork.value }
{
    match mem::replace(&mut fork.above, Tree::Leaf) {
        Tree::Leaf => fork,
        Tree::Fork(mut above) => {
            fork.above = mem::replace(&mut above.below, Tree::Leaf);
            above.below = closed(fork);
            above
        }
    }
}
