// Trees from their parts, kept only while no path in them has more than `MAX_HEIGHT` nodes.
ghost use Rattle.std.specs.Prelude.{◌≡◌, ◌≤◌, ◌+◌, IfOk, Some, None, false};
ghost use Rattle.jexl_parser.specs.Tree.{Relative, Transform, height as tree_height, has_relative};
ghost use Rattle.jexl_parser.specs.Seen.{fit, cap, seen_not, seen_member, seen_bracket, seen_binary, seen_choose, seen_or_else, seen_args};
ghost use Rattle.jexl_parser.specs.View.{view, views};
ghost use Rattle.jexl_parser.specs.Kept.{see, see_list, see_members};

use crate::node::{BinarySign, MAX_HEIGHT, Node};
use crate::part::{PairParts, Part, Parts};
use sequences::Text;
use std::alloc::{AllocError, Global};

/// A tree that isn't kept.
fn tall(relative: bool) -> Part
    ensures { see result ≡ record { tree = None; relative = relative } }
{
    Part {
        tree: None,
        height: MAX_HEIGHT + 1,
        relative,
    }
}

/// A tree that is kept.
fn kept(alloc: Global, node: Node, height: u16, relative: bool) -> Result<Part, AllocError>
    requires counted { height ≡ tree_height (view node) }
    requires bounded { height ≤ MAX_HEIGHT + 1 }
    ensures { IfOk result (λ p. see p ≡ record { tree = Some (view node); relative = relative }) }
{
    let tree = Box::new(alloc, node)?;
    Ok(Part {
        tree: Some(tree),
        height,
        relative,
    })
}

/// A tree, kept where it fits.
#[tactic(auto, using(crate::proofs::Fits::too_tall, crate::proofs::Fits::low_enough))]
fn fitted(alloc: Global, node: Node, height: u16, relative: bool) -> Result<Part, AllocError>
    requires { height ≡ tree_height (view node) }
    ensures { IfOk result (λ p. see p ≡ record { tree = fit MAX_HEIGHT (view node); relative = relative }) }
{
    if height > MAX_HEIGHT {
        return Ok(tall(relative));
    }
    Ok(kept(alloc, node, height, relative)?)
}

/// A leaf.
pub fn leaf(alloc: Global, node: Node) -> Result<Part, AllocError>
    requires low { tree_height (view node) ≡ 1 }
    requires free { has_relative (view node) ≡ false }
    ensures { IfOk result (λ p. see p ≡ cap MAX_HEIGHT (view node)) }
{
    Ok(kept(alloc, node, 1, false)?)
}

/// A relative name.
pub fn relative_name(alloc: Global, name: &str) -> Result<Part, AllocError>
    ensures { IfOk result (λ p. see p ≡ cap MAX_HEIGHT (Relative name.now)) }
{
    let name = Text::new(alloc, name)?;
    kept(alloc, Node::Relative(name), 1, true)
}

/// `!a`.
pub fn negated(alloc: Global, a: Part) -> Result<Part, AllocError>
    ensures { IfOk result (λ p. see p ≡ seen_not MAX_HEIGHT (see a)) }
{
    let height = a.height + 1;
    let relative = a.relative;
    let tree = a.tree;
    match tree {
        None => Ok(tall(relative)),
        Some(a) => fitted(alloc, Node::Not(a), height, relative),
    }
}

/// `a.name`.
pub fn member(alloc: Global, a: Part, name: &str) -> Result<Part, AllocError>
    ensures { IfOk result (λ p. see p ≡ seen_member MAX_HEIGHT (see a) name.now) }
{
    let name = Text::new(alloc, name)?;
    let height = a.height + 1;
    let relative = a.relative;
    let tree = a.tree;
    match tree {
        None => Ok(tall(relative)),
        Some(a) => fitted(alloc, Node::Member(a, name), height, relative),
    }
}

/// `a[b]`: a filter where a relative name of `b` belongs to the bracket, else an index.
pub fn bracket(alloc: Global, a: Part, b: Part) -> Result<Part, AllocError>
    ensures { IfOk result (λ p. see p ≡ seen_bracket MAX_HEIGHT (see a) (see b)) }
{
    let height = a.height.max(b.height) + 1;
    let relative = a.relative;
    let filters = b.relative;
    let first_tree = a.tree;
    let second_tree = b.tree;
    match first_tree {
        None => Ok(tall(relative)),
        Some(a) => match second_tree {
            None => Ok(tall(relative)),
            Some(b) => {
                if filters {
                    fitted(alloc, Node::Filter(a, b), height, relative)
                } else {
                    fitted(alloc, Node::Index(a, b), height, relative)
                }
            }
        },
    }
}

/// An operation.
pub fn binary(alloc: Global, sign: BinarySign, a: Part, b: Part) -> Result<Part, AllocError>
    ensures { IfOk result (λ p. see p ≡ seen_binary MAX_HEIGHT sign (see a) (see b)) }
{
    let height = a.height.max(b.height) + 1;
    let relative = a.relative || b.relative;
    let first_tree = a.tree;
    let second_tree = b.tree;
    match first_tree {
        None => Ok(tall(relative)),
        Some(a) => match second_tree {
            None => Ok(tall(relative)),
            Some(b) => fitted(alloc, Node::Binary(sign, a, b), height, relative),
        },
    }
}

/// `a ?: c`.
pub fn or_else(alloc: Global, a: Part, c: Part) -> Result<Part, AllocError>
    ensures { IfOk result (λ p. see p ≡ seen_or_else MAX_HEIGHT (see a) (see c)) }
{
    let height = a.height.max(c.height) + 1;
    let relative = a.relative || c.relative;
    let first_tree = a.tree;
    let second_tree = c.tree;
    match first_tree {
        None => Ok(tall(relative)),
        Some(a) => match second_tree {
            None => Ok(tall(relative)),
            Some(c) => fitted(alloc, Node::OrElse(a, c), height, relative),
        },
    }
}

/// `a ? b : c`.
pub fn choose(alloc: Global, a: Part, b: Part, c: Part) -> Result<Part, AllocError>
    ensures { IfOk result (λ p. see p ≡ seen_choose MAX_HEIGHT (see a) (see b) (see c)) }
{
    let height = a.height.max(b.height.max(c.height)) + 1;
    let relative = a.relative || (b.relative || c.relative);
    let first_tree = a.tree;
    let second_tree = b.tree;
    let third_tree = c.tree;
    match first_tree {
        None => Ok(tall(relative)),
        Some(a) => match second_tree {
            None => Ok(tall(relative)),
            Some(b) => match third_tree {
                None => Ok(tall(relative)),
                Some(c) => fitted(alloc, Node::Choose(a, b, c), height, relative),
            },
        },
    }
}

/// The node of a transform.
fn transform_node(subject: Box<Node>, name: Text, args: Vec<Node>) -> Node
    ensures { view result ≡ Transform (view subject.value) name (views args.items) }
{
    Node::Transform(subject, name, args)
}

/// `a|name` and `a|name(b, c)`.
pub fn transform(alloc: Global, a: Part, name: &str, args: Parts) -> Result<Part, AllocError>
    ensures { IfOk result (λ p. see p ≡ seen_args MAX_HEIGHT (see a) name.now (see_list args)) }
{
    let name = Text::new(alloc, name)?;
    let height = args.height.max(a.height + 1);
    let relative = a.relative || args.relative;
    let tree = a.tree;
    let trees = args.trees;
    match tree {
        None => Ok(tall(relative)),
        Some(a) => match trees {
            None => Ok(tall(relative)),
            Some(args) => fitted(alloc, transform_node(a, name, args), height, relative),
        },
    }
}

/// The node of a list.
#[tactic(auto, using(crate::proofs::Views::view_list))]
pub fn list(alloc: Global, a: Parts) -> Result<Part, AllocError>
    ensures { IfOk result (λ p. see p ≡ see_list a) }
{
    let height = a.height;
    let relative = a.relative;
    let trees = a.trees;
    match trees {
        None => Ok(tall(relative)),
        Some(trees) => Ok(kept(alloc, Node::List(trees), height, relative)?),
    }
}

/// The node of members.
#[tactic(auto, using(crate::proofs::Views::view_members))]
pub fn object(alloc: Global, a: PairParts) -> Result<Part, AllocError>
    ensures { IfOk result (λ p. see p ≡ see_members a) }
{
    let height = a.height;
    let relative = a.relative;
    let pairs = a.pairs;
    match pairs {
        None => Ok(tall(relative)),
        Some(pairs) => Ok(kept(alloc, Node::Members(pairs), height, relative)?),
    }
}
