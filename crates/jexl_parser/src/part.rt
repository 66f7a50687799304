// What is kept of a tree while it is parsed: the tree itself only while no path in it has more than
// `MAX_HEIGHT` nodes. So a tree that is too tall is never built, however many tokens are still to be read.
ghost use Rattle.std.specs.Prelude.{◌≡◌, ◌≤◌, ◌+◌, option_map};
ghost use Rattle.jexl_parser.specs.declared.node.TheConstants.{MAX_HEIGHT};
ghost use Rattle.jexl_parser.specs.View.{view, views, view_pairs};
ghost use Rattle.jexl_parser.specs.Heights.{height_of, list_height_of, members_height_of};

use crate::node::Node;
use sequences::Text;

/// A tree in the box in which it stays, with its height, if it fits, and whether a relative name stands
/// outside its brackets.
#[derive(Drop)]
pub struct Part {
    pub tree: Option<Box<Node>>,
    pub height: u16,
    pub relative: bool,
    ghost counted: { height ≡ height_of (option_map (λ b. view b.value) tree) },
    ghost bounded: { height ≤ MAX_HEIGHT + 1 },
}

/// The same of a list of trees. Its height is that of the list's node.
#[derive(Drop)]
pub struct Parts {
    pub trees: Option<Vec<Node>>,
    pub height: u16,
    pub relative: bool,
    ghost counted: { height ≡ list_height_of (option_map (λ v. views v.items) trees) },
    ghost bounded: { height ≤ MAX_HEIGHT + 1 },
}

/// The same of a list of members.
#[derive(Drop)]
pub struct PairParts {
    pub pairs: Option<Vec<(Text, Node)>>,
    pub height: u16,
    pub relative: bool,
    ghost counted: { height ≡ members_height_of (option_map (λ v. view_pairs v.items) pairs) },
    ghost bounded: { height ≤ MAX_HEIGHT + 1 },
}
