// Whole expressions.
ghost use Rattle.std.specs.Prelude.{◌≡◌, ◌≤◌, false};
ghost use Rattle.jexl_parser.specs.declared.node.TheConstants.{MAX_HEIGHT};
ghost use Rattle.jexl_parser.specs.Tree.{has_relative, height};
ghost use Rattle.jexl_parser.specs.View.{view};

use crate::node::Node;

/// An expression. Each relative name in it stands inside the bracket of a filter, and no path in
/// its tree has more than `MAX_HEIGHT` nodes.
#[derive(Drop)]
pub struct Expr {
    pub root: Node,
    ghost closed: { has_relative (view root) ≡ false },
    ghost bounded: { height (view root) ≤ MAX_HEIGHT },
}
