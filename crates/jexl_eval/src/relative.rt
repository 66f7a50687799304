// Which trees speak of the item of a filter around them.
ghost use Rattle.std.specs.Prelude.{◌≡◌};
ghost use Rattle.jexl_parser.specs.Tree.{has_relative, any_relative, any_pair_relative};
ghost use Rattle.jexl_parser.specs.View.{view, views, view_pairs};

use jexl_parser::Node;
use jexl_value::Text;

/// Whether a relative name stands in the tree outside the brackets of its filters. It takes no memory.
#[cycle(has_relative)]
pub(crate) fn has_relative(node: &Node) -> bool
    ensures { result ≡ has_relative (view node.now) }
{
    match node {
        Node::Literal(_) => false,
        Node::Name(_) => false,
        Node::Relative(_) => true,
        Node::List(nodes) => any_relative(nodes.as_slice()),
        Node::Members(pairs) => any_pair_relative(pairs.as_slice()),
        Node::Member(subject, _) => has_relative(subject),
        Node::Index(subject, key) => has_relative(subject) || has_relative(key),
        Node::Filter(subject, _) => has_relative(subject),
        Node::Transform(subject, _, arguments) => {
            has_relative(subject) || any_relative(arguments.as_slice())
        }
        Node::Not(inside) => has_relative(inside),
        Node::Binary(_, left, right) => has_relative(left) || has_relative(right),
        Node::Choose(condition, first, second) => {
            has_relative(condition) || has_relative(first) || has_relative(second)
        }
        Node::OrElse(first, second) => has_relative(first) || has_relative(second),
    }
}

// Whether it does in one of the trees.
#[cycle(has_relative)]
fn any_relative(nodes: &[Node]) -> bool
    ensures { result ≡ any_relative (views nodes.now) }
{
    for node in nodes {
        if has_relative(node) {
            return true;
        }
    }
    false
}

// Whether it does in the tree of one of the members.
#[cycle(has_relative)]
fn any_pair_relative(pairs: &[(Text, Node)]) -> bool
    ensures { result ≡ any_pair_relative (view_pairs pairs.now) }
{
    for (_, node) in pairs {
        if has_relative(node) {
            return true;
        }
    }
    false
}
