// Laws of the grammar.
ghost use Rattle.jexl_parser.specs.Laws.{OneTree, AndOrFromTheLeft};

/// A law, with no effect: a list of tokens has at most one tree.
pub fn one_tree()
    ensures { OneTree }
{}

/// A law, with no effect: for any operands that bind tighter, the tokens of `a || b && c` have the tree
/// of `(a || b) && c`, and no other.
pub fn and_or_from_the_left()
    ensures { AndOrFromTheLeft }
{}
