// Laws of the tokens.
ghost use Rattle.jexl_lexer.specs.Laws.{OneList, OneFault, NeverBoth, AlwaysOne};

/// A law, with no effect: each text has exactly one list of tokens, or exactly one first fault at
/// one place, and never both.
pub fn one_answer()
    ensures list { OneList }
    ensures fault { OneFault }
    ensures never_both { NeverBoth }
    ensures always_one { AlwaysOne }
{}
