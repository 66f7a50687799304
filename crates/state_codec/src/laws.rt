// Laws of the definitions. The functions do nothing: their contracts are the laws.
ghost use Rattle.state_codec.specs.Laws.{IsOneToOne, IsFormOfOne, IsEncodedByOne};

/// Two sound states that have one encoding are one state. It takes no memory.
#[tactic(auto, using(crate::proofs::OneState::one_encoding))]
pub fn one_encoding()
    ensures { IsOneToOne }
{}

/// Rows that are a sound state's, or their old form, are of no other sound state, and neither are bytes. It takes no memory.
pub fn one_state()
    ensures rows { IsFormOfOne }
    ensures bytes { IsEncodedByOne }
{}
