// Laws of the definitions. The functions do nothing: their contracts are the laws.
ghost use Rattle.client_state.specs.Laws.{EmptyPartsHaveNoRows, EqualStatesAreOne, FormsOfEnrolmentsStand, IsOneToOne, IsFormOfOne, IsEncodedByOne};

/// Two sound states that have one encoding are one state. It takes no memory.
#[tactic(auto, using(crate::proofs::OneState::one_encoding, crate::proofs::OneState::equal_are_one))]
pub fn one_encoding()
    ensures one { IsOneToOne }
    ensures equal { EqualStatesAreOne }
{}

/// Rows that are a sound state's, or their old form, are of no other sound state, and neither are bytes. It takes no memory.
pub fn one_state()
    ensures rows { IsFormOfOne }
    ensures bytes { IsEncodedByOne }
{}

/// An empty part has no row: the rows of an enrolment alone, and their old form, are those of the state with empty parts. It takes
/// no memory.
#[tactic(auto, using(crate::proofs::Empty::rows_of_enrolment))]
pub fn empty_parts()
    ensures rows { EmptyPartsHaveNoRows }
    ensures forms { FormsOfEnrolmentsStand }
{}
