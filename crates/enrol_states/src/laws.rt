// Laws of the definitions.
ghost use Rattle.enrol_states.specs.Laws.{EqualStatesAreOne};

/// The tests that `==` answers hold exactly of statuses that are one, and of states that are one. It
/// takes no memory.
pub fn equal_states_are_one()
    ensures { EqualStatesAreOne }
{}
