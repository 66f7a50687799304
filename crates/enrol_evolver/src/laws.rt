// Laws of the definitions.
ghost use Rattle.enrol_evolver.specs.Laws.{AreSettled, AreTrees, IsEachByItself, StaysConsistent};

/// After an apply each slug has the status that is defined for it by itself, over the one settled
/// list of grants, and the state is consistent. It takes no memory.
pub fn each_slug_by_itself()
    ensures settled { AreSettled }
    ensures statuses { IsEachByItself }
    ensures consistent { StaysConsistent }
{}

/// The tree that is found of a targeting text is the one that it has, and none is found exactly where
/// it has none. It takes no memory.
pub fn trees_are_found()
    ensures { AreTrees }
{}
