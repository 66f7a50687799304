// What holds of the definitions alone.
ghost use Rattle.jexl_value.specs.Laws.{BecomesValue, StaysValue, IsFound};

/// Each JSON tree becomes a value, and the tree of a value becomes that value.
pub fn values_are_kept()
    ensures becomes { BecomesValue }
    ensures stays { StaysValue }
{}

/// A name that gets a value has it, and each other name has what it had.
pub fn names_are_found()
    ensures { IsFound }
{}
