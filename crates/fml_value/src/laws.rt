// What holds of the definitions alone.
ghost use Rattle.fml_value.specs.Laws.{OneValue, IsTaken, IsFit};

/// A tree is the tree of at most one value of a sound type, and each type takes the trees of its
/// values, which fit it.
pub fn trees_of_values()
    ensures one { OneValue }
    ensures taken { IsTaken }
    ensures fit { IsFit }
{}
