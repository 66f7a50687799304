// Laws of the definitions.
ghost use Rattle.feature_serving.specs.Laws.{AreInOrder, AreOfRows, IsOneOrder, HaveTypes};

/// The layers of a feature are what the rows lay over it, each exactly once, in order by kind, then
/// by moment, then by slug; and no other list is so. It takes no memory.
pub fn layers_are_in_order()
    ensures in_order { AreInOrder }
    ensures of_rows { AreOfRows }
    ensures one { IsOneOrder }
{}

/// What is served of a feature is an object of exactly its variables, each with a value of its
/// type. It takes no memory.
pub fn served_have_types()
    ensures { HaveTypes }
{}
