// Laws of heights and weights.
ghost use Rattle.fml_types.specs.Laws.{AreOneMore, AreHigher, AreEndless, AreTooHigh, AreOfShares, AreHeavier, HaveNone};

/// An object whose height is at most 32 is one higher than the highest of those that it needs, and 1
/// high where it needs none; so it is higher than each of them. The height of an object is above 32
/// exactly where it is the first of 33 objects, each of which needs the next, one of them perhaps more
/// than once; so it is on a cycle of needs. It takes no memory.
pub fn needs_of_objects()
    ensures one_more { AreOneMore }
    ensures higher { AreHigher }
    ensures endless { AreEndless }
    ensures too_high { AreTooHigh }
{}

/// An object whose height is at most 32 weighs 2 and the shares of its fields, each of which counts
/// the greatest weight of those that the field needs; so it is heavier than each of them, and no
/// weights are so where an object stands on a cycle of needs. It takes no memory.
pub fn weights_of_objects()
    ensures of_shares { AreOfShares }
    ensures heavier { AreHeavier }
    ensures none { HaveNone }
{}
