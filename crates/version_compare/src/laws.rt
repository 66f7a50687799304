//! The law of the version order.

ghost use Rattle.version_compare.specs.Laws.{IsVersionOrderTotal};

/// The version order is total: each version equals itself, two versions in the other places compare the
/// other way round, and it is transitive. It needs no code to run: the contract is the law.
pub fn version_order_is_total()
    ensures { IsVersionOrderTotal }
{}
