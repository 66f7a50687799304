// Laws of the definitions.
ghost use Rattle.enrol_conflicts.specs.Laws.{IsSettleable, IsSettledOnce, IsExclusive, SettledSays, DifferInOrder};

/// For any wishes and any features that may be shared exactly one list of grants is settled. It
/// takes no memory.
pub fn one_settlement()
    ensures some { IsSettleable }
    ensures one { IsSettledOnce }
{}

/// Two granted wishes of one kind share no feature but those that may be shared. It takes no
/// memory.
pub fn settled_are_exclusive()
    ensures { IsExclusive }
{}

/// To be settled is to grant each wish exactly where no granted wish of lower rank and of its kind
/// shares a feature with it that may not be shared. It takes no memory.
pub fn settled_says()
    ensures { SettledSays }
{}

/// Wishes whose slugs rise have different slugs, as `settle` asks. It takes no memory.
pub fn slugs_in_order_differ()
    ensures { DifferInOrder }
{}
