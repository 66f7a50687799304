// Laws of the definitions. The functions do nothing: their contracts are the laws.
ghost use Rattle.pref_bindings.specs.Laws.{HasOneListOfRows, JoinKeepsHeld, JoinKeepsUserMap, LeaveKeepsHeld, LeaveKeepsUserMap, LeaveUndoesJoin, SetKeepsHeld, UserSetsOwn};

/// Sound preferences that have one list of rows are one. It takes no memory.
pub fn one_list_of_rows()
    ensures { HasOneListOfRows }
{}

/// A join and then a leave of a slug that held no preference change nothing. It takes no memory.
pub fn leave_undoes_join()
    ensures { LeaveUndoesJoin }
{}

/// Neither a join nor a leave changes the user's map. It takes no memory.
pub fn user_map_is_kept()
    ensures join { JoinKeepsUserMap }
    ensures leave { LeaveKeepsUserMap }
{}

/// What the user sets or takes away, where nobody holds the name, is set or taken away in the user's map, and nothing else there
/// changes. It takes no memory.
pub fn user_sets_own()
    ensures { UserSetsOwn }
{}

/// A preference that is held keeps its value, its holder and its value of before through joins, through leaves of other slugs, and
/// while the user sets names that nobody holds. It takes no memory.
pub fn held_is_kept()
    ensures join { JoinKeepsHeld }
    ensures leave { LeaveKeepsHeld }
    ensures set { SetKeepsHeld }
{}
