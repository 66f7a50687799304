// What holds of the definitions alone.
ghost use Rattle.app_context.specs.Events.{HaveCounts};
ghost use Rattle.app_context.specs.Laws.{AreByTable};

/// The attributes of a client are, name by name, those of the table, and the custom ones where the
/// table lacks the name.
pub fn attributes_are_by_table()
    ensures { AreByTable }
{}

/// In a context with the counts of events the attribute `event_counts` is these, and each other one
/// what it was.
pub fn counts_are_attributes()
    ensures { HaveCounts }
{}
