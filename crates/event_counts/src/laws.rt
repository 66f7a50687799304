// What holds of all counts.
ghost use Rattle.event_counts.specs.Laws.{HaveOneListOfRows, RowsHave728Bytes, ViewsAddUp};

/// What a moment sees of a name in the counts of events is the sum of those that belong to each entry, whether the moment is
/// before the latest event or after it. It takes no memory.
pub fn views_add_up()
    ensures { ViewsAddUp }
{}

/// Sound counts that have the same rows are the same. It takes no memory.
pub fn one_list_of_rows()
    ensures { HaveOneListOfRows }
{}

/// The value of each row has 728 bytes. It takes no memory.
pub fn rows_have_728_bytes()
    ensures { RowsHave728Bytes }
{}
