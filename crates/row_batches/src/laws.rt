// What holds of all batches.
ghost use Rattle.row_batches.specs.Laws.{HasOneEncoding, IsEmptyWhereEqual, MakesTheNew};

/// Batches that have the same bytes are the same. It takes no memory.
pub fn one_encoding()
    ensures { HasOneEncoding }
{}

/// The batch from one map of rows to the next is empty exactly where they are equal. It takes no memory.
pub fn empty_between()
    ensures { IsEmptyWhereEqual }
{}

/// The batch between two maps makes the new one of the old one. It takes no memory.
pub fn between_makes()
    ensures { MakesTheNew }
{}
