// Laws of the definitions. The functions do nothing: their contracts are the laws.
ghost use Rattle.change_outbox.specs.Laws.{HasOneListOfRows, AreKeptUntilConfirmed};

/// Sound outboxes that have one list of rows are one. It takes no memory.
pub fn one_list_of_rows()
    ensures { HasOneListOfRows }
{}

/// Whatever changes are appended to a new outbox and whatever numbers are confirmed, the changes are numbered from 1 in the order
/// in which they came, and the entries are exactly those above the greatest confirmed number, each once. It takes no memory.
pub fn kept_until_confirmed()
    ensures { AreKeptUntilConfirmed }
{}
