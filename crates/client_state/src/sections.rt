// Sections of rows, by the bytes that begin their keys.
ghost use Rattle.std.specs.Prelude.{◌≡◌, ◌≤◌, length, take, drop};
ghost use Rattle.client_state.specs.Sections.{count_below, divided, ends, is_below, lists_of};

use row_batches::StoreRow;

/// The rows of the enrolment and of the other parts, in the order of their keys.
#[derive(Clone, Copy, Drop)]
pub(crate) struct Sections<'a> {
    /// Of the enrolment: those whose keys begin below `e`.
    pub first: &'a [StoreRow],
    /// Those whose keys begin with `e`, where the rows are in the order of their keys.
    pub events: &'a [StoreRow],
    /// Of preferences that are held: those behind them whose keys begin below `i`.
    pub holds: &'a [StoreRow],
    /// Of the enrolment: those behind them whose keys begin below `x`.
    pub later: &'a [StoreRow],
    /// Those behind them whose keys begin below `y`.
    pub outbox: &'a [StoreRow],
    /// Of preferences' values: all others.
    pub values: &'a [StoreRow],
}

/// The sections of the rows. None is copied.
pub(crate) fn sections_of(rows: &[StoreRow]) -> Sections<'_>
    ensures { lists_of result ≡ divided ends rows.now }
{
    let (first, behind) = section(rows, b'e');
    let (events, behind) = section(behind, b'f');
    let (holds, behind) = section(behind, b'i');
    let (later, behind) = section(behind, b'x');
    let (outbox, values) = section(behind, b'y');
    Sections {
        first,
        events,
        holds,
        later,
        outbox,
        values,
    }
}

// The rows up to the first whose key isn't below that of the byte, and those from it on.
fn section(rows: &[StoreRow], end: u8) -> (&[StoreRow], &[StoreRow])
    ensures front { result.0.now ≡ take (count_below end rows.now) rows.now }
    ensures behind { result.1.now ≡ drop (count_below end rows.now) rows.now }
{
    rows.split_at(count_below(rows, end))
}

// How many rows stand before the first whose key isn't below that of the byte.
fn count_below(rows: &[StoreRow], end: u8) -> usize
    ensures count { result ≡ count_below end rows.now }
    ensures within { result ≤ length rows.now }
{
    for place in 0..rows.len() {
        if !is_below(rows[place].key.as_slice(), end) {
            return place;
        }
    }
    rows.len()
}

fn is_below(key: &[u8], end: u8) -> bool
    ensures { result ≡ is_below end key.now }
{
    match key {
        [byte, ..] => *byte < end,
        [] => true,
    }
}
