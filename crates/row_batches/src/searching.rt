// Searches among listed rows.
ghost use Rattle.std.specs.Prelude.{◌≡◌, IfOk, IfErr, option_map};
ghost use Rattle.row_batches.specs.Places.{HasKeyAt, BelongsAt};
ghost use Rattle.row_batches.specs.Rows.{AreRows, value_of};

use crate::store_row::StoreRow;

/// The value of a key, where there is one.
pub(crate) fn value_listed<'a>(rows: &'a [StoreRow], key: &[u8]) -> Option<&'a [u8]>
    requires { AreRows rows.now }
    ensures { option_map (λ value. value.now) result ≡ value_of key.now rows.now }
{
    match place_of(rows, key) {
        Ok(place) => Some(rows[place].value.as_slice()),
        Err(_) => None,
    }
}

// The place of the row of a key, or the one where it belongs.
fn place_of(rows: &[StoreRow], key: &[u8]) -> Result<usize, usize>
    requires { AreRows rows.now }
    ensures found { IfOk result (λ place. HasKeyAt key.now rows.now place) }
    ensures missed { IfErr result (λ place. BelongsAt key.now rows.now place) }
{
    rows.binary_search_by(|row| row.key.as_slice().cmp(key))
}
