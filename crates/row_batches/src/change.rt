// One change of a store's rows.
ghost use Rattle.std.specs.Prelude.{◌≡◌};
ghost use Rattle.row_batches.specs.Rows.{key_in};

use crate::store_row::StoreRow;
use sequences::Sequence;

/// One change of a store's rows.
#[derive(Drop)]
pub enum RowChange {
    /// The row is there, in the place of the one of its key if there was one.
    Put(StoreRow),
    /// No row of this key is there.
    Delete(Sequence<u8>),
}

impl RowChange {
    /// The key of the row that is put or deleted.
    pub fn key(&self) -> &[u8]
        ensures { result.now ≡ key_in self.now }
    {
        match self {
            RowChange::Put(row) => row.key.as_slice(),
            RowChange::Delete(key) => key.as_slice(),
        }
    }
}
