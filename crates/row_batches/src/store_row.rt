// The rows of a store.
use sequences::Sequence;

/// A row of a store: a value under a key. Both are any bytes. In a batch a key has at most 65,535 bytes and a value at most
/// 4,294,967,295.
#[derive(Drop)]
pub struct StoreRow {
    pub key: Sequence<u8>,
    pub value: Sequence<u8>,
}
