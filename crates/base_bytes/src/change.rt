// A change of a map.
use crate::Bytes;

/// One change in a transaction.
#[derive(Drop)]
pub enum Change {
    /// Puts a pair. The word chooses how the backend lays it down, where that is open.
    Put { word: u32, key: Bytes, value: Bytes },
    /// Takes a key out, where it is there.
    Del { key: Bytes },
}
