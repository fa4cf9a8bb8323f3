// Why a call of a session was refused.
ghost use Rattle.std.specs.Prelude.{◌≡◌};
ghost use Rattle.db_core.specs.Refusals.{pair_refusal};

use base_bytes::{KEY_LIMIT, VALUE_LIMIT};

/// Why a call of a session was refused, in the order in which the causes are tested.
#[derive(Clone, Copy, Debug, PartialEq, Eq)]
pub enum DbFault {
    /// An earlier call of this session answered `DiskFault`. Open the database again.
    Broken,
    /// The key to be stored has no byte.
    KeyEmpty,
    /// The key to be stored has so many bytes, more than a key may.
    KeyTooLong { length: u64 },
    /// The value to be stored has so many bytes, more than a value may.
    ValueTooLong { length: u64 },
    /// The file would have so many bytes, more than it may.
    Full { size: u64 },
    /// Memory ran out.
    NoMemory,
    /// The disk failed. The session is broken from here on.
    DiskFault,
}

/// Why a pair may not be stored, whatever the backend: its key has no byte, or more than `KEY_LIMIT`, or its value
/// has more than `VALUE_LIMIT`; the first of these. None where its sizes are right.
pub fn pair_fault(key: &[u8], value: &[u8]) -> Option<DbFault>
    ensures { result ≡ pair_refusal key.now value.now }
{
    if key.is_empty() {
        return Some(DbFault::KeyEmpty);
    }
    let length = key.len() as u64;
    if length > KEY_LIMIT {
        return Some(DbFault::KeyTooLong { length });
    }
    let length = value.len() as u64;
    if length > VALUE_LIMIT {
        return Some(DbFault::ValueTooLong { length });
    }
    None
}
