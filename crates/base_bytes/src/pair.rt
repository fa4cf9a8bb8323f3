// A pair of a database, and the order of keys.
ghost use Rattle.std.specs.Prelude.{◌≡◌};
ghost use Rattle.base_bytes.specs.OrderedMap.{key_order};

use std::cmp::Ordering;

/// A key and its value, lent by whoever holds them.
#[derive(Clone, Copy, Debug, PartialEq, Eq)]
pub struct Pair<'a> {
    pub key: &'a [u8],
    pub value: &'a [u8],
}

/// The order of keys: by their bytes, a proper prefix first.
pub fn compare_keys(a: &[u8], b: &[u8]) -> Ordering
    ensures { result ≡ key_order a.now b.now }
{
    a.cmp(b)
}
