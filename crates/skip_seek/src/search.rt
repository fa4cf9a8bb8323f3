// What a search finds.
ghost use Rattle.std.specs.Prelude.{◌≡◌, ◌≢◌, ◌⊎◌, ◌↔◌, IsTrue};
ghost use Rattle.skip_spec.specs.Place.{IsFound};
ghost use Rattle.skip_spec.specs.Records.{key_in};
ghost use Rattle.skip_image.specs.Image.{HasRecord};
ghost use Rattle.skip_seek.specs.Searches.{IsLive, StaysInBound, live_of};

use crate::climb::climb;
use crate::lowest::walk_lowest;
use base_bytes::{Steps, compare_keys};
use skip_image::Image;
use std::sync::ledger::Ledger;

/// Where a key stands among the live records of a file, or would stand. Offsets are in bytes, and
/// that of the dummy is 64.
#[derive(Clone, Copy)]
pub struct Found {
    /// The first record whose key is not below the one sought, or 0.
    pub here: u64,
    /// On each level, 0 to 30, the last record whose key is below the one sought, or the dummy.
    pub before: [u64; 31],
    /// Whether the record at `here` has the very key.
    pub exact: bool,
}

/// Searches a key, from level 30 down to level zero. It takes no memory.
pub fn seek<L: Ledger>(image: &Image, key: &[u8], steps: &mut Steps<L>) -> Found
    requires live { IsLive image.now.bytes }
    ensures found { IsFound (live_of image.now.bytes) key.now
        result.here result.before result.exact }
    ensures cost { StaysInBound image.now.bytes key.now 0 steps.old steps.new }
{
    let mut before = climb(image, key, steps);
    let (last, here) = walk_lowest(image, key, before[0], steps);
    before[0] = last;
    Found {
        here,
        before,
        exact: has_key(image, here, key),
    }
}

/// Whether a record, or none at 0, has this key.
fn has_key(image: &Image, at: u64, key: &[u8]) -> bool
    requires there { (at ≡ 0) ⊎ HasRecord image.now.bytes at }
    ensures { IsTrue result ↔ ((at ≢ 0) × (key_in image.now.bytes at ≡ key.now)) }
{
    if at == 0 {
        return false;
    }
    compare_keys(image.key(at), key).is_eq()
}
