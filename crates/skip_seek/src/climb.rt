// The upper levels, from the highest down.
ghost use Rattle.std.specs.Prelude.{◌≡◌, ◌≤◌, ◌+◌, ℕ, slice_index};
ghost use Rattle.skip_spec.specs.Place.{Place};
ghost use Rattle.skip_seek.specs.Climbing as climbing;
ghost use Rattle.skip_seek.specs.Climbing.{Standing, StandsWithin, Arrives, AreLastAbove};
ghost use Rattle.skip_seek.specs.Searches.{IsLive, live_of, bound_at};

use base_bytes::{Steps, compare_keys};
use skip_image::Image;
use std::sync::ledger::Ledger;

/// Whether a key comes before another.
pub(crate) fn comes_before(key: &[u8], other: &[u8]) -> bool
    ensures { result ≡ climbing.comes_before key.now other.now }
{
    compare_keys(key, other).is_lt()
}

/// The last record on an upper level whose key is below the one sought, from one such record on.
fn walk_level<L: Ledger>(
    image: &Image,
    key: &[u8],
    level: u8,
    from: u64,
    steps: &mut Steps<L>,
) -> u64
    requires low { 1 ≤ level }
    requires high { level ≤ 30 }
    requires live { IsLive image.now.bytes }
    requires standing { (place : Place (live_of image.now.bytes) key.now) × (due : ℕ)
        × Standing place.front level from due }
    ensures arrived { (place : Place (live_of image.now.bytes) key.now) (due : ℕ)
        → Standing place.front level from due
        → Arrives place.front level result steps.new (steps.old + due) }
{
    let mut at = from;
    'hops: loop {
        let next = image.upper(at, level, steps);
        if next == 0 {
            return at;
        }
        if !comes_before(image.key(next), key) {
            return at;
        }
        at = next;
    }
}

/// On each upper level the last record before the place of a key; in the place of level zero, where
/// to go on there.
pub(crate) fn climb<L: Ledger>(image: &Image, key: &[u8], steps: &mut Steps<L>) -> [u64; 31]
    requires live { IsLive image.now.bytes }
    ensures last { (place : Place (live_of image.now.bytes) key.now)
        → AreLastAbove 0 result place.front }
    ensures stands { (place : Place (live_of image.now.bytes) key.now)
        → StandsWithin place.front 0 (slice_index result 0) steps.new
        (steps.old + bound_at place) }
{
    let mut before = [64; 31];
    let mut at = 64;
    for step in 0..30 {
        let level = 30 - step;
        at = walk_level(image, key, level, at, steps);
        before[level as usize] = at;
    }
    before[0] = at;
    before
}
