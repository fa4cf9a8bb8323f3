// Level zero.
ghost use Rattle.std.specs.Prelude.{◌≡◌, ◌+◌, ℕ};
ghost use Rattle.skip_spec.specs.Place.{Place};
ghost use Rattle.skip_seek.specs.Climbing.{Standing, Reaches};
ghost use Rattle.skip_seek.specs.Searches.{IsLive, live_of};

use crate::climb::comes_before;
use base_bytes::Steps;
use skip_image::Image;
use std::sync::ledger::Ledger;

/// The last record whose key is below the one sought, from one such record on, and the next one.
pub(crate) fn walk_lowest<L: Ledger>(
    image: &Image,
    key: &[u8],
    from: u64,
    steps: &mut Steps<L>,
) -> (u64, u64)
    requires live { IsLive image.now.bytes }
    requires standing { (place : Place (live_of image.now.bytes) key.now) × (due : ℕ)
        × Standing place.front 0 from due }
    ensures reached { (place : Place (live_of image.now.bytes) key.now) (due : ℕ)
        → Standing place.front 0 from due
        → Reaches place result.0 result.1 steps.new (steps.old + due) }
{
    let mut at = from;
    'hops: loop {
        let next = image.successor(at, image.length(), steps);
        if next == 0 {
            return (at, next);
        }
        if !comes_before(image.key(next), key) {
            return (at, next);
        }
        at = next;
    }
}
