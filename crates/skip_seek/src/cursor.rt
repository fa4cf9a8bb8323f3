// Walks over the pairs, from one to the next without a search.
ghost use Rattle.std.specs.Prelude.{◌≡◌, ◌≤◌, ◌+◌};
ghost use Rattle.base_bytes.specs.OrderedMap.{Map, pairs_from};
ghost use Rattle.skip_seek.specs.Searches.{IsLive, StaysInBound, map_of};
ghost use Rattle.skip_seek.specs.Walks.{Leaves, StepsOver};

use crate::search::seek;
use base_bytes::{Pair, Steps};
use skip_image::Image;
use std::sync::ledger::Ledger;

/// A pair that a walk passes, and the place of the next one, or 0.
#[derive(Clone, Copy, Debug, PartialEq, Eq)]
pub struct Passed<'a> {
    pub pair: Pair<'a>,
    pub next: u64,
}

/// Begins a walk: the place of the first pair whose key is not below this one, or 0. A place is the
/// offset of a record, in bytes.
pub fn walk_from<L: Ledger>(image: &Image, key: &[u8], steps: &mut Steps<L>) -> u64
    requires live { IsLive image.now.bytes }
    ensures place { Leaves image.now.bytes result (pairs_from (map_of image.now.bytes) key.now) }
    ensures cost { StaysInBound image.now.bytes key.now 0 steps.old steps.new }
{
    seek(image, key, steps).here
}

/// The pair at a place of a walk, lent by the image, and the next place; None at the end. It looks
/// at this record, and at a delete record that stands before the next one, and does not search.
pub fn step<'a, L: Ledger>(image: &'a Image, place: u64, steps: &mut Steps<L>) -> Option<Passed<'a>>
    requires live { IsLive image.now.bytes }
    requires at { (left : Map) × Leaves image.now.bytes place left }
    ensures step { (left : Map) → Leaves image.now.bytes place left
        → StepsOver image.now.bytes left result }
    ensures cost { steps.new ≤ steps.old + 2 }
{
    if place == 0 {
        return None;
    }
    Some(Passed {
        pair: Pair {
            key: image.key(place),
            value: image.value(place),
        },
        next: image.successor(place, image.length(), steps),
    })
}
