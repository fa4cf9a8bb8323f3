// Walks over the pairs whose key has a prefix.
use crate::cursor::{step, walk_from};
use base_bytes::{Pair, Steps};
use skip_image::Image;
use std::sync::ledger::Ledger;

/// A walk over the pairs of a file whose key has a prefix, in order: one search, and then from each
/// pair to the next. It takes no memory.
#[derive(Clone, Copy)]
pub struct Walk<'a> {
    image: &'a Image,
    prefix: &'a [u8],
    place: u64,
}

impl<'a> Walk<'a> {
    ghost use Rattle.std.specs.Prelude.{◌≤◌, ◌+◌};
    ghost use Rattle.base_bytes.specs.OrderedMap.{Map, with_prefix};
    ghost use Rattle.skip_seek.specs.Prefixed.{Remains, Gives};
    ghost use Rattle.skip_seek.specs.Searches.{IsLive, StaysInBound, map_of};

    /// Begins at the first pair whose key has the prefix.
    pub fn new<L: Ledger>(image: &'a Image, prefix: &'a [u8], steps: &mut Steps<L>) -> Walk<'a>
        requires live { IsLive image.now.bytes }
        ensures left { Remains result (with_prefix (map_of image.now.bytes) prefix.now) }
        ensures cost { StaysInBound image.now.bytes prefix.now 0 steps.old steps.new }
    {
        let place = walk_from(image, prefix, steps);
        Walk {
            image,
            prefix,
            place,
        }
    }

    /// The next pair, lent by the image; None at the end, then and later. It looks at its record,
    /// and at a delete record that stands before the one behind it.
    pub fn next<L: Ledger>(&mut self, steps: &mut Steps<L>) -> Option<Pair<'a>>
        requires { (left : Map) × Remains self.old left }
        ensures pair { (left : Map) → Remains self.old left → Gives left result self.new }
        ensures cost { steps.new ≤ steps.old + 2 }
    {
        let Some(passed) = step(self.image, self.place, steps) else {
            return None;
        };
        if !passed.pair.key.starts_with(self.prefix) {
            return None;
        }
        self.place = passed.next;
        Some(passed.pair)
    }
}
