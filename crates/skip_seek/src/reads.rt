// Reads: the value at a key, and the pairs from a key and past it.
ghost use Rattle.std.specs.Prelude.{◌≡◌, List};
ghost use Rattle.std.specs.Option.{option_copied};
ghost use Rattle.base_bytes.specs.OrderedMap.{value_at, first_from, first_above};
ghost use Rattle.skip_spec.specs.Chain.{Entry};
ghost use Rattle.skip_spec.specs.Place.{first_pair};
ghost use Rattle.skip_seek.specs.Searches.{IsLive, StaysInBound, map_of, pair_of};
ghost use Rattle.skip_seek.specs.Walks.{IsFrom};

use crate::search::seek;
use base_bytes::{Pair, Steps};
use skip_image::Image;
use std::sync::ledger::Ledger;

/// The value at a key, lent by the image. It takes no memory.
pub fn fetch<'a, L: Ledger>(image: &'a Image, key: &[u8], steps: &mut Steps<L>) -> Option<&'a [u8]>
    requires live { IsLive image.now.bytes }
    ensures value { option_copied result ≡ value_at (map_of image.now.bytes) key.now }
    ensures cost { StaysInBound image.now.bytes key.now 0 steps.old steps.new }
{
    let found = seek(image, key, steps);
    if found.exact {
        Some(image.value(found.here))
    } else {
        None
    }
}

/// The first pair whose key is not below this one, lent by the image. It takes no memory.
pub fn at_least<'a, L: Ledger>(
    image: &'a Image,
    key: &[u8],
    steps: &mut Steps<L>,
) -> Option<Pair<'a>>
    requires live { IsLive image.now.bytes }
    ensures pair { pair_of result ≡ first_from (map_of image.now.bytes) key.now }
    ensures cost { StaysInBound image.now.bytes key.now 0 steps.old steps.new }
{
    let here = seek(image, key, steps).here;
    pair_at(image, here)
}

/// The first pair whose key is above this one, lent by the image. It takes no memory.
pub fn after<'a, L: Ledger>(image: &'a Image, key: &[u8], steps: &mut Steps<L>) -> Option<Pair<'a>>
    requires live { IsLive image.now.bytes }
    ensures pair { pair_of result ≡ first_above (map_of image.now.bytes) key.now }
    ensures cost { StaysInBound image.now.bytes key.now 2 steps.old steps.new }
{
    let found = seek(image, key, steps);
    if found.exact {
        let next = image.successor(found.here, image.length(), steps);
        return pair_at(image, next);
    }
    pair_at(image, found.here)
}

/// The pair of a live record, or none at 0.
fn pair_at<'a>(image: &'a Image, at: u64) -> Option<Pair<'a>>
    requires live { IsLive image.now.bytes }
    requires there { (es : List Entry) × IsFrom image.now.bytes at es }
    ensures { (es : List Entry) → IsFrom image.now.bytes at es → pair_of result ≡ first_pair es }
{
    if at == 0 {
        return None;
    }
    Some(Pair {
        key: image.key(at),
        value: image.value(at),
    })
}
