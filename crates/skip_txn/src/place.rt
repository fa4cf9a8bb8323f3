// Where a key stands, from a search.
ghost use Rattle.std.specs.Prelude.{◌≡◌, ◌<◌, ◌+◌, ◌^◌, List, ℕ, length};
ghost use Rattle.skip_spec.specs.Place.{Place};
ghost use Rattle.skip_change.specs.Changing.{HasSpot};
ghost use Rattle.skip_seek.specs.Searches.{IsLive, live_of};
ghost use Rattle.skip_txn.specs.Places.{IsFoundAt, IsNextOf, same_of};

use base_bytes::Steps;
use skip_change::Spot;
use skip_image::Image;
use skip_seek::{Found, seek};
use std::marker::Brand;
use std::sync::ledger::{Blank, Ledger};

/// The offset of the record of the key, or 0.
fn same_at(found: &Found) -> u64
    ensures { result ≡ same_of found.now }
{
    if found.exact { found.here } else { 0 }
}

/// The offset of the first record past the key, or 0.
fn next_at<L: Ledger>(image: &Image, key: &[u8], found: &Found, steps: &mut Steps<L>) -> u64
    requires live { IsLive image.now.bytes }
    requires found { IsFoundAt image.now.bytes key.now found.now }
    ensures { IsNextOf image.now.bytes found.now result }
{
    if found.exact {
        return image.successor(found.here, image.length(), steps);
    }
    found.here
}

/// The spot of a key, by one search.
fn spot_counted<L: Ledger>(blank: Blank, image: &Image, key: &[u8]) -> Spot
    requires name { blank.name ≡ L.name }
    requires parts { blank.parts ≡ L.parts }
    requires some { 0 < blank.parts }
    requires live { IsLive image.now.bytes }
    ensures { HasSpot image.now.bytes key.now result }
{
    let mut steps = Steps::<L>::new(blank);
    let found = seek(image, key, &mut steps);
    Spot {
        before: found.before,
        same_at: same_at(&found),
        next: next_at(image, key, &found, &mut steps),
    }
}

/// The spot of a key. The steps of the search are not counted.
pub(crate) fn spot_of(image: &Image, key: &[u8]) -> Spot
    requires live { IsLive image.now.bytes }
    ensures { HasSpot image.now.bytes key.now result }
{
    spot_counted::<Brand>(Blank::new(1), image, key)
}

/// How many live records there are once a pair is put at a spot.
pub(crate) fn count_with(image: &Image, spot: &Spot, count: u64) -> u64
    requires spot { (key : List ℕ) × HasSpot image.now.bytes key spot.now }
    requires counted { count ≡ length (live_of image.now.bytes) }
    requires few { count < 2 ^ 63 }
    ensures { (key : List ℕ) (place : Place (live_of image.now.bytes) key)
        → HasSpot image.now.bytes key spot.now
        → result ≡ length place.front + 1 + length place.rest }
{
    if spot.same_at == 0 { count + 1 } else { count }
}
