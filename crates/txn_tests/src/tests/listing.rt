// Numbered keys, and whether a session has just the pairs of an ordered map of std.
ghost use Rattle.std.specs.Prelude.{◌≡◌, ◌<◌, false};
ghost use Rattle.skip_txn.specs.Sessions.{session_state};

use base_bytes::{Pair, Steps};
use skip_txn::Session;
use std::collections::BTreeMap;
use std::marker::Brand;
use std::sync::ledger::{Blank, Ledger};

/// How many keys there are.
pub const KEYS: u32 = 200;

/// For each key that has a value, the number of the value.
pub type Listing = BTreeMap<u32, u32>;

/// The bytes of a key, of which the last one is left out where the key is even. They rise with the number.
pub fn key_bytes(key: u32) -> [u8; 3] {
    let [_, _, high, low] = key.to_be_bytes();
    [high, low, 7]
}

/// The bytes that are stored as a key.
pub fn key_of(bytes: &[u8; 3]) -> &[u8] {
    if bytes[1] % 2 == 0 {
        &bytes[..2]
    } else {
        bytes
    }
}

/// The bytes that are stored as a value, none to four.
pub fn value_of(bytes: &[u8; 4]) -> &[u8] {
    &bytes[..(bytes[3] % 5) as usize]
}

// A key has this value, or none. Where it has one, it is the first key past the last one that has.
fn agrees<L: Ledger>(
    session: &Session,
    steps: &mut Steps<L>,
    last: &[u8],
    key: &[u8],
    value: Option<u32>,
) -> bool
    requires sound { (session_state session.now).is_broken ≡ false }
{
    let Some(number) = value else {
        return session.fetch(key, steps).is_none();
    };
    let bytes = number.to_be_bytes();
    let value = value_of(&bytes);
    session.fetch(key, steps) == Some(value)
        && session.after(last, steps) == Some(Pair { key, value })
}

fn has_listing_counted<L: Ledger>(blank: Blank, session: &Session, listing: &Listing) -> bool
    requires name { blank.name ≡ L.name }
    requires parts { blank.parts ≡ L.parts }
    requires some { 0 < blank.parts }
    requires sound { (session_state session.now).is_broken ≡ false }
{
    let mut steps = Steps::<L>::new(blank);
    let mut last = [0, 0, 0];
    let mut count = 0usize;
    for number in 0..KEYS {
        let bytes = key_bytes(number);
        let value = listing.get(&number).copied();
        let before = if count == 0 { b"" } else { key_of(&last) };
        if !agrees(session, &mut steps, before, key_of(&bytes), value) {
            return false;
        }
        if value.is_some() {
            last = bytes;
            count = count.wrapping_add(1);
        }
    }
    let before = if count == 0 { b"" } else { key_of(&last) };
    let is_last = session.after(before, &mut steps).is_none();
    is_last && count == listing.len() && session.count() == count as u64
}

/// The map seen is this one, by its count, its values and its order.
pub fn has_listing(session: &Session, listing: &Listing) -> bool {
    !session.broken() && has_listing_counted::<Brand>(Blank::new(1), session, listing)
}
