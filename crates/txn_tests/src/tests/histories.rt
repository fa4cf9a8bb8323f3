// Generated histories: transactions that commit or are given up, beside an ordered map of std.
use super::files::EMPTY;
use super::listing::{KEYS, Listing, has_listing};
use super::open_file::{OpenFile, open_bytes};
use super::stops::{Change, Transaction, assert_stops, listing_after, run};
use rand_core::utils::NextWord;
use rand_pcg::Pcg32;
use std::alloc::Global;
use std::collections::BTreeMap;
use std::process::Abort;
use std::test::Fail;

// More than the history writes.
const ROOM: u64 = 80_000_000;

const TRANSACTIONS: u32 = 4_000;

// A word, of which each fourth one gives the 31 levels with like odds.
fn word_of(rng: &mut Pcg32) -> u32 {
    let word = rng.next_word();
    if rng.next_word() % 4 == 0 {
        u32::MAX >> (word % 32)
    } else {
        word
    }
}

// Two of three changes put a pair.
fn change_of(rng: &mut Pcg32) -> Change {
    let word = word_of(rng);
    let key = rng.next_word() % KEYS;
    let number = rng.next_word();
    let value = if rng.next_word() % 3 == 0 {
        None
    } else {
        Some(number)
    };
    Change { word, key, value }
}

/// One to eight changes.
pub fn changes_of(alloc: Global, rng: &mut Pcg32) -> Result<Vec<Change>, Fail> {
    let mut changes = Vec::new(alloc);
    for _ in 0..=rng.next_word() % 8 {
        changes.push(change_of(rng))?;
    }
    Ok(changes)
}

// The file on the disk opens anew without repair, and has this map.
fn assert_tidy(
    rt: &impl Abort,
    alloc: Global,
    file: &OpenFile,
    listing: &Listing,
) -> Result<(), Fail> {
    let size = file.bytes().len() as u64;
    let again = open_bytes(alloc, file.bytes(), size, &[])?;
    let written = again.disk().counts().written;
    let same = has_listing(again.session(), listing);
    assert_eq!(rt; (written, same), (0, true));
    Ok(())
}

// One transaction of the history, which three of four times commits. Answers the map after it.
fn assert_transaction(
    rt: &impl Abort,
    alloc: Global,
    file: &mut OpenFile,
    rng: &mut Pcg32,
    listing: &Listing,
    is_stopped: bool,
) -> Result<Listing, Fail> {
    let changes = changes_of(alloc, rng)?;
    let transaction = Transaction {
        changes: &changes,
        commits: rng.next_word() % 4 != 0,
    };
    let after = listing_after(listing, transaction)?;
    if is_stopped {
        let _ = assert_stops(rt, alloc, file.bytes(), transaction, listing, &after)?;
    }
    let ended = run(file, transaction);
    assert_eq!(rt; ended, Ok(()));
    let seen = has_listing(file.session(), &after);
    assert!(rt; seen);
    Ok(after)
}

// Of the first 640 transactions each 32nd is stopped at each of its landings; after each 100 the file is opened anew.
#[test]
fn history_keeps_the_map(rt: HostRuntime) -> Result<(), Fail> {
    let alloc = rt.alloc();
    let mut rng = Pcg32::new(42, 54);
    let mut file = open_bytes(alloc, &EMPTY, ROOM, &[])?;
    let mut listing = BTreeMap::new(alloc);
    for number in 0..TRANSACTIONS {
        let is_stopped = number < 640 && number % 32 == 0;
        listing = assert_transaction(&rt, alloc, &mut file, &mut rng, &listing, is_stopped)?;
        if number % 100 == 0 {
            assert_tidy(&rt, alloc, &file, &listing)?;
        }
    }
    assert_tidy(&rt, alloc, &file, &listing)
}
