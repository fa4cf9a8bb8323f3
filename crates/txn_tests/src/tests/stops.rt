// A transaction that is stopped at each of its landings.
use super::listing::{Listing, has_listing, key_bytes, key_of, value_of};
use super::open_file::{OpenFile, open_bytes};
use skip_txn::TxnFault;
use std::alloc::Global;
use std::process::Abort;
use std::test::Fail;

/// A key that is put, or taken out where it has no value.
#[derive(Clone, Copy)]
pub struct Change {
    pub word: u32,
    pub key: u32,
    pub value: Option<u32>,
}

/// A transaction, whose end is a commit or an abort.
#[derive(Clone, Copy)]
pub struct Transaction<'a> {
    pub changes: &'a [Change],
    pub commits: bool,
}

/// The map after a transaction.
pub fn listing_after(listing: &Listing, transaction: Transaction<'_>) -> Result<Listing, Fail> {
    let mut after = listing.clone()?;
    if transaction.commits {
        for change in transaction.changes {
            match change.value {
                Some(value) => {
                    let Ok(_) = after.insert(change.key, value) else {
                        return Err("there is no memory".into());
                    };
                }
                None => {
                    let _ = after.remove(&change.key);
                }
            }
        }
    }
    Ok(after)
}

fn apply(file: &mut OpenFile, change: Change) -> Result<(), TxnFault> {
    let bytes = key_bytes(change.key);
    let key = key_of(&bytes);
    match change.value {
        Some(number) => file.store(change.word, key, value_of(&number.to_be_bytes())),
        None => match file.delete(key) {
            Ok(_) => Ok(()),
            Err(fault) => Err(fault),
        },
    }
}

/// Runs a transaction up to its end.
pub fn run(file: &mut OpenFile, transaction: Transaction<'_>) -> Result<(), TxnFault> {
    file.begin()?;
    for change in transaction.changes {
        apply(file, *change)?;
    }
    if transaction.commits {
        file.commit()
    } else {
        file.abort()
    }
}

// Which of the landings that pend are made when a stop comes: each that is no multiple of a number.
fn landed_but(step: usize) -> [bool; 200] {
    let mut landed = [false; 200];
    for (number, is_made) in landed.iter_mut().enumerate() {
        *is_made = number % step.max(1) != 0;
    }
    landed
}

/// The file that a stop leaves opens to the map from before or to the one after, where of what pends none, all, each
/// second landing, or two of three are made.
fn assert_left(
    rt: &impl Abort,
    alloc: Global,
    file: &OpenFile,
    before: &Listing,
    after: &Listing,
) -> Result<(), Fail> {
    for landed in [landed_but(1), landed_but(2), landed_but(3), [true; 200]] {
        let left = file.left(alloc, &landed)?;
        let is_one = has_listing(left.session(), before) || has_listing(left.session(), after);
        assert!(rt; is_one);
    }
    Ok(())
}

// More than a transaction on a file writes.
fn room_of(start: &[u8]) -> u64 {
    (start.len() as u64).saturating_add(300_000)
}

/// Stops a transaction on a file that has a map, after each number of landings, and answers how many there are. After
/// all of them only the last sync is left to fail.
pub fn assert_stops(
    rt: &impl Abort,
    alloc: Global,
    start: &[u8],
    transaction: Transaction<'_>,
    before: &Listing,
    after: &Listing,
) -> Result<u64, Fail> {
    let mut file = open_bytes(alloc, start, room_of(start), &[])?;
    let ended = run(&mut file, transaction);
    assert_eq!(rt; ended, Ok(()));
    let landings = file.disk().landings();
    if landings == 0 {
        return Ok(0);
    }
    for stop in 0..=landings {
        let mut file = open_bytes(alloc, start, room_of(start), &[])?;
        file.stop_after(stop);
        let ended = run(&mut file, transaction);
        assert_eq!(rt; ended, Err(TxnFault::DiskFault));
        assert_left(rt, alloc, &file, before, after)?;
    }
    Ok(landings)
}
