//! Makes twoskip files, looks keys up in them, stores pairs over a disk in memory, and computes check words: what
//! `tests/skip_cost` measures. The words are
//!
//!     make FILE COUNT             a new file of so many pairs, stored in no order in one transaction
//!     ordered FILE COUNT          the same by rising keys
//!     stores COUNT                in no order, over a disk in memory
//!     lookups FILE COUNT TIMES    the file is opened, and keys of its pairs are looked up at random
//!     words FILE                  the check word of all bytes of the file
#![tactic(auto)]

mod measured;
mod pairs;

use base_bytes::Text;
use base_devices::{Disk, Host};
use file_devices::FileHost;
use measured::{look_up, store_all, stored_in_memory, word_of};
use pairs::{KeyOrder, changes_of};
use std::alloc::Global;
use std::env;
use std::io::{self, ErrorKind};

// The command line without the program's own name.
fn words_of(rt: &HostRuntime) -> io::Result<Vec<String>> {
    let mut words = Vec::new(rt.alloc());
    for word in env::args(rt)?.skip(1) {
        words.push(word)?;
    }
    Ok(words)
}

fn number_at(words: &[String], place: usize) -> io::Result<u32> {
    let word = words.get(place).ok_or(ErrorKind::InvalidInput)?;
    word.parse().ok().ok_or(ErrorKind::InvalidInput.into())
}

// The path of the file. Nothing is opened at it by a run in memory, where the word is a number.
fn path_of(alloc: Global, words: &[String]) -> io::Result<Text> {
    let word = words.get(1).ok_or(ErrorKind::InvalidInput)?;
    let path = Text::of(alloc, word.as_str()).ok();
    path.ok_or(ErrorKind::OutOfMemory.into())
}

// How many pairs were stored.
fn make<D: Disk>(
    alloc: Global,
    disk: &mut D,
    words: &[String],
    order: KeyOrder,
) -> io::Result<u64> {
    let changes = changes_of(alloc, number_at(words, 2)?, order)?;
    store_all(alloc, disk, &changes).ok_or(ErrorKind::Other)?;
    Ok(changes.len() as u64)
}

// How many bytes were written.
fn stores(alloc: Global, words: &[String]) -> io::Result<u64> {
    let changes = changes_of(alloc, number_at(words, 1)?, KeyOrder::None)?;
    let written = stored_in_memory(alloc, &changes).ok_or(ErrorKind::Other)?;
    Ok(written)
}

// How many keys were found.
fn lookups<D: Disk>(alloc: Global, disk: &mut D, words: &[String]) -> io::Result<u64> {
    let count = number_at(words, 2)?;
    let times = number_at(words, 3)?;
    let found = look_up(alloc, disk, count, times).ok_or(ErrorKind::Other)?;
    Ok(u64::from(found))
}

// The check word.
fn words_alone<D: Disk>(alloc: Global, disk: &mut D) -> io::Result<u64> {
    let word = word_of(alloc, disk).ok_or(ErrorKind::Other)?;
    Ok(u64::from(word))
}

fn measure<D: Disk>(alloc: Global, disk: &mut D, words: &[String]) -> io::Result<u64> {
    let action = words.first().ok_or(ErrorKind::InvalidInput)?;
    match action.as_str() {
        "make" => make(alloc, disk, words, KeyOrder::None),
        "ordered" => make(alloc, disk, words, KeyOrder::Rising),
        "stores" => stores(alloc, words),
        "lookups" => lookups(alloc, disk, words),
        "words" => words_alone(alloc, disk),
        _ => Err(ErrorKind::InvalidInput.into()),
    }
}

// Measures, and prints the number.
fn tell_number<H: Host>(alloc: Global, host: &mut H, words: &[String]) -> io::Result<()> {
    let number = measure(alloc, host, words)?;
    let line = format!(in alloc; "{number}\n")?;
    match host.tell(line.as_bytes()) {
        Ok(()) => Ok(()),
        Err(_) => Err(ErrorKind::Other.into()),
    }
}

fn main(rt: HostRuntime) -> io::Result<()> {
    let alloc = rt.alloc();
    let words = words_of(&rt)?;
    let path = path_of(alloc, &words)?;
    tell_number(alloc, &mut FileHost::new(rt, path), &words)
}
