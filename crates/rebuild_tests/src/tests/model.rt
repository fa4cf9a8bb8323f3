// What a rebuild prints and leaves, read a second time from docs/formats.md, over whole maps of std.
use super::bytes::{check_word, number, part, put, put_check, put_number, put_wide};
use sha1::Sha1;
use std::alloc::{AllocError, Global};
use std::collections::{BTreeMap, BTreeSet};
use std::test::Fail;

// A file of the folder, and what its Date field says in seconds since 1970, where that is a date.
#[derive(Clone, Copy)]
pub(crate) struct File<'a> {
    pub name: &'a str,
    pub time: u64,
    pub bytes: &'a [u8],
    pub date: Option<u64>,
}

// What is printed, and the bytes of the new index.
#[derive(Drop)]
pub(crate) struct Rebuilt {
    pub report: String,
    pub index: Vec<u8>,
}

const UNLINKED: u64 = 1 << 30;

const EXPUNGED: u64 = 1 << 31;

const LARGEST: u64 = 4_294_967_295;

type Messages<'a> = BTreeMap<u64, File<'a>>;

type Records<'a> = BTreeMap<u64, &'a [u8]>;

// How many messages are kept and made fresh, how many records are dropped, and the greatest uid.
#[derive(Clone, Copy)]
struct Tally {
    kept: u64,
    fresh: u64,
    dropped: u64,
    last_uid: u64,
}

// The numbers that the new header and fresh records have.
#[derive(Clone, Copy)]
struct Stamp {
    now: u64,
    modseq: u64,
}

// The uid in a message's name.
fn uid_of(name: &str) -> Option<u64> {
    let digits = name.strip_suffix('.')?;
    if digits.is_empty() || digits.len() > 10 || digits.starts_with('0') {
        return None;
    }
    let mut uid = 0u64;
    for byte in digits.as_bytes() {
        if !byte.is_ascii_digit() {
            return None;
        }
        uid = uid
            .wrapping_mul(10)
            .wrapping_add(byte.wrapping_sub(b'0') as u64);
    }
    (uid <= LARGEST).then_some(uid)
}

fn messages_of<'a>(alloc: Global, files: &[File<'a>]) -> Result<Messages<'a>, Fail> {
    let mut messages = BTreeMap::new(alloc);
    for file in files {
        if let Some(uid) = uid_of(file.name)
            && !file.bytes.is_empty()
        {
            messages.insert(uid, *file)?;
        }
    }
    Ok(messages)
}

// The names that are no message's and not the server's.
fn odd_names<'a>(alloc: Global, files: &[File<'a>]) -> Result<BTreeSet<&'a str>, Fail> {
    let mut odd = BTreeSet::new(alloc);
    for file in files {
        let is_message = uid_of(file.name).is_some() && !file.bytes.is_empty();
        if !is_message && !file.name.starts_with("cyrus.") {
            odd.insert(file.name)?;
        }
    }
    Ok(odd)
}

// The first fault of an old index.
fn fault_of(file: &[u8]) -> Option<&'static str> {
    if file.len() < 128 {
        return Some("Short");
    }
    if check_word(part(file, 0, 124)) as u64 != number(file, 124, 4) {
        return Some("Check");
    }
    if number(file, 8, 4) != 12 {
        return Some("MinorVersion");
    }
    if number(file, 16, 4) != 96 {
        return Some("RecordSize");
    }
    if number(file, 12, 4) != 128 {
        return Some("StartOffset");
    }
    let end = number(file, 20, 4).wrapping_mul(96).wrapping_add(128);
    (end > file.len() as u64).then_some("Count")
}

// The old header, or that of a mailbox without a right index.
fn old_header(old: Option<&[u8]>) -> [u8; 128] {
    let mut header = [0; 128];
    put_number(&mut header, 8, 12);
    put_number(&mut header, 12, 128);
    put_number(&mut header, 16, 96);
    put_wide(&mut header, 68, 1);
    if let Some(file) = old {
        put(&mut header, 0, file);
    }
    header
}

// Appends a line for each record that is not usable, and gives the others.
fn usable_of<'a>(alloc: Global, old: &'a [u8], report: &mut String) -> Result<Records<'a>, Fail> {
    let mut usable = BTreeMap::new(alloc);
    let mut last = 0;
    let mut at = 128usize;
    for place in 1..=number(old, 20, 4) {
        let record = part(old, at, 96);
        let uid = number(record, 0, 4);
        let is_right = check_word(part(record, 0, 92)) as u64 == number(record, 92, 4);
        at = at.wrapping_add(96);
        if is_right && uid > last {
            usable.insert(uid, record)?;
            last = uid;
        } else {
            writeln!(report, "record {place} ignored")?;
        }
    }
    Ok(usable)
}

fn matches(file: &File<'_>, record: &[u8]) -> bool {
    let digest = Sha1::digest(file.bytes);
    number(record, 12, 4) == file.bytes.len() as u64 && part(record, 60, 20) == digest.as_slice()
}

fn uids_of(
    alloc: Global,
    messages: &Messages<'_>,
    usable: &Records<'_>,
) -> Result<BTreeSet<u64>, Fail> {
    let mut uids = BTreeSet::new(alloc);
    for uid in messages.keys().chain(usable.keys()) {
        uids.insert(*uid)?;
    }
    Ok(uids)
}

// Appends a line for each uid whose message and record are not alike, and counts them all.
fn tally_of(
    uids: &BTreeSet<u64>,
    messages: &Messages<'_>,
    usable: &Records<'_>,
    report: &mut String,
) -> Result<Tally, Fail> {
    let [mut kept, mut fresh, mut dropped, mut last_uid] = [0u64; 4];
    for uid in uids.iter() {
        let word = match (messages.get(uid), usable.get(uid)) {
            (Some(file), Some(record)) if matches(file, record) => "kept",
            (Some(_), Some(_)) => "unmatched",
            (Some(_), None) => "new",
            (None, _) => "dropped",
        };
        match word {
            "kept" => kept = kept.wrapping_add(1),
            "dropped" => dropped = dropped.wrapping_add(1),
            _ => fresh = fresh.wrapping_add(1),
        }
        if word != "kept" {
            writeln!(report, "uid {uid} {word}")?;
        }
        last_uid = *uid;
    }
    Ok(Tally {
        kept,
        fresh,
        dropped,
        last_uid,
    })
}

// Where the header of a message ends: behind its first empty line, or with it.
fn header_size(bytes: &[u8]) -> usize {
    let mut length = 0usize;
    let mut last = 0;
    for (place, byte) in bytes.iter().enumerate() {
        if *byte != b'\n' {
            length = length.wrapping_add(1);
            last = *byte;
            continue;
        }
        if length == 0 || (length == 1 && last == b'\r') {
            return place.wrapping_add(1);
        }
        length = 0;
    }
    bytes.len()
}

// The record of a message that keeps nothing.
fn fresh_record(file: &File<'_>, stamp: Stamp) -> [u8; 96] {
    let mut record = [0; 96];
    put_number(&mut record, 4, file.time.min(LARGEST));
    put_number(&mut record, 28, stamp.now.min(LARGEST));
    put_wide(&mut record, 80, stamp.modseq);
    record
}

// The record of a message that keeps what this one says.
fn kept_record(old: &[u8]) -> [u8; 96] {
    let mut record = [0; 96];
    put(&mut record, 0, old);
    put_number(&mut record, 32, number(old, 32, 4) & !UNLINKED);
    put_number(&mut record, 24, 0);
    put_number(&mut record, 56, 0);
    put_number(&mut record, 88, 0);
    record
}

// The new record of a message.
fn record_of(uid: u64, file: &File<'_>, old: Option<&[u8]>, stamp: Stamp) -> [u8; 96] {
    let mut record = match old {
        Some(old) if matches(file, old) => kept_record(old),
        _ => fresh_record(file, stamp),
    };
    let header = header_size(file.bytes);
    let lines = file
        .bytes
        .iter()
        .skip(header)
        .filter(|byte| **byte == b'\n')
        .count();
    let date = file.date.unwrap_or(number(&record, 4, 4));
    put_number(&mut record, 0, uid);
    put_number(&mut record, 8, date.saturating_sub(date % 86_400));
    put_number(&mut record, 12, file.bytes.len() as u64);
    put_number(&mut record, 16, header as u64);
    put_number(&mut record, 20, date);
    put_number(&mut record, 52, lines as u64);
    put(&mut record, 60, &Sha1::digest(file.bytes));
    put_check(&mut record, 92);
    record
}

fn records_of(
    alloc: Global,
    messages: &Messages<'_>,
    usable: &Records<'_>,
    stamp: Stamp,
) -> Result<Vec<u8>, AllocError> {
    let mut records = Vec::new(alloc);
    for (uid, file) in messages.iter() {
        let record = record_of(*uid, file, usable.get(uid).copied(), stamp);
        records.extend_from_slice(&record)?;
    }
    Ok(records)
}

// How many records that are not expunged have these flags.
fn count_shown(records: &[u8], flags: u64) -> u64 {
    let mut count = 0u64;
    for record in records.chunks_exact(96) {
        if number(record, 32, 4) & (EXPUNGED | flags) == flags {
            count = count.wrapping_add(1);
        }
    }
    count
}

// The sizes of all records that are not expunged, and the least change of those that are, 0 where none is.
fn sizes_and_change(records: &[u8]) -> [u64; 2] {
    let mut sizes = 0u64;
    let mut first = None;
    for record in records.chunks_exact(96) {
        let updated = number(record, 28, 4);
        if number(record, 32, 4) & EXPUNGED == 0 {
            sizes = sizes.wrapping_add(number(record, 12, 4));
        } else if first.is_none_or(|first| updated < first) {
            first = Some(updated);
        }
    }
    [sizes, first.unwrap_or(0)]
}

fn header_of(old: &[u8; 128], records: &[u8], tally: Tally, stamp: Stamp) -> [u8; 128] {
    let mut header = *old;
    let now = stamp.now.min(LARGEST);
    let [sizes, first_expunged] = sizes_and_change(records);
    let generation = number(old, 0, 4);
    let generation = if generation == LARGEST {
        1
    } else {
        generation.wrapping_add(1)
    };
    put_number(&mut header, 0, generation);
    put_number(&mut header, 20, tally.kept.wrapping_add(tally.fresh));
    put_number(&mut header, 28, number(old, 28, 4).max(tally.last_uid));
    put_wide(&mut header, 32, sizes);
    if number(old, 44, 4) == 0 {
        put_number(&mut header, 44, now.max(1));
    }
    put_number(&mut header, 48, count_shown(records, 4));
    put_number(&mut header, 52, count_shown(records, 1));
    put_number(&mut header, 56, count_shown(records, 2));
    put_number(&mut header, 64, 0);
    put_wide(&mut header, 68, stamp.modseq);
    if tally.dropped > 0 {
        put_wide(&mut header, 76, stamp.modseq);
    }
    put_number(&mut header, 84, count_shown(records, 0));
    put_number(&mut header, 88, first_expunged);
    put_number(&mut header, 92, now);
    put_number(&mut header, 100, 0);
    put_check(&mut header, 124);
    header
}

// Appends the odd names and the last line.
fn end_report(report: &mut String, odd: &BTreeSet<&str>, tally: Tally) -> Result<(), Fail> {
    for name in odd.iter() {
        writeln!(report, "odd {name}")?;
    }
    let [kept, fresh, dropped] = [tally.kept, tally.fresh, tally.dropped];
    writeln!(report, "kept {kept} fresh {fresh} dropped {dropped}")?;
    Ok(())
}

// What stands of the old index, and the report's line of one that is absent or damaged.
fn right_index<'a>(old: Option<&'a [u8]>, report: &mut String) -> Result<Option<&'a [u8]>, Fail> {
    let Some(file) = old else {
        report.push_str("index absent\n")?;
        return Ok(None);
    };
    if let Some(fault) = fault_of(file) {
        writeln!(report, "index damaged: {fault}")?;
        return Ok(None);
    }
    Ok(Some(file))
}

// What a rebuild makes of a folder and an old index, none where the last modification number is passed.
pub(crate) fn second_reading(
    alloc: Global,
    files: &[File<'_>],
    old: Option<&[u8]>,
    now: u64,
) -> Result<Option<Rebuilt>, Fail> {
    let mut report = String::new(alloc);
    let right = right_index(old, &mut report)?;
    let messages = messages_of(alloc, files)?;
    let usable = usable_of(alloc, right.unwrap_or(b""), &mut report)?;
    let uids = uids_of(alloc, &messages, &usable)?;
    let tally = tally_of(&uids, &messages, &usable, &mut report)?;
    end_report(&mut report, &odd_names(alloc, files)?, tally)?;
    let header = old_header(right);
    let is_due = right.is_none() || tally.fresh > 0 || tally.dropped > 0;
    let Some(modseq) = number(&header, 68, 8).checked_add(is_due as u64) else {
        return Ok(None);
    };
    let stamp = Stamp { now, modseq };
    let records = records_of(alloc, &messages, &usable, stamp)?;
    let header = header_of(&header, &records, tally, stamp);
    let mut index = header.to_vec(alloc)?;
    index.extend_from_slice(&records)?;
    Ok(Some(Rebuilt { report, index }))
}
