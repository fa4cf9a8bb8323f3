// A text is read into a map.
ghost use Rattle.std.specs.Prelude.{◌≡◌, ◌<◌, ◌≤◌, ◌+◌, ◌*◌, ◌^◌, [], true, ℕ, List, OnOk, IfOk, IfErr, length, take};
ghost use Rattle.std.specs.List.{All};
ghost use Rattle.base_bytes.specs.Escapes.{escaped};
ghost use Rattle.base_bytes.specs.OrderedMap.{IsOrderedMap};
ghost use Rattle.flat_db.specs.FlatText.{FlatTextOf, SaysPairs, put_all, canonical_text, pair_line};
ghost use Rattle.flat_db.specs.Entries.{EndsBy, part_of, pairs_of};
ghost use Rattle.flat_db.specs.Reading.{IsFlatFault};

use crate::FlatFault;
use crate::lines::{next_line, plain_end};
use crate::pairs::{Entry, part};
use base_bytes::{Damage, compare_keys, escaped_size};
use std::alloc::AllocError;

// How many LFs are in a block of at most 255 bytes. They are counted in a byte, so that the compiler can look at many
// bytes at once.
fn line_feeds_of(block: &[u8]) -> u8 {
    let mut count = 0u8;
    for byte in block {
        count = count.wrapping_add(u8::from(*byte == b'\n'));
    }
    count
}

// How many LFs a text has: the room that its entries take, of which no clause speaks.
pub(crate) fn line_feeds(text: &[u8]) -> usize {
    let mut count = 0usize;
    for block in text.chunks(255) {
        count = count.saturating_add(line_feeds_of(block) as usize);
    }
    count
}

// Reads all lines of a text: an entry for each, in their order. Answers whether each is written as its pair is.
pub(crate) fn read_lines(text: &mut [u8], entries: &mut Vec<Entry>) -> Result<bool, FlatFault>
    requires short { length text.old ≤ 4294967295 }
    requires none { entries.old.items ≡ [] }
    ensures pairs { OnOk result (SaysPairs text.old (pairs_of text.new entries.new.items) []) }
    ensures ends { OnOk result (All (EndsBy (length text.new)) entries.new.items) }
    ensures fault { IfErr result (λ fault. IsFlatFault text.old fault) }
    ensures plain { IfOk result (λ plain. plain ≡ true
        → canonical_text (pairs_of text.new entries.new.items) ≡ text.new) }
{
    let mut at = 0;
    let mut known = 0;
    let mut is_plain = true;
    while at < text.len() {
        known = plain_end(text, at, known);
        let line = match next_line(text, at, known) {
            Ok(line) => line,
            Err(Damage { at, check }) => return Err(FlatFault::Damaged { at, check }),
        };
        if entries.push(line.entry).is_err() {
            return Err(FlatFault::NoMemory);
        }
        is_plain &= line.is_plain;
        at = line.next;
    }
    Ok(is_plain)
}

// Whether the keys rise already, as they do in a text that the tools wrote.
fn keys_rise(bytes: &[u8], entries: &[Entry]) -> bool
    ensures { result ≡ true → IsOrderedMap (pairs_of bytes.now entries.now) }
{
    entries.is_sorted_by(|a, b| compare_keys(part(bytes, a.key), part(bytes, b.key)).is_lt())
}

// Puts entries in the order of their keys. Of some with one key the last is kept: they are turned round and
// sorted, which keeps the order of equal keys, and then the first of each run stays. Answers whether they were in
// order before.
pub(crate) fn in_order(bytes: &[u8], entries: &mut Vec<Entry>) -> Result<bool, AllocError>
    ensures pairs { OnOk result (pairs_of bytes.now entries.new.items
        ≡ put_all (pairs_of bytes.now entries.old.items)) }
    ensures ends { OnOk result ((end : ℕ) → All (EndsBy end) entries.old.items
        → All (EndsBy end) entries.new.items) }
    ensures same { IfOk result (λ rose. rose ≡ true → entries.new.items ≡ entries.old.items) }
{
    if keys_rise(bytes, entries) {
        return Ok(true);
    }
    entries.reverse();
    entries.sort_by(|a, b| compare_keys(part(bytes, a.key), part(bytes, b.key)))?;
    entries.dedup_by(|a, b| compare_keys(part(bytes, a.key), part(bytes, b.key)).is_eq());
    Ok(false)
}

// The size of a pair's line.
pub(crate) fn line_size(bytes: &[u8], entry: Entry) -> u64
    ensures { result
        ≡ length (pair_line (part_of bytes.now entry.key) (part_of bytes.now entry.value)) }
{
    (escaped_size(part(bytes, entry.key)) + escaped_size(part(bytes, entry.value)) + 2) as u64
}

// The size of the canonical text. Where the bytes are this text it is theirs.
pub(crate) fn text_size(bytes: &[u8], entries: &[Entry], is_plain: bool) -> u64
    requires counted { length (canonical_text (pairs_of bytes.now entries.now)) < 2 ^ 64 }
    requires plain { is_plain ≡ true → canonical_text (pairs_of bytes.now entries.now) ≡ bytes.now }
    ensures { result ≡ length (canonical_text (pairs_of bytes.now entries.now)) }
{
    if is_plain {
        return bytes.len() as u64;
    }
    counted_size(bytes, entries)
}

// The same, line by line.
fn counted_size(bytes: &[u8], entries: &[Entry]) -> u64
    requires { length (canonical_text (pairs_of bytes.now entries.now)) < 2 ^ 64 }
    ensures { result ≡ length (canonical_text (pairs_of bytes.now entries.now)) }
{
    let mut size = 0;
    for entry in entries {
        size += line_size(bytes, *entry);
    }
    size
}
