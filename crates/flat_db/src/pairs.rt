// The pairs of a map, by where their keys and values stand among some bytes.
ghost use Rattle.std.specs.Prelude.{◌≡◌, ◌<◌, ◌≤◌, ◌++◌, ℕ, List, IfOk, IfErr, OnErr, OnOk, length, slice_get};
ghost use Rattle.std.specs.Option.{option_copied};
ghost use Rattle.base_bytes.specs.OrderedMap.{IsOrderedMap, put, value_at, without};
ghost use Rattle.db_core.specs.Refusals.{pair_of as pair_lent};
ghost use Rattle.flat_db.specs.FlatText.{canonical_text};
ghost use Rattle.flat_db.specs.Entries.{EndsBy, pair_of, pairs_of, part_of};
ghost use Rattle.flat_db.specs.Kept.{IsKept, SameEntries, map_among};
ghost use Rattle.flat_db.specs.Places.{HasKeyAt, IsPlaceOf, LacksKeyAt};

use crate::reading::line_size;
use base_bytes::{FLAT_LIMIT, KEY_LIMIT, NoMemory, Pair, VALUE_LIMIT, compare_keys, escaped_size};
use std::alloc::Global;

/// Some bytes: from this offset on, so many.
#[derive(Clone, Copy)]
pub(crate) struct Span {
    pub(crate) start: u32,
    pub(crate) size: u32,
}

/// A pair: where its key and its value stand.
#[derive(Clone, Copy)]
pub(crate) struct Entry {
    pub(crate) key: Span,
    pub(crate) value: Span,
}

// The bytes of a span, as far as they are there.
pub(crate) fn part(bytes: &[u8], span: Span) -> &[u8]
    ensures { result.now ≡ part_of bytes.now span }
{
    let rest = &bytes[(span.start as usize).min(bytes.len())..];
    &rest[..(span.size as usize).min(rest.len())]
}

/// Their entries, by rising key, and the size of the map's canonical text in bytes, which is not counted anew.
#[derive(Drop)]
pub(crate) struct Pairs {
    pub(crate) entries: Vec<Entry>,
    pub(crate) size: u64,
}

// How many entries have a lower key.
fn lower_keys(bytes: &[u8], entries: &[Entry], key: &[u8]) -> usize
    requires { IsOrderedMap (pairs_of bytes.now entries.now) }
    ensures { IsPlaceOf key.now (pairs_of bytes.now entries.now) result }
{
    entries.partition_point(|entry| compare_keys(part(bytes, entry.key), key).is_lt())
}

// The place of the key's own entry, or else the place where it would be put.
fn place_among(bytes: &[u8], entries: &[Entry], key: &[u8]) -> Result<usize, usize>
    requires { IsOrderedMap (pairs_of bytes.now entries.now) }
    ensures own { IfOk result (λ place. HasKeyAt key.now (pairs_of bytes.now entries.now) place) }
    ensures there { IfOk result (λ place. place < length entries.now) }
    ensures between { IfErr result
        (λ place. LacksKeyAt key.now (pairs_of bytes.now entries.now) place) }
    ensures within { IfErr result (λ place. place ≤ length entries.now) }
{
    let place = lower_keys(bytes, entries, key);
    if place < entries.len() && compare_keys(part(bytes, entries[place].key), key).is_eq() {
        Ok(place)
    } else {
        Err(place)
    }
}

// Adds the bytes of a pair behind the others. They grow by an eighth at least, so that many pairs are not
// copied for each.
fn append(bytes: &mut Vec<u8>, key: &[u8], value: &[u8]) -> Result<Entry, NoMemory>
    requires key { length key.now ≤ KEY_LIMIT }
    requires value { length value.now ≤ VALUE_LIMIT }
    requires short { length bytes.old.items ≤ 4294967295 }
    ensures pair { IfOk result (λ entry. pair_of bytes.new.items entry ≡ (key.now, value.now)) }
    ensures ends { IfOk result (EndsBy (length bytes.new.items)) }
    ensures grown { (more : List ℕ) × (bytes.new.items ≡ bytes.old.items ++ more) }
    ensures short { length bytes.new.items ≤ 4294967295 }
{
    let start = bytes.len();
    let end = start + key.len() + value.len();
    if end > u32::MAX as usize
        || bytes.reserve_exact((end - start).max(start / 8)).is_err()
        || bytes.extend_from_slice(key).is_err()
        || bytes.extend_from_slice(value).is_err()
    {
        return Err(NoMemory);
    }
    Ok(Entry {
        key: Span {
            start: start as u32,
            size: key.len() as u32,
        },
        value: Span {
            start: (start + key.len()) as u32,
            size: value.len() as u32,
        },
    })
}

impl Pairs {
    /// A copy, in memory of its own.
    pub(crate) fn copy(&self, alloc: Global) -> Result<Pairs, NoMemory>
        ensures { IfOk result (SameEntries self.now) }
    {
        match self.entries.to_vec(alloc) {
            Ok(entries) => Ok(Pairs {
                entries,
                size: self.size,
            }),
            Err(_) => Err(NoMemory),
        }
    }

    /// The place of the key's own pair, or else the place where it would be put.
    pub(crate) fn place_of(&self, bytes: &[u8], key: &[u8]) -> Result<usize, usize>
        requires { IsKept bytes.now self.now }
        ensures own { IfOk result (λ place. HasKeyAt key.now (map_among bytes.now self.now) place) }
        ensures there { IfOk result (λ place. place < length self.now.entries.items) }
        ensures between { IfErr result
            (λ place. LacksKeyAt key.now (map_among bytes.now self.now) place) }
        ensures within { IfErr result (λ place. place ≤ length self.now.entries.items) }
    {
        place_among(bytes, &self.entries, key)
    }

    /// How many pairs have a lower key: the place of the first one whose key is not below this one.
    pub(crate) fn place_from(&self, bytes: &[u8], key: &[u8]) -> usize
        requires { IsKept bytes.now self.now }
        ensures { IsPlaceOf key.now (map_among bytes.now self.now) result }
    {
        lower_keys(bytes, &self.entries, key)
    }

    /// The value of a key.
    pub(crate) fn value_of<'a>(&self, bytes: &'a [u8], key: &[u8]) -> Option<&'a [u8]>
        requires { IsKept bytes.now self.now }
        ensures { option_copied result ≡ value_at (map_among bytes.now self.now) key.now }
    {
        match self.place_of(bytes, key) {
            Ok(place) => Some(part(bytes, self.entries[place].value)),
            Err(_) => None,
        }
    }

    /// The pair at a place, where there is one.
    pub(crate) fn pair_at<'a>(&self, bytes: &'a [u8], place: usize) -> Option<Pair<'a>>
        ensures { pair_lent result ≡ slice_get (map_among bytes.now self.now) place }
    {
        if place >= self.entries.len() {
            return None;
        }
        let entry = self.entries[place];
        Some(Pair {
            key: part(bytes, entry.key),
            value: part(bytes, entry.value),
        })
    }

    /// The size of the text with a pair put, in bytes.
    pub(crate) fn size_with(&self, bytes: &[u8], key: &[u8], value: &[u8]) -> u64
        requires kept { IsKept bytes.now self.now }
        requires key { length key.now ≤ KEY_LIMIT }
        requires value { length value.now ≤ VALUE_LIMIT }
        ensures { result
            ≡ length (canonical_text (put (map_among bytes.now self.now) key.now value.now)) }
    {
        let line = (escaped_size(key) + escaped_size(value) + 2) as u64;
        match self.place_of(bytes, key) {
            Ok(place) => self.size - line_size(bytes, self.entries[place]) + line,
            Err(_) => self.size + line,
        }
    }

    /// The size of the text without the pair at a place, in bytes.
    pub(crate) fn size_without(&self, bytes: &[u8], place: usize) -> u64
        requires kept { IsKept bytes.now self.now }
        requires there { place < length self.now.entries.items }
        ensures { (key : List ℕ) → HasKeyAt key (map_among bytes.now self.now) place
            → result ≡ length (canonical_text (without (map_among bytes.now self.now) key)) }
    {
        self.size - line_size(bytes, self.entries[place])
    }

    /// Puts a pair; the text then has this size. Its bytes go behind the others, and those of an older value stay.
    pub(crate) fn put(
        &mut self,
        bytes: &mut Vec<u8>,
        key: &[u8],
        value: &[u8],
        size: u64,
    ) -> Result<(), NoMemory>
        requires kept { IsKept bytes.old.items self.old }
        requires some { 0 < length key.now }
        requires key { length key.now ≤ KEY_LIMIT }
        requires value { length value.now ≤ VALUE_LIMIT }
        requires size { size
            ≡ length (canonical_text (put (map_among bytes.old.items self.old) key.now value.now)) }
        requires fits { size ≤ FLAT_LIMIT }
        ensures kept { IsKept bytes.new.items self.new }
        ensures done { OnOk result (map_among bytes.new.items self.new
            ≡ put (map_among bytes.old.items self.old) key.now value.now) }
        ensures size { OnOk result (self.new.size ≡ size) }
        ensures same { OnErr result (SameEntries self.old self.new) }
        ensures grown { (more : List ℕ) × (bytes.new.items ≡ bytes.old.items ++ more) }
        ensures short { length bytes.new.items ≤ 4294967295 }
    {
        let entry = append(bytes, key, value)?;
        match self.place_of(bytes, key) {
            Ok(place) => self.entries[place] = entry,
            Err(place) => {
                let Ok(()) = self.entries.insert(place, entry) else {
                    return Err(NoMemory);
                };
            }
        }
        self.size = size;
        Ok(())
    }
}
