// The map of a text, in memory.
ghost use Rattle.std.specs.Prelude.{◌≡◌, IfOk, IfErr, length};
ghost use Rattle.std.specs.Option.{option_copied};
ghost use Rattle.base_bytes.specs.OrderedMap.{value_at};
ghost use Rattle.flat_db.specs.FlatText.{FlatTextOf};
ghost use Rattle.flat_db.specs.Reading.{IsFlatFault};

use crate::pairs::Pairs;
use crate::reading::{in_order, line_feeds, read_lines, text_size};
use base_bytes::Flaw;
use std::alloc::Global;
use std::marker::Model;

/// Why a text gave no map.
#[derive(Clone, Copy, Debug, PartialEq, Eq)]
pub enum FlatFault {
    /// The first flaw, at this offset of the text in bytes.
    Damaged { at: u64, check: Flaw },
    /// Memory ran out. A text of more than 4,294,967,295 bytes has more than the places of a map can name.
    NoMemory,
}

/// An ordered map, as flat text says it. A contract sees the list of its pairs.
///
/// It keeps the text's bytes with the escapes taken out, and 16 bytes for each pair, which tell where its key
/// and its value stand.
#[derive(Drop)]
pub struct FlatMap {
    pub(crate) bytes: Vec<u8>,
    pub(crate) pairs: Pairs,
}

impl Model for FlatMap {
    ghost use Rattle.base_bytes.specs.OrderedMap.{Map};

    ghost Value = { Map };

    ghost use Rattle.flat_db.specs.Kept.{IsKept, map_among};

    ghost view = { λ m. map_among m.bytes.items m.pairs };

    ghost invariant = { λ m. IsKept m.bytes.items m.pairs };
}

/// The map of a text, or its first flaw.
pub fn read_flat(alloc: Global, bytes: &[u8]) -> Result<FlatMap, FlatFault>
    ensures map { IfOk result (λ map. FlatTextOf bytes.now map) }
    ensures fault { IfErr result (λ fault. IsFlatFault bytes.now fault) }
{
    match bytes.to_vec(alloc) {
        Ok(text) => map_of(alloc, text),
        Err(_) => Err(FlatFault::NoMemory),
    }
}

// The map of a text, in the memory of the text.
pub(crate) fn map_of(alloc: Global, text: Vec<u8>) -> Result<FlatMap, FlatFault>
    ensures map { IfOk result (λ map. FlatTextOf text.items map) }
    ensures fault { IfErr result (λ fault. IsFlatFault text.items fault) }
{
    let mut bytes = text;
    if bytes.len() > u32::MAX as usize {
        return Err(FlatFault::NoMemory);
    }
    let lines = line_feeds(&bytes).saturating_add(1);
    let Ok(mut entries) = Vec::with_capacity(alloc, lines) else {
        return Err(FlatFault::NoMemory);
    };
    let is_plain = read_lines(&mut bytes, &mut entries)?;
    let Ok(rose) = in_order(&bytes, &mut entries) else {
        return Err(FlatFault::NoMemory);
    };
    let size = text_size(&bytes, &entries, is_plain & rose);
    Ok(FlatMap {
        bytes,
        pairs: Pairs { entries, size },
    })
}

impl FlatMap {
    /// How many pairs it has.
    pub fn count(&self) -> u64
        ensures { result ≡ length self.now }
    {
        self.pairs.entries.len() as u64
    }

    /// The value of a key. It takes no memory.
    pub fn fetch(&self, key: &[u8]) -> Option<&[u8]>
        ensures { option_copied result ≡ value_at self.now key.now }
    {
        self.pairs.value_of(&self.bytes, key)
    }
}
