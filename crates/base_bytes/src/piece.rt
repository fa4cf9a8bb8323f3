// Bytes are gathered before they are written or printed, so that this is done in large pieces.
ghost use Rattle.std.specs.Prelude.{◌≡◌, ◌⊎◌, ◌<◌, ◌≤◌, ◌+◌, ◌∷◌, ◌++◌, [], IfOk, length, take};
ghost use Rattle.base_bytes.specs.Escapes.{escaped};

use crate::{NoMemory, PIECE_SIZE, escape_into};
use std::alloc::Global;
use std::marker::Model;

/// Bytes that are gathered, at most [`PIECE_SIZE`] of them. A contract sees their list. Only `new` takes memory.
#[derive(Drop)]
pub struct Piece {
    bytes: Vec<u8>,
    used: usize,
}

impl Model for Piece {
    ghost use Rattle.std.specs.Prelude.{◌≡◌, ◌≤◌, ℕ, List, length, take};
    ghost use Rattle.base_bytes.specs.declared.limits.TheConstants.{PIECE_SIZE};

    ghost Value = { List ℕ };

    ghost view = { λ p. take p.used p.bytes.items };

    ghost invariant = { λ p. (p.used ≤ PIECE_SIZE) × (length p.bytes.items ≡ PIECE_SIZE) };
}

impl Piece {
    /// A piece without bytes, with all the memory that it will need.
    pub fn new(alloc: Global) -> Result<Piece, NoMemory>
        ensures { IfOk result (λ piece. piece ≡ []) }
    {
        match vec![in alloc; 0u8; PIECE_SIZE] {
            Ok(bytes) => Ok(Piece { bytes, used: 0 }),
            Err(_) => Err(NoMemory),
        }
    }

    /// The bytes that are gathered.
    pub fn as_slice(&self) -> &[u8]
        ensures { result.now ≡ self.now }
    {
        &self.bytes[..self.used]
    }

    /// How many more bytes it can take.
    pub fn room(&self) -> usize
        ensures { result + length self.now ≡ PIECE_SIZE }
    {
        PIECE_SIZE - self.used
    }

    /// Adds one byte.
    pub fn push(&mut self, byte: u8)
        requires { length self.old < PIECE_SIZE }
        ensures { self.new ≡ self.old ++ byte ∷ [] }
    {
        self.bytes[self.used] = byte;
        self.used += 1;
    }

    /// Adds the first bytes, as many as there is room for, and answers how many: at least one.
    pub fn add(&mut self, bytes: &[u8]) -> usize
        requires room { length self.old < PIECE_SIZE }
        requires some { 0 < length bytes.now }
        ensures added { self.new ≡ self.old ++ take result bytes.now }
        ensures bound { (0 < result) × (result ≤ length bytes.now) }
        ensures full { (result ≡ length bytes.now) ⊎ (length self.new ≡ PIECE_SIZE) }
    {
        let count = bytes.len().min(PIECE_SIZE - self.used);
        self.bytes[self.used..self.used + count].copy_from_slice(&bytes[..count]);
        self.used += count;
        count
    }

    /// Adds the first bytes of a field, each escaped, as many as there is room for, and answers how many: at least one.
    pub fn add_escaped(&mut self, field: &[u8]) -> usize
        requires room { length self.old + 2 ≤ PIECE_SIZE }
        requires some { 0 < length field.now }
        ensures added { self.new ≡ self.old ++ escaped (take result field.now) }
        ensures bound { (0 < result) × (result ≤ length field.now) }
        ensures full { (result ≡ length field.now) ⊎ (PIECE_SIZE < length self.new + 2) }
    {
        let escaped = escape_into(field, &mut self.bytes[self.used..]);
        self.used += escaped.written;
        escaped.read
    }

    /// Lets the bytes go.
    pub fn clear(&mut self)
        ensures { self.new ≡ [] }
    {
        self.used = 0;
    }
}
