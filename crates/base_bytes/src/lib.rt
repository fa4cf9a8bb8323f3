//! What the formats share: bytes, keys and maps, changes of a map, flaws, and how bytes are read and spelled.
//!
//! Read in this order:
//!   bytes, pair     some bytes, some text, a key with its value, and the order of keys
//!   change          a pair put or a key taken out; transactions and maps stand in `specs/`
//!   fields          parts of a file, and the big-endian numbers in them
//!   escapes, piece  how a field holds the bytes that would end it; bytes gathered for one write
//!   flaw, limits    what can be wrong with a file, and how large things may be
//!   steps           a counter of search steps that costs nothing when it runs
#![tactic(auto)]

mod bytes;
mod change;
mod escapes;
mod fields;
mod flaw;
mod limits;
mod pair;
mod piece;
mod steps;
#[cfg(test)]
mod tests;

pub use bytes::{Bytes, NoMemory, Text};
pub use change::Change;
pub use escapes::{Escaped, bad_escape, escape_into, escaped_size, fields_read_back, unescape};
pub use fields::{part_at, u32_at, u64_at};
pub use flaw::{Damage, Flaw};
pub use limits::{
    FILES_LIMIT, FLAT_LIMIT, KEY_LIMIT, PIECE_SIZE, SCRIPT_LIMIT, SKIP_LIMIT, VALUE_LIMIT,
};
pub use pair::{Pair, compare_keys};
pub use piece::Piece;
pub use steps::Steps;
