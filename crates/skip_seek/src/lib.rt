//! Search in a twoskip file that climbs down the levels, and reads by it.
//!
//! - `climb.rt`: on the upper levels, from level 30 down, the last record before the place of a key.
//! - `lowest.rt`: from there along level zero to the place.
//! - `search.rt`: what a search finds.
//! - `reads.rt`: the value at a key, and the pairs from a key and past it.
//! - `cursor.rt`: the pairs in order, from one to the next.
//! - `prefixed.rt`: the pairs whose key has a prefix.
#![tactic(auto)]

mod climb;
mod cursor;
mod lowest;
mod prefixed;
mod reads;
mod search;

pub use cursor::{Passed, step, walk_from};
pub use prefixed::Walk;
pub use reads::{after, at_least, fetch};
pub use search::{Found, seek};

#[cfg(test)]
mod tests;
