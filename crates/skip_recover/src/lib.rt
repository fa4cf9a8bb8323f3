//! Repair of a twoskip file that a stop left with DIRTY, for all levels. Nothing here takes memory.
//!
//! - `recovery.rt`: the whole: heads and links are repaired, then the file is cut and its header commits.
//! - `walk.rt`: along the live records, each of which is passed in turn.
//! - `links.rt`: the last records passed are led to the next one, level by level.
//! - `mending.rt`: a head is made tidy.
//! - `ending.rt`: the cut, and the header that commits.
//! - `heads.rt`: what stands in a head, and the next live record.
#![tactic(auto)]

mod ending;
mod heads;
mod links;
mod mending;
mod recovery;
mod walk;

pub use recovery::recover;
