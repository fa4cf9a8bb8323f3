//! Transactions on a twoskip file, in memory and on the disk.
//!
//! - `append.rt`: a record is appended.
//! - `spot.rt`: where a key stands, and where the levels lead past it.
//! - `levels.rt`: pointers are set, level by level.
//! - `change.rt`: a pair is stored, or deleted.
//! - `header.rt`: the header is written, with DIRTY before the first change.
//! - `transaction.rt`: a change within a transaction, the first one or a further one.
//! - `ending.rt`: what has changed is committed.
#![tactic(auto)]

mod append;
mod change;
mod ending;
mod header;
mod levels;
mod spot;
mod transaction;

pub use ending::commit;
pub use spot::Spot;
pub use transaction::{put_pair, take_out};
