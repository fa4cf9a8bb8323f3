//! Transactions on a twoskip file: a session over its image, tied to the disk on which the file lies.
//!
//! - `session.rt`: the session, and its reads.
//! - `room.rt`: whether a change fits the file and memory.
//! - `place.rt`: where a key stands, from a search.
//! - `calls.rt`: a transaction is begun, changed, committed and given up.
#![tactic(auto)]

mod place;
mod reads;
mod room;
mod session;
mod transaction;

pub use db_core::DbFault as TxnFault;
pub use session::Session;
