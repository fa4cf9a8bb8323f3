//! An ordered database over a disk, as a trait, and whole transactions over it.
//!
//! Read in this order:
//!   fault, opening   why a call is refused, and why a database is not opened
//!   db, walk         a session over a disk: what each call answers, changes and leaves; walks over its pairs
//!   transaction      a list of changes, all of it or none
#![tactic(auto)]

mod db;
mod fault;
mod opening;
mod transaction;
mod walk;

pub use base_bytes::Change;
pub use db::Db;
pub use fault::{DbFault, pair_fault};
pub use opening::{OpenFault, file_size};
pub use transaction::run_changes;
pub use walk::{Cursor, Step};
