//! Databases kept as twoskip files, which are changed in place.
//!
//! Read in this order:
//!   replacing  a new file takes the place of the main one, an empty one to begin with
//!   opening    a file is read, verified, and repaired where a stop left it dirty
//!   session    a session over the file
//!   filling    a new file is filled with the pairs of another database
//!   repacking  a file is rewritten afresh, with its live records alone
#![tactic(auto)]

mod filling;
mod opening;
mod reads;
mod repacking;
mod replacing;
mod session;

pub use filling::{fill, fills_convert};
pub use opening::{check_db, open_db};
pub use repacking::repack;
pub use replacing::create;
pub use session::Twoskip;
