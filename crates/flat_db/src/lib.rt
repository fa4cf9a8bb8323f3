//! Databases kept as flat text.
//!
//! Read in this order:
//!   lines, reading      a text is read: its lines, and its pairs in order, a later one winning
//!   pairs, flat_map     a map in memory: where its pairs stand among some bytes
//!   writing, replacing  a map is written in pieces, and its text put in the place of the main file
//!   session, opening    a session over a file, and how it is opened, looked through and made
//!   showing             a text that is shown as it stands, of which no map is made
//!   finding, looking    one key is looked for, or a flaw, and no map is made
//!   filling, repacking  a new file is filled with the pairs of another database, or of this one
//!   laws                what holds of every text
#![tactic(auto)]

mod filling;
mod finding;
mod flat_map;
mod laws;
mod lines;
mod looking;
mod opening;
mod pairs;
mod reading;
mod repacking;
mod replacing;
mod session;
mod showing;
#[cfg(test)]
mod tests;
mod writing;

pub use filling::fill;
pub use flat_map::{FlatFault, FlatMap, read_flat};
pub use laws::{canonical_text_reads_back, flat_kind_keeps_its_laws, flawless_text_opens_once};
pub use looking::{fetch_db, verify_db};
pub use opening::{check_db, open_db};
pub use repacking::repack;
pub use replacing::create;
pub use session::FlatDb;
pub use showing::{Shown, open_shown};
