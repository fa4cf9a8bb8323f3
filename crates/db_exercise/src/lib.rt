//! Generated transactions over an open database of any kind, and a report of the map that they leave.
//!
//! Read in this order:
//!   changes      the changes of a round, by their numbers
//!   rounds       one transaction a round
//!   report       the digest of the map, and the lines that are printed
//!   exercising   all rounds, and then the report; what it owes is its task, in `specs/Exercise.antt`
#![tactic(auto)]

mod changes;
mod exercising;
mod report;
mod rounds;

pub use changes::ROUND_LIMIT;
pub use exercising::exercise;
