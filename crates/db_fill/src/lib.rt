//! A new file is filled with the pairs of a database: what that owes, whatever the kinds of both.
//!
//! Read in this order:
//!   specs/Filling.antt  what a fill answers, writes and draws
//!   pairs               whether the pairs of a database may stand in another one
#![tactic(auto)]

mod pairs;

pub use pairs::pairs_fault;
