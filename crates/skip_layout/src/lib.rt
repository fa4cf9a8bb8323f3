//! The fresh layout of a twoskip file, built in memory: what a conversion and a repack write.
//!
//! Read in this order:
//!   item    a pair with its level, and how many bytes the layout of some has
//!   record  one record is spelled where it stands
//!   log     the records, from the last to the first
//!   layout  the whole file
#![tactic(auto)]

mod item;
mod layout;
mod log;
mod record;
#[cfg(test)]
mod tests;

pub use item::{LayoutItem, layout_size};
pub use layout::lay_out;
