//! The index of a mailbox, made anew from its message files and from what can be kept of the old index.
//! Read in this order:
//!   merge       the message names and the usable records, by rising uid
//!   old_index   the file of the old index, and what it is read as; fault: why it may not be
//!   records     the record of one message, fresh or kept
//!   new_index   the records one after another, their totals, and the header over them
//!   taking      each message is scanned, and what is found is put into the new index
//!   report      the lines that are printed
//!   planning    all that comes before the first output
//!   replacing   the new index takes the old one's place
//!   rebuilding  an index is rebuilt
//!   examples    two folders, by the definitions; laws: that the definitions give one report and one index
#![tactic(auto)]

mod examples;
mod fault;
mod laws;
mod merge;
mod new_index;
mod old_index;
mod planning;
mod rebuilding;
mod records;
mod replacing;
mod report;
mod taking;

pub use examples::{damaged_index_is_rebuilt, five_files_are_rebuilt};
pub use fault::RebuildFault;
pub use laws::contents_are_one;
pub use merge::{Merge, Pairing};
pub use rebuilding::rebuild;
pub use report::Tally;
