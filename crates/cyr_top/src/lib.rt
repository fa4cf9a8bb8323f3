//! The top call: what the words of a command line do. Read in this order:
//!
//!   running    `run`: words, or a job that was read from them, over a host; here the backend is chosen
//!   files      what a backend does with its files, and each backend's
//!   acting     an action over a file: made, checked, or opened and done
//!   getting    the same by what a backend is best at: one value is looked for in flat text, and no map is made
//!   checking   the line that a check prints
//!   scripting  a script of standard input, a repack or an action is done over a file
//!   repacking  a file is rewritten afresh
//!   converting a database becomes a new file of the other kind
//!   rebuilding the index of a folder is rebuilt
//! What a run owes stands in specs/: Asked (what the words ask), Stated (note and output), Actions (what is left),
//! Crashes (the promises in words of maps and transactions), Converting, Rebuilding and Repacking.
#![tactic(auto)]

mod acting;
mod checking;
mod converting;
mod files;
mod getting;
mod rebuilding;
mod repacking;
mod running;
mod scripting;

pub use converting::convert;
pub use running::{run, run_job};
pub use tool_words::{Job, Paths, WordFault, job, paths};
