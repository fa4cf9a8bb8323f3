//! The words of a command line, read by clap, and the job that they stand for. Read in this order:
//!
//!   jobs        the job of each tool, its files, and why words give none
//!   mailbox     what the tools of mailboxes can be asked for
//!   words       the first word names the tool: `job`
//!   database    the words of `cyr_dbtool` and `cvt_cyrusdb`, with backends and actions
//!   folder      the words of `reconstruct`, `unexpunge`, `ipurge` and `chk_cyrus`
//!   numbers     counts and uids as words
//!   commands    each tool's flags and positionals, as a command of clap
//!   reading     clap's answer to a command line, flag by flag and word by word
//!   files       the files of a job
#![tactic(auto)]

mod commands;
mod database;
mod files;
mod folder;
mod jobs;
mod mailbox;
mod numbers;
mod reading;
#[cfg(test)]
mod tests;
mod words;

pub use files::paths;
pub use jobs::{Job, Paths, WordFault};
pub use mailbox::{Measure, Test, UidList, What};
pub use numbers::ROUNDS_LIMIT;
pub use words::job;
