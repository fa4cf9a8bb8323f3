//! Tests of repair: files that a stop left, over a disk in memory, and repairs that are stopped themselves.
#![tactic(auto)]

#[cfg(test)]
mod tests;
