//! Tests of the databases that cross crates: sessions of each backend over a disk in memory.
#![tactic(auto)]

#[cfg(test)]
mod tests;
