//! Tests of exercises that cross crates: generated transactions over flat text in a disk in memory.
#![tactic(auto)]

#[cfg(test)]
mod tests;
