//! Tests of scripts that cross crates: whole scripts over flat text in a disk in memory.
#![tactic(auto)]

#[cfg(test)]
mod tests;
