//! Tests of transactions on a twoskip file that lies on a disk in memory.
#![tactic(auto)]

#[cfg(test)]
mod tests;
