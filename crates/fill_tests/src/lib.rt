//! Tests of fills, from each kind of file to each, over disks in memory. There is no code here.
#![tactic(auto)]

#[cfg(test)]
mod tests;
