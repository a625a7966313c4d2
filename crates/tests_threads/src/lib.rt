//! Tests of a house of threads: its shared state, the permits on its lanes, its shared consumers, and plans that are run by threads which gates hold up. What is proved
//! of them stands in their own crates.
#![tactic(auto)]

#[cfg(test)]
mod tests;
