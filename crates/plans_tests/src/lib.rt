//! Tests of calls over stripes that are logs, and of such stripes, through the public items of `plans` and `shards` alone. They
//! stand apart from these, so that none of them is proved a second time with its tests.
#![tactic(auto)]

pub mod calls;
pub mod held;
#[cfg(test)]
mod tests;
