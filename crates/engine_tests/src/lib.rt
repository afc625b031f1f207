//! Tests of the engine through its public items alone. They stand apart from it, so that it is not proved a second time with
//! its tests.
#![tactic(auto)]

#[cfg(test)]
mod tests;
