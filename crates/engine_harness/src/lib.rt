//! What the tests of the engine share (`engine_tests`, `engine_threads_tests`, `cold_tests`): engines and their passes, requests
//! with what they are answered, calls, tries, keys that fill pages, and lists of steps. It has what two of these crates
//! use at least, so that each of them is proved beside the others, and the ends of what an engine gives.
#![tactic(auto)]

pub mod calls;
pub mod ends;
pub mod engines;
pub mod exchanges;
pub mod filling;
pub mod reading;
pub mod steps;
pub mod trying;
