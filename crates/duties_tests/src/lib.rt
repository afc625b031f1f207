//! Tests of what the threads of the background do, without a thread: rounds and looks come when the test makes them, and time
//! is what it says. They stand apart from `upkeep` and `duties`, so that these are not proved a second time with them.
#![tactic(auto)]

#[cfg(test)]
mod laps;
#[cfg(test)]
mod rounds;
