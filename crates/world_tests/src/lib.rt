//! Tests of the simulated world, and in `reading` of schedules (`schedules`), through their public items alone. They stand apart from
//! these, so that neither is proved a second time with them.
#![tactic(auto)]

#[cfg(test)]
mod finishing;
#[cfg(test)]
mod pages;
#[cfg(test)]
mod reading;
#[cfg(test)]
mod tests;
