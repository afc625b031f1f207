//! Tests of the engine by several passes, through its public items alone: by two passes in turn, by two threads and more, and beside
//! the steps of the background.
#![tactic(auto)]

#[cfg(test)]
mod beside;
#[cfg(test)]
mod counting;
#[cfg(test)]
mod held;
#[cfg(test)]
mod holds;
#[cfg(test)]
mod jobs;
#[cfg(test)]
mod moving;
#[cfg(test)]
mod nulls;
#[cfg(test)]
mod passes;
#[cfg(test)]
mod trying;
#[cfg(test)]
mod watched;
