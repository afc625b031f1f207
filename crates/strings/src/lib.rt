//! String commands, run on an overlay: what was found of their keys, and the writes made since.
//!
//! A command sees no store. Whoever runs it finds the values of its keys first, and hands them over as an
//! [`Overlay`](overlay::Overlay). [`run`](run::run) gives the reply and notes each write on the overlay, where the next
//! command of a transaction sees it. Nothing is installed: the writes are there to be weighed, and then done or dropped.
#![tactic(auto)]

mod counters;
pub mod found;
mod growing;
pub mod keys;
pub mod overlay;
mod reading;
pub mod run;
pub mod writes;
mod writing;
