//! What the threads of the background do at which stripe, when, and how long they rest: decisions, without a thread.
//!
//! A thread has [`Chores`] of one [`Duty`] ([`Background`] has those of all three), and runs [`keep_up`] over the [`Stripes`] of
//! a store, until its [`Surroundings`] say that serving is over. When the cleaner works at a stripe is told by its [`Laps`]. What
//! a stripe tells, and what a thread hears and says beside, is behind the two traits: so a test can be both, with a clock that
//! it moves.
#![tactic(auto)]

mod calls;
mod chores;
mod laps;
mod rounds;
mod steps;
mod stripes;
mod surroundings;

pub use calls::{Call, Calls};
pub use chores::{Background, Chores};
pub use laps::{Choice, Laps, Seen};
pub use rounds::{keep_up, rest_after, round};
pub use steps::{Step, step_at, visit};
pub use stripes::{Duty, Event, Outcome, Stripes};
pub use surroundings::Surroundings;
