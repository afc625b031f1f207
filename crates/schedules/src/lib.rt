//! Schedules: texts that say what happens in the simulated world, one event a line. They are read and run
//! here, and what each client was told is printed.
#![tactic(auto)]

mod cutting;
mod fault;
mod hexadecimal;
pub mod laws;
mod lines;
mod numbers;
mod pages;
mod report;
mod run;
mod schedule;
mod spelling;
mod traces;
mod until;
mod verbs;

pub use fault::ReplayFault;
pub use lines::PIECE_BYTES_MAX;
pub use run::{Shown, replay, run_schedule, trace};
pub use schedule::{ParseFault, Schedule, parse};
pub use until::Until;
