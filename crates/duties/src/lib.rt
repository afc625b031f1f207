//! The threads that work in the background of a server: the stripes of an engine, by a pass, and what such a thread hears and
//! says beside.
//!
//! What each does at which stripe, when, and how long it rests is decided in `upkeep`. A thread has [`Chores`] of one
//! [`Duty`] and a pass of the engine, and runs [`work_in_background`], which ends once serving is over.
#![tactic(auto)]

mod site;
mod thread;

pub use site::Site;
pub use thread::work_in_background;
pub use upkeep::{Background, Chores, Duty};
