//! The logs of the simulated world: its device, the stripes of its store, and the steps of flusher, evictor
//! and cleaner, each as what an event does to the world as plain data.
//!
//! A place of the device is numbered by the write that took it. A receipt is served while its place was not
//! released; from then on a read of the place gives whatever page the event of the release named.
#![tactic(auto)]

mod cleaning;
mod freeing;
mod lanes;
pub mod laws;
mod logs;
mod queues;
mod shelves;
mod stopped;
mod stripes;
mod works;

pub use logs::WorldLog;
pub use shelves::{WorldDevice, WorldReceipt};
pub use stopped::Stopped;
pub use stripes::Stripes;

#[cfg(test)]
mod tests;
