//! The simulated world: clients, stripes on logs, a device and a history, driven by events in any order.
#![tactic(auto)]

mod desk;
mod laws;
mod member;
mod peer;
mod planning;
mod watched;
mod world;

pub use world::World;
pub use world_log::Stopped;
