//! The session of one client: what its requests do, by the mode that it is in. A session is idle, or a
//! transaction is open whose commands are queued, or one that an earlier request spoiled; and it watches
//! keys. A [`Session`] has its mode in its type, so that a command is queued only where a transaction is
//! open; and what it watches is a [`Watching`], which cannot be dropped, so that it is forgotten only by
//! a call that says so.
//!
//! [`Watching`]: transact::call::Watching
#![tactic(auto)]

mod called;
mod counting;
mod idle;
mod laws;
pub mod modes;
mod queueing;
mod spoiled;

pub use laws::watches_follow_entries;
