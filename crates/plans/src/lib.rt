//! Calls over several held stripes, each of which is a hybrid log with its marks: what a call comes to is planned
//! before its commit, and installed after it.
//!
//! A plan looks up keys, and makes room for what it writes. Where a page is wanted that is neither resident nor
//! staged, nothing is done, and the plan names the receipts of all such pages, so that they are read while nobody
//! waits; or they are read while the stripes are held. Where receipts lend their pages, none is wanted.
#![tactic(auto)]

mod cells;
mod find;
pub mod freeing;
pub mod hands;
pub mod hashed;
mod install;
pub mod laws;
mod looks;
pub mod marks;
pub mod placing;
pub mod plan;
pub mod planned;
pub mod reading;
mod room;
mod running;
pub mod settings;
pub mod settling;
pub mod short;
pub mod stop;
pub mod telling;
