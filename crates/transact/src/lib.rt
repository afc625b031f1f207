//! What a session asks of the shared store, what it is answered, and the stripes that a call needs. The definitions
//! say of any parts that are held what they have together, and what becomes of them.
//!
//! A `Call` is one command, a WATCH, a transaction with all that is watched, or the end of watches. A
//! [`Watching`](call::Watching) is what a session watches: it goes into a transaction's call and cannot be dropped, so no
//! mark is left behind in a stripe. How a call is done is said above: by `plans` at held stripes, by `engine` over the
//! gates, and by `world` event by event.
#![tactic(auto)]

pub mod call;
pub mod stripes;
pub mod weight;
