//! Streams that note what they have told: [`Noted`] reads from a stream or writes to it, tries again
//! what was interrupted, and keeps whether the stream told its end or failed.
//!
//! std's `Read` and `Write` cannot name a failure in a clause. So each call of a stream is made in one line that counts
//! its failures (`asked.rt`; that line is trusted), and a contract above can say that a failure is told only where that
//! count grew. [`ReadReady`] is a reader that can also give what is there already, without waiting.
#![tactic(auto)]

mod asked;
mod failures;
mod noted;
mod observed;
mod ready;

pub use noted::Noted;
pub use observed::{Input, Told, WriteFault};
pub use ready::ReadReady;
