//! Epoch protection: space comes back only when no reader can still look at it.
//!
//! A reader enters an epoch before it looks at what is shared, and leaves afterwards: between the two it
//! has a stay. Who takes something out of use retires it, which stamps it with an epoch that is over from
//! then on. Once that epoch is drained, no stay is left that may have begun before the retirement, and
//! what was retired may be used anew. The protocol is that of FASTER (SIGMOD 2018, "Epoch Protection").
//!
//! The words are real atomic words. There is the epoch word, which only grows, and for each seat a word of
//! its own, which is 0 outside a stay, else the epoch of the stay. `docs/EPOCHS.md` has the rule in plain
//! words.
#![tactic(auto)]

pub mod epochs;
mod handle;
mod rule;
pub mod view;
mod words;

pub use epochs::{Drained, EpochSeat, Epochs, EpochsName, Inside, Retired, Wraps};
