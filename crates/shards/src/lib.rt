//! A stripe: the log of its keys with its places on the device, and the marks of the keys that are watched; and what is done
//! at it in the background.
//!
//! Each place that was taken and not released is that of a receipt which the log keeps, of a page that is being written, or of
//! one that is not in the log (`CountedLog`). The flusher's step writes a page that waits, the evictor's drops a page that has a
//! receipt, the cleaner's takes the oldest page out of the log and brings places nearer to their release. Where no place may
//! be taken, each that can be released is released first.
#![tactic(auto)]

pub mod cleaning;
pub mod counted;
pub mod flushing;
pub mod freeing;
pub mod looks;
pub mod retires;
pub mod shard;
