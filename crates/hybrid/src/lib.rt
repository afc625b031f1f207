//! One stripe's store as a hybrid log, for one owner.
//!
//! The log is a list of records, each at an address that grows from the oldest to the newest, in pages
//! of 65,536 bytes (FASTER, SIGMOD 2018). An index points to the newest record of each bucket, and a
//! record links to the next older one of its bucket. The newest pages are resident: the tail page and a
//! few before it are mutable, the others read-only. A read-only page is written to a device, which gives
//! a receipt for it, and may then leave its frame. The oldest page leaves the log once the records that
//! still count have been copied to the tail.
//!
//! Only `install_one`, `install_one_hashed`, `append_one` and `overwrite_at` change what keys have. Only `Stripe::new`, `Staged` and the
//! devices that are passed in take memory.
#![tactic(auto)]

mod address;
pub mod laws;
mod piece;
mod staged;
mod stripe;
mod write;

pub use piece::PIECE_BYTES;
pub use staged::{ReadFault, Staged};
pub use stripe::clean::{Cleaned, Weighed};
pub use stripe::find::{Lookup, Spot};
pub use stripe::room::{Fault, Purpose, Room};
pub use stripe::{
    CALL_PAGES, CLEAN_PAGES, CLEAN_WEIGHT, CLOSED_MIN, LAST_PAGE, RECORD_MAX, Stripe,
};
pub use write::Write;
