#![tactic(auto)]
//! Pages of 65,536 bytes and the records in them: the bytes of a log-structured store in the style
//! of FASTER's hybrid log, in this project's own format. All numbers are little-endian.
//!
//! A page begins with its number (8 bytes), the end of its used part (4) and its form (4), which
//! is 2. Records follow without gaps up to the end of the used part, and zero bytes after it.
//!
//! A record begins with the address of the next older record of its bucket (8 bytes, 0 for none),
//! the hash of its key (8), the length of its key (2), its kind (1 byte: 1 for a value, 2 for a
//! tombstone), its form (1 byte, which is 2), the length of its value and the value's capacity (4
//! each). The key follows, and then as many bytes as the capacity: the value, then zeros. A record's size
//! is a multiple of 8.
//!
//! Only `Page::new`, `Page::blank` and `Page::try_clone` take memory, for the bytes of a page. A record that is read lends its
//! key and its value from there.

mod entries;
mod fields;
pub mod laws;
mod pages;

pub use entries::{
    KEY_BYTES_MAX, NoRoom, NotARecord, RECORD_HEADER, Record, overwrite, put_record, record_at,
    record_before, record_size, record_there,
};
pub use pages::{HEADER_SIZE, NUMBER_SIZE, PAGE_SIZE, Page, Whole};
