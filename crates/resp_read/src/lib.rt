//! The reader of requests: it is fed the bytes of a client, cut in any way, and gives the requests
//! that they spell. A request is an array of bulk strings of the Redis serialization protocol,
//! version 2, within the limits of `words::limits`.
//!
//! The [`Reader`] keeps the pieces that it was fed. A request that stands whole in the oldest piece is
//! taken in one go. Of one that does not, the line of its count and each whole word are taken off as they come and kept,
//! so that nothing is read twice but a line that has not come whole. A protocol fault stands where it stands: the reader
//! answers it from then on. Out of memory nothing changes, and the same request can be asked for again.
#![tactic(auto)]

mod lines;
mod look;
mod oldest;
mod pieces;
mod reader;
mod whole;

pub use reader::{ReadFault, Reader};
