//! What is done in the background, while passes serve clients: steps at one stripe each, which nobody can tell from what
//! keys have.
//!
//! A step takes its stripe, looks whether there is something to do, does it and gives the stripe back. It makes no entry
//! in the history and leaves what keys have and all marks, so a pass that takes the stripe later finds what it would have
//! found without the step. What a step came to is told to its pass, as a note.
//!
//! The flusher writes read-only pages to the device, and the evictor drops those that have a receipt from their frames
//! (the hybrid log of FASTER, SIGMOD 2018). The cleaner copies what lives in the oldest page to the tail and takes the page
//! out of the log; its place on the device is then retired, drained and released (the epochs of the same paper). A step that
//! may wait for others has a form that does not: it tries to take its stripe once.
#![tactic(auto)]

pub mod at;
mod cells;
pub mod clean;
pub mod evict;
pub mod flush;
pub mod look;
mod written;
