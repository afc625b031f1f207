//! One connection: the requests of a client are read, answered by the engine, and their replies are
//! written.
//!
//! [`serve`] is a loop of two steps. It reads a piece of at most 16,384 bytes, which is cut from a block, and feeds it
//! to the [`Client`]. Then it answers the client's whole requests one after the other, until none is left; where the
//! read was filled, it reads what is there already and goes on, at most 15 times; and it writes what the output
//! buffer holds. So a read that waits comes only once every reply is written, and no reply waits for more than 15
//! reads.
//!
//! A [`Client`] is a reader of requests and a session, without input or output: whoever drives it feeds it bytes, takes
//! its calls to the store and brings back the answers. The world drives it too. A reply goes into the output buffer where
//! there is room, else straight to the writer: nothing from a call's commit to its reply asks for memory.
//!
//! A connection ends in one of the six ways of [`Ended`], each where its cause came. Out of memory it ends where
//! there was none for the output buffer, for the piece that was read last, or for the request at the front; all whole
//! requests before that are answered. Once a write has failed, none of the requests that follow is put to the store. However
//! a connection ends, what the session watches is forgotten.
#![tactic(auto)]

mod answering;
mod asking;
pub mod client;
pub mod conversation;
mod output;
mod reading;
pub mod serving;
mod state;
#[cfg(test)]
mod tests;

pub use client::{Client, Next};
pub use serving::{Ended, serve};
