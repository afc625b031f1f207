//! The sockets of clients: how they are read, written and closed, and what all who serve share about them.
//!
//! A [`Socket`] is read by a [`SocketReader`] and written to by a [`SocketWriter`]. A reader asks for input for a moment
//! before it sleeps, where few connections are served, and waits where the cleaner of the store is behind: [`Serving`] says
//! so to all of them. A connection is [`Accepted`] before it has a socket, and counted as long as it has one. What has ended is
//! closed by one thread, which runs [`close_all`], so that each client can read its last reply; others hand it over by
//! [`close_later`].
#![tactic(auto)]

mod closing;
mod counts;
mod ends;
mod line;
mod pausing;
mod serving;
mod socket;
mod waiting;

pub use closing::{ClosedLater, LEAVING_MAX, Leaving, close_all, close_later};
pub use ends::{SocketReader, SocketWriter};
pub use serving::{Accepted, Counted, Serving};
pub use socket::Socket;
