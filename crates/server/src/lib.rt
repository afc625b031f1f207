//! The server behind `garnetd`: it accepts connections on a loopback port, and its workers serve each
//! until it ends.
//!
//! The thread that accepts hands a socket to a worker over a channel without room, so a socket is taken only by a worker
//! that is free; one that is not taken within 100 ms is turned away. A worker keeps its pass of the engine, and serves one
//! connection after the other. What has ended goes to one more thread, the closer, which reads and drops what the client
//! still sends, so that it can read its last reply (`sockets`). In the background works one thread over memory, the cleaner, and
//! three over a file, a flusher and an evictor beside it (`duties`). All run in one scope, which ends when the last connection
//! has.
#![tactic(auto)]

mod accepting;
mod crew;
mod ending_list;
mod fault;
mod workers;
mod working;

pub use accepting::listen;
pub use ending_list::Endings;
pub use fault::ServerFault;
pub use workers::{opening_count, run_workers};
