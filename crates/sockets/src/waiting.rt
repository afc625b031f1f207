//! Whether the calls of a socket wait.

use std::cell::Cell;
use std::io;
use std::net::TcpStream;

/// Whether the calls of a socket wait. They do at first. Who has this can change it, and can neither read from the socket nor
/// write to it.
#[derive(Drop)]
pub(crate) struct Waiting<'a> {
    stream: &'a TcpStream,
    waits: Cell<bool>,
}

impl<'a> Waiting<'a> {
    /// Of this socket, whose calls wait.
    pub(crate) fn new(stream: &'a TcpStream) -> Waiting<'a> {
        Waiting {
            stream,
            waits: Cell::new(true),
        }
    }

    /// Has the socket's calls wait from here on, or not.
    ///
    /// # Errors
    ///
    /// Why the system refused it. All is as before then, and the next call asks for it again.
    pub(crate) fn set(&self, waits: bool) -> io::Result<()> {
        if self.waits.get() != waits {
            self.stream.set_nonblocking(!waits)?;
            self.waits.set(waits);
        }
        Ok(())
    }
}
