//! Reading what is there already.

ghost use Rattle.std.specs.Prelude.{◌<◌, length};
ghost use Rattle.streams.specs.Streams.{IsReadReady};

use std::io::Read;

/// A stream that can be asked for what is there already, without waiting for more.
pub trait ReadReady: Read {
    /// Reads some of the bytes that are there already into the buffer, which has room, and says how many:
    /// at least one. `None` where none are there, or where it cannot tell without waiting. It never tells the
    /// stream's end or a failure: the next read does.
    fn read_ready(&mut self, buffer: &mut [u8]) -> Option<usize>
        requires { 0 < length buffer.old }
        ensures { IsReadReady (Self.remaining self.old) (Self.remaining self.new) buffer.new result };
}
