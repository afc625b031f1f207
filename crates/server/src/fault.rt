//! Why a server stops before its time.

ghost use Rattle.std.specs.Prelude.{◌≡◌};

use device::OpenFault;
use std::alloc::AllocError;
use std::thread::SpawnError;
use thiserror::Error;

/// Why a server stops before its time. Its text is what `garnetd` prints on standard error.
#[derive(Clone, Copy, Debug, PartialEq, Eq, Error)]
pub enum ServerFault {
    /// The address can't be listened on, as where another process listens on it.
    #[error("garnetd: cannot listen")]
    CannotListen,
    /// The file of the device can't be made anew, or has no further handle, as where its folder does not exist. One that is there is
    /// removed before.
    #[error("garnetd: cannot open device")]
    CannotOpenDevice,
    /// The system gives no further connection, as where the process has too many files open.
    #[error("garnetd: cannot accept")]
    CannotAccept,
    /// The allocator refused a growth that the server needs before it serves, or the system a thread.
    #[error("garnetd: out of memory")]
    OutOfMemory,
}

impl From<AllocError> for ServerFault {
    ghost use Rattle.server.specs.declared.fault.ServerFault.{ServerFault};

    ghost from_gives = { λ error fault. fault ≡ ServerFault.OutOfMemory };

    fn from(_error: AllocError) -> ServerFault {
        ServerFault::OutOfMemory
    }
}

impl From<OpenFault> for ServerFault {
    ghost use Rattle.server.specs.Faults.{fault_of};

    ghost from_gives = { λ error fault. fault ≡ fault_of error };

    fn from(error: OpenFault) -> ServerFault {
        match error {
            OpenFault::CannotOpen => ServerFault::CannotOpenDevice,
            OpenFault::OutOfMemory => ServerFault::OutOfMemory,
        }
    }
}

/// A thread that can't be made counts as out of memory.
impl<F: Drop> From<SpawnError<F>> for ServerFault {
    ghost use Rattle.server.specs.declared.fault.ServerFault.{ServerFault};

    ghost from_gives = { λ error fault. fault ≡ ServerFault.OutOfMemory };

    fn from(_refused: SpawnError<F>) -> ServerFault {
        ServerFault::OutOfMemory
    }
}
