//! Why a schedule is not run, or its report not written.

ghost use Rattle.std.specs.Prelude.{◌≡◌};
ghost use Rattle.schedules.specs.Statuses.{status_of, is_told};

use thiserror::Error;

/// The exit status of a program that could not read, run or report a schedule.
const STOPPED: u8 = 1;
/// The exit status of a program that was given a schedule with a bad line.
const REFUSED: u8 = 2;

/// Why a schedule is not run, or its report not written: what was met first.
#[derive(Clone, Copy, Debug, PartialEq, Eq, Error)]
pub enum ReplayFault {
    /// The reader failed before its end.
    #[error("cannot read")]
    CannotRead,
    /// This line is the first that is bad. Lines are numbered from 1.
    #[error("line {0}: bad event")]
    BadLine(usize),
    /// The allocator refused a growth.
    #[error("out of memory")]
    OutOfMemory,
    /// The writer failed, or took no byte.
    #[error("cannot write")]
    CannotWrite,
}

impl ReplayFault {
    /// The exit status of a program that met this fault.
    pub fn status(self) -> u8
        ensures { result ≡ status_of self }
    {
        match self {
            ReplayFault::BadLine(_) => REFUSED,
            ReplayFault::CannotRead | ReplayFault::OutOfMemory | ReplayFault::CannotWrite => {
                STOPPED
            }
        }
    }

    /// Whether a program tells of this fault: not where its report could not be written.
    pub fn is_told(self) -> bool
        ensures { result ≡ is_told self }
    {
        !matches!(self, ReplayFault::CannotWrite)
    }
}
