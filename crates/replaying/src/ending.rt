//! How the program ends: its exit status, and what it says on standard error.

ghost use Rattle.std.specs.Prelude.{◌≡◌};
ghost use Rattle.std.specs.Process.{exit_status};
ghost use Rattle.schedules.specs.Statuses.{status_of};
ghost use Rattle.replaying.specs.Endings.{status_after};

use clap::Error;
use clap::error::ErrorKind;
use schedules::ReplayFault;
use std::process::ExitCode;

/// The exit status where the command line is refused.
const REFUSED: u8 = 2;

/// Ends a run of a schedule.
pub(crate) fn ended<E: Eprint>(errors: &E, outcome: Result<(), ReplayFault>) -> ExitCode
    ensures { exit_status result ≡ status_after outcome }
{
    match outcome {
        Ok(()) => ExitCode::SUCCESS,
        Err(fault) => stopped(errors, fault),
    }
}

/// Tells on standard error why nothing was printed, or not all.
pub(crate) fn stopped<E: Eprint>(errors: &E, fault: ReplayFault) -> ExitCode
    ensures { exit_status result ≡ status_of fault }
{
    if fault.is_told() {
        // Where standard error takes no text, the status says it.
        let _ = eprintln!(errors; "replay: {fault}");
    }
    ExitCode::from(fault.status())
}

/// Tells on standard error that a word of the command line is no text, in UTF-8, which is a wrong command line.
pub(crate) fn no_text<E: Eprint>(errors: &E) -> ExitCode
    ensures { exit_status result ≡ 2 }
{
    let _ = eprintln!(errors; "replay: an argument is no UTF-8 text");
    ExitCode::from(REFUSED)
}

/// Prints what the parser says of a command line that it does not take, or that asks for help.
pub(crate) fn refused<R: Print + Eprint>(rt: &R, error: &Error) -> ExitCode {
    if error.kind() == ErrorKind::OutOfMemory {
        return stopped(rt, ReplayFault::OutOfMemory);
    }
    match error.print(rt) {
        Ok(()) => ExitCode::from(error.exit_code() as u8),
        Err(_) => ExitCode::FAILURE,
    }
}
