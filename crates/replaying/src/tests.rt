//! How the program ends, and what it says on standard error.

use crate::command_line::Asked;
use crate::ending::{ended, no_text};
use crate::program::replayed;
use schedules::{ReplayFault, Shown, Until};
use std::alloc::Global;
use std::cell::RefCell;
use std::fmt::Display;
use std::io;
use std::io::ErrorKind;
use std::process::ExitCode;

/// A standard error that keeps its text.
#[derive(Drop)]
struct Kept {
    alloc: Global,
    text: RefCell<String>,
}

impl Kept {
    fn keep(&self, text: &str) -> io::Result<()> {
        let Ok(mut kept) = self.text.try_borrow_mut() else {
            return Err(ErrorKind::WouldBlock.into());
        };
        Ok(kept.push_str(text)?)
    }
}

impl Eprint for Kept {
    fn eprint<D: Display + Drop>(&self, value: D) -> io::Result<()> {
        let shown = format!(in self.alloc; "{value}")?;
        self.keep(shown.as_str())
    }

    fn eprintln<D: Display + Drop>(&self, value: D) -> io::Result<()> {
        let shown = format!(in self.alloc; "{value}\n")?;
        self.keep(shown.as_str())
    }
}

/// A standard error that was told nothing.
fn nothing(alloc: Global) -> Kept {
    Kept {
        alloc,
        text: RefCell::new(String::new(alloc)),
    }
}

/// Whether a run that came to this ends with this status, and this is said on standard error.
fn ends(alloc: Global, outcome: Result<(), ReplayFault>, status: u8, text: &str) -> bool {
    let errors = nothing(alloc);
    let code = ended(&errors, outcome);
    is_said(errors, text) && code == ExitCode::from(status)
}

/// Whether this, and nothing more, was said on standard error.
fn is_said(errors: Kept, text: &str) -> bool {
    let Kept {
        alloc: _,
        text: kept,
    } = errors;
    let said = kept.into_inner();
    said.as_str() == text
}

#[test]
fn each_fault_has_its_status_and_text(rt: HostRuntime) {
    let alloc = rt.alloc();
    let bad_line = ReplayFault::BadLine(7);
    assert!(rt; ends(alloc, Ok(()), 0, ""));
    assert!(rt; ends(alloc, Err(bad_line), 2, "replay: line 7: bad event\n"));
    assert!(rt;
        ends(
            alloc,
            Err(ReplayFault::CannotRead),
            1,
            "replay: cannot read\n"
        )
    );
    assert!(rt;
        ends(
            alloc,
            Err(ReplayFault::OutOfMemory),
            1,
            "replay: out of memory\n"
        )
    );
    assert!(rt; ends(alloc, Err(ReplayFault::CannotWrite), 1, ""));
}

#[test]
fn an_argument_that_is_no_text_is_refused(rt: HostRuntime) {
    let errors = nothing(rt.alloc());
    let code = no_text(&errors);
    assert!(rt; code == ExitCode::from(2));
    assert!(rt; is_said(errors, "replay: an argument is no UTF-8 text\n"));
}

#[test]
fn a_file_that_is_not_there_cannot_be_read(rt: HostRuntime) {
    for path in ["no/such/file", "."] {
        let asked = Asked {
            file: Some(path),
            shown: Shown::Report,
            until: Until::Done,
        };
        assert_eq!(rt;
            replayed(&rt, asked),
            Err(ReplayFault::CannotRead),
            "{path}"
        );
    }
}
