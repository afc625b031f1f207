//! The program, from its command line to its exit status.

use crate::command_line::{Asked, asked_by};
use crate::ending::{ended, no_text, refused, stopped};
use schedules::{ReplayFault, run_schedule};
use std::convert::AsStr;
use std::io::{ErrorKind, Read};
use std::process::ExitCode;
use std::rt::{Env, Files};
use std::{env, fs, io};
use streams::Noted;

/// Does what the program's command line asks for, and gives the exit status.
pub fn run<R>(rt: &R) -> ExitCode
where
    R: Env + AllocGlobal + Files + Input + Print + Eprint,
{
    match words_of(rt) {
        Ok(words) => answer(rt, words.as_slice()),
        Err(error) if error.kind() == ErrorKind::InvalidData => no_text(rt),
        Err(_) => stopped(rt, ReplayFault::OutOfMemory),
    }
}

/// The words of the command line. One that is no text is invalid data; else an error says that there is no memory for them.
fn words_of<R: Env + AllocGlobal>(rt: &R) -> io::Result<Vec<String>> {
    Ok(env::args(rt)?.collect(rt.alloc())?)
}

/// Does what the words of a command line ask for, the program's name the first, and gives the exit
/// status: 0; 2 where the schedule has a bad line, or the words are refused; else 1.
pub fn answer<R, S: AsStr>(rt: &R, words: &[S]) -> ExitCode
where
    R: AllocGlobal + Files + Input + Print + Eprint,
{
    match asked_by(rt.alloc(), words) {
        Ok(asked) => ended(rt, replayed(rt, asked)),
        Err(error) => refused(rt, &error),
    }
}

/// Runs the schedule of a file, or of standard input where none is named.
pub(crate) fn replayed<R>(rt: &R, asked: Asked<'_>) -> Result<(), ReplayFault>
where
    R: AllocGlobal + Files + Input + Print,
{
    match asked.file {
        Some(path) => match fs::open(rt, path) {
            Ok(file) => print(rt, asked, file),
            Err(_) => Err(ReplayFault::CannotRead),
        },
        None => print(rt, asked, rt.reader()),
    }
}

/// Runs the schedule that a reader has, and prints what was asked for of it.
fn print<R: AllocGlobal + Print, I: Read + Drop>(
    rt: &R,
    asked: Asked<'_>,
    input: I,
) -> Result<(), ReplayFault> {
    let mut reader = Noted::new(input);
    let mut writer = Noted::new(io::writer(rt));
    run_schedule(
        rt.alloc(),
        asked.shown,
        asked.until,
        &mut reader,
        &mut writer,
    )
}
