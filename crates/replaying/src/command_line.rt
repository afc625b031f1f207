//! The command line of `replay`.

ghost use Rattle.std.specs.Prelude.{◌≡◌, IfErr, IfOk, false, map, option_map, true};
ghost use Rattle.clap.specs.Words.{FailsBy, app_of, fault_of, kind_of, rule_of, takes};
ghost use Rattle.clap.specs.declared.error.kind.ErrorKind.TheVariants.{OutOfMemory};
ghost use Rattle.replaying.specs.CommandLine.{file_argument, file_named, finish_flag, replay, shown_by, shown_for, trace_flag, until_by, until_for};

use clap::{Arg, ArgAction, Command, Error};
use schedules::{Shown, Until};
use std::alloc::{AllocError, Global};
use std::convert::AsStr;

/// What a command line asks for.
#[derive(Clone, Copy)]
pub struct Asked<'a> {
    /// The file of the schedule, or `None` where none is named.
    pub file: Option<&'a str>,
    /// What is to be written of its run.
    pub shown: Shown,
    /// When its run ends.
    pub until: Until,
}

/// What a command line asks for, the program's name its first word.
///
/// # Errors
///
/// What the parser says of a command line that it refuses, and of one that asks for help or for the
/// version.
pub fn asked_by<'a, S: AsStr>(alloc: Global, words: &'a [S]) -> Result<Asked<'a>, Error>
    ensures file { IfOk result (λ asked. option_map (λ name. name.now) asked.file ≡ file_named (map S.text words.entry.now)) }
    ensures shown { IfOk result (λ asked. asked.shown ≡ shown_for (map S.text words.entry.now)) }
    ensures until { IfOk result (λ asked. asked.until ≡ until_for (map S.text words.entry.now)) }
    // Where the command takes the words, an error is for want of memory.
    ensures taken { IfErr result (λ e. takes replay (map S.text words.entry.now) ≡ true → kind_of e ≡ OutOfMemory) }
    // An answer comes only where no step of the parse fails, and else the kind of error of the first that does, or that of
    // want of memory.
    ensures kinds { FailsBy (fault_of replay (map S.text words.entry.now)) result }
{
    let command = command(alloc)?;
    let matches = command.try_get_matches_from(words)?;
    Ok(Asked {
        file: matches.get_str("file"),
        shown: shown_by(matches.get_str("trace")),
        until: until_by(matches.get_str("finish")),
    })
}

/// What is to be written where the flag for a trace has this value, if one.
fn shown_by(flag: Option<&str>) -> Shown
    ensures { result ≡ shown_by (option_map (λ value. value.now) flag.entry) }
{
    match flag {
        Some(value) if value == "true" => Shown::Trace,
        _ => Shown::Report,
    }
}

/// When a run ends where the flag for its finish has this value, if one.
fn until_by(flag: Option<&str>) -> Until
    ensures { result ≡ until_by (option_map (λ value. value.now) flag.entry) }
{
    match flag {
        Some(value) if value == "true" => Until::Rest,
        _ => Until::Done,
    }
}

/// The flag for a trace.
fn trace<'a>(alloc: Global) -> Arg<'a>
    ensures rule { rule_of result ≡ trace_flag }
    ensures own { result.global ≡ false }
{
    Arg::new(alloc, "trace")
        .long("trace")
        .action(ArgAction::SetTrue)
        .help("Print each event with what it did, and then the report")
}

/// The flag for a finish.
fn finish<'a>(alloc: Global) -> Arg<'a>
    ensures rule { rule_of result ≡ finish_flag }
    ensures own { result.global ≡ false }
{
    Arg::new(alloc, "finish")
        .long("finish")
        .action(ArgAction::SetTrue)
        .help("After the schedule, go on until each client has all its replies")
}

/// The file of the schedule.
fn file<'a>(alloc: Global) -> Arg<'a>
    ensures rule { rule_of result ≡ file_argument }
    ensures own { result.global ≡ false }
{
    Arg::new(alloc, "file")
        .value_name("FILE")
        .help("File of the schedule; standard input where none is named")
}

/// The command line that is parsed.
fn command<'a>(alloc: Global) -> Result<Command<'a>, AllocError>
    ensures { IfOk result (λ command. app_of command ≡ replay) }
{
    Command::new(alloc, "replay")
        .version("0.4.0")
        .about("Runs a schedule of the simulated world, and prints what each client was told")
        .arg(trace(alloc))?
        .arg(finish(alloc))?
        .arg(file(alloc))
}

#[cfg(test)]
mod tests {
    use super::*;
    use std::test::Fail;

    #[test]
    fn a_file_is_named_or_none(rt: HostRuntime) -> Result<(), Fail> {
        let none = asked_by(rt.alloc(), ["replay"].as_slice())?;
        assert_eq!(rt; none.file, None);
        assert_eq!(rt; none.shown, Shown::Report);
        let one = asked_by(rt.alloc(), ["replay", "a.schedule"].as_slice())?;
        assert_eq!(rt; one.file, Some("a.schedule"));
        assert_eq!(rt; one.shown, Shown::Report);
        Ok(())
    }

    #[test]
    fn a_trace_is_asked_for(rt: HostRuntime) -> Result<(), Fail> {
        let none = asked_by(rt.alloc(), ["replay", "--trace"].as_slice())?;
        assert_eq!(rt; none.file, None);
        assert_eq!(rt; none.shown, Shown::Trace);
        for words in [
            ["replay", "--trace", "a.schedule"],
            ["replay", "a.schedule", "--trace"],
        ] {
            let one = asked_by(rt.alloc(), words.as_slice())?;
            assert_eq!(rt; one.file, Some("a.schedule"), "at {words:?}");
            assert_eq!(rt; one.shown, Shown::Trace, "at {words:?}");
        }
        Ok(())
    }

    #[test]
    fn a_finish_is_asked_for(rt: HostRuntime) -> Result<(), Fail> {
        let none = asked_by(rt.alloc(), ["replay", "--trace"].as_slice())?;
        assert_eq!(rt; none.until, Until::Done);
        for words in [
            ["replay", "--finish", "--trace"],
            ["replay", "--trace", "--finish"],
        ] {
            let one = asked_by(rt.alloc(), words.as_slice())?;
            assert_eq!(rt; one.file, None, "at {words:?}");
            assert_eq!(rt; one.shown, Shown::Trace, "at {words:?}");
            assert_eq!(rt; one.until, Until::Rest, "at {words:?}");
        }
        Ok(())
    }

    #[test]
    fn other_command_lines_are_refused(rt: HostRuntime) -> Result<(), Fail> {
        for words in [
            ["replay", "--colour", "red"],
            ["replay", "one", "two"],
            ["replay", "--trace", "--trace"],
        ] {
            let refused = asked_by(rt.alloc(), words.as_slice()).err().ok_or("taken")?;
            assert_eq!(rt; refused.exit_code(), 2, "at {words:?}");
            assert!(rt; refused.use_stderr(), "at {words:?}");
        }
        Ok(())
    }

    #[test]
    fn help_names_the_file_and_the_flags(rt: HostRuntime) -> Result<(), Fail> {
        let shown = asked_by(rt.alloc(), ["replay", "--help"].as_slice())
            .err()
            .ok_or("taken")?;
        assert_eq!(rt; shown.exit_code(), 0);
        let text = format!(in rt.alloc(); "{shown}")?;
        assert!(rt; text.contains("[FILE]"), "{text}");
        assert!(rt; text.contains("--trace"), "{text}");
        assert!(rt; text.contains("--finish"), "{text}");
        Ok(())
    }
}
