//! The command line of `garnetd`, in a crate of its own: to prove it takes a fraction of what the program takes.
//!
//! The options are a command of `clap`, one function an option. What words ask for is defined by the rules of `clap`'s
//! parser (`specs/CommandLine.antt`), so the contract of [`options_of`] speaks of the words and not of the parser.
#![tactic(auto)]

ghost use Rattle.std.specs.Prelude.{ℕ, ◌≡◌, ◌<◌, ◌^◌, Some, IfErr, IfNone, IfOk, IfSome, codes, map, true};
ghost use Rattle.clap.specs.Words.{FailsBy, app_of, fault_of, first_value, found_of, kind_of, rule_of, takes};
ghost use Rattle.clap.specs.declared.builder.value_parser.ValueParser.TheVariants.{Unsigned};
ghost use Rattle.command_line.specs.Given.{Gives, GivesOrDefault, HasGiven, IsInRange, text_in};
ghost use Rattle.command_line.specs.CommandLine.{AskFor, AsksForDevice, garnetd};
ghost use Rattle.command_line.specs.CommandLine.{accept_option, buckets_option, device_option, frames_option, option_of};
ghost use Rattle.command_line.specs.CommandLine.{places_option, port_option, stripes_option, workers_option};

use clap::builder::ValueParser;
use clap::error::ErrorKind;
use clap::{Arg, ArgAction, ArgMatches, Command, Error, value_parser};
use options::{ACCEPT_MAX, DeviceKind, Options};
use std::alloc::{AllocError, Global};
use std::convert::AsStr;
use words::limits::{
    BUCKETS_DEFAULT, BUCKETS_MAX, CLIENTS_DEFAULT, CLIENTS_MAX, FRAMES_DEFAULT, FRAMES_MAX,
    FRAMES_MIN, PLACES_DEFAULT, PLACES_MAX, PLACES_MIN, STRIPES_DEFAULT, STRIPES_MAX,
};

/// The version that `garnetd --version` tells. `tools/package` and `CHANGELOG.md` have the same.
const VERSION: &str = "0.4.0";

/// What the words of a command line ask for, the program's name first.
///
/// # Errors
///
/// What the parser says of a command line that it refuses, and of one that asks for help or for the
/// version.
pub fn options_of<'a, S: AsStr>(alloc: Global, words: &'a [S]) -> Result<Options, Error>
    ensures ok { IfOk result (AskFor (map S.text words.entry.now)) }
    // Where the command takes the words, an error means out of memory.
    ensures taken { IfErr result (λ e. takes garnetd (map S.text words.entry.now) ≡ true → kind_of e ≡ ErrorKind.OutOfMemory) }
    // Options come only where no step of the parse fails, and else the kind of error of the first that does, or that of
    // out of memory.
    ensures kinds { FailsBy (fault_of garnetd (map S.text words.entry.now)) result }
{
    let texts = HelpTexts::new(alloc)?;
    read(alloc, &texts, words)
}

/// What these words ask for.
fn read<'a, S: AsStr>(alloc: Global, texts: &'a HelpTexts, words: &'a [S]) -> Result<Options, Error>
    ensures ok { IfOk result (AskFor (map S.text words.entry.now)) }
    ensures taken { IfErr result (λ e. takes garnetd (map S.text words.entry.now) ≡ true → kind_of e ≡ ErrorKind.OutOfMemory) }
    ensures kinds { FailsBy (fault_of garnetd (map S.text words.entry.now)) result }
{
    let mut command = command(alloc, texts)?;
    read_by(alloc, &mut command, words)
}

/// What these words ask for, read by this command.
fn read_by<'a, S: AsStr>(
    alloc: Global,
    command: &mut Command<'a>,
    words: &'a [S],
) -> Result<Options, Error>
    ensures ok { app_of command.old ≡ garnetd → IfOk result (AskFor (map S.text words.entry.now)) }
    ensures taken { app_of command.old ≡ garnetd
        → IfErr result (λ e. takes garnetd (map S.text words.entry.now) ≡ true → kind_of e ≡ ErrorKind.OutOfMemory) }
    ensures kinds { app_of command.old ≡ garnetd → FailsBy (fault_of garnetd (map S.text words.entry.now)) result }
{
    let matches = command.try_get_matches_from_mut(words)?;
    let device = given_device(alloc, &matches)?;
    match given(&matches, device) {
        Some(options) => Ok(options),
        None => Err(command.error(ErrorKind::MissingRequiredArgument, "an option has no value")?),
    }
}

/// What help says of options whose ranges are limits: what they are, what they cost in memory, their range and
/// their default.
#[derive(Drop)]
struct HelpTexts {
    accept: String,
    stripes: String,
    buckets: String,
    frames: String,
    places: String,
    workers: String,
}

impl HelpTexts {
    fn new(alloc: Global) -> Result<HelpTexts, AllocError> {
        let accept = format!(in alloc;
            "Connections to accept in all, 1 to {ACCEPT_MAX}; no default"
        )?;
        let stripes = number_text(
            alloc,
            "Stripes of the store",
            1,
            STRIPES_MAX,
            STRIPES_DEFAULT,
        )?;
        let buckets = number_text(
            alloc,
            "Buckets of each stripe's index, 8 bytes each",
            1,
            BUCKETS_MAX,
            BUCKETS_DEFAULT,
        )?;
        let frames = number_text(
            alloc,
            "Frames of each stripe for the newest pages, 64 KiB each",
            FRAMES_MIN,
            FRAMES_MAX,
            FRAMES_DEFAULT,
        )?;
        let places = number_text(
            alloc,
            "Places of each stripe on the device for the other pages, 64 KiB each when used",
            PLACES_MIN,
            PLACES_MAX,
            PLACES_DEFAULT,
        )?;
        let workers = number_text(
            alloc,
            "Clients served at one time",
            1,
            CLIENTS_MAX,
            CLIENTS_DEFAULT,
        )?;
        Ok(HelpTexts {
            accept,
            stripes,
            buckets,
            frames,
            places,
            workers,
        })
    }
}

/// What help says of a number that may be left out.
fn number_text(
    alloc: Global,
    what: &str,
    least: usize,
    most: usize,
    default: usize,
) -> Result<String, AllocError> {
    format!(in alloc; "{what}, {least} to {most}; default {default}")
}

/// The command line that is parsed.
fn command<'a>(alloc: Global, texts: &'a HelpTexts) -> Result<Command<'a>, AllocError>
    ensures { IfOk result (λ command. app_of command ≡ garnetd) }
{
    Command::new(alloc, "garnetd")
        .version(VERSION)
        .about(
            "Serves the string commands and transactions of Redis in RESP2 to many clients at one time, and ends when all have",
        )
        .arg(port(alloc))?
        .arg(accept(alloc, texts.accept.as_str()))?
        .arg(stripes(alloc, texts.stripes.as_str()))?
        .arg(buckets(alloc, texts.buckets.as_str()))?
        .arg(frames(alloc, texts.frames.as_str()))?
        .arg(places(alloc, texts.places.as_str()))?
        .arg(workers(alloc, texts.workers.as_str()))?
        .arg(device(alloc))
}

fn port<'a>(alloc: Global) -> Arg<'a>
    ensures { rule_of result ≡ port_option }
{
    Arg::new(alloc, "port")
        .long("port")
        .action(ArgAction::Set)
        .value_name("P")
        .value_parser(value_parser!(u16))
        .required(true)
        .help("Port of 127.0.0.1, 0 to 65535 (0: any free one); no default")
}

fn accept<'a>(alloc: Global, help: &'a str) -> Arg<'a>
    ensures { rule_of result ≡ accept_option }
{
    Arg::new(alloc, "accept")
        .long("accept")
        .action(ArgAction::Set)
        .value_name("N")
        .value_parser(value_parser!(u32).range(1..=i64::from(ACCEPT_MAX)))
        .required(true)
        .help(help)
}

fn stripes<'a>(alloc: Global, help: &'a str) -> Arg<'a>
    ensures { rule_of result ≡ stripes_option }
{
    number(alloc, "stripes", "S", 1, STRIPES_MAX, help)
}

fn buckets<'a>(alloc: Global, help: &'a str) -> Arg<'a>
    ensures { rule_of result ≡ buckets_option }
{
    number(alloc, "buckets", "B", 1, BUCKETS_MAX, help)
}

fn frames<'a>(alloc: Global, help: &'a str) -> Arg<'a>
    ensures { rule_of result ≡ frames_option }
{
    number(alloc, "frames", "F", FRAMES_MIN, FRAMES_MAX, help)
}

fn places<'a>(alloc: Global, help: &'a str) -> Arg<'a>
    ensures { rule_of result ≡ places_option }
{
    number(alloc, "places", "L", PLACES_MIN, PLACES_MAX, help)
}

fn workers<'a>(alloc: Global, help: &'a str) -> Arg<'a>
    ensures { rule_of result ≡ workers_option }
{
    number(alloc, "workers", "W", 1, CLIENTS_MAX, help)
}

/// A number of these bounds that may be left out.
fn number<'a>(
    alloc: Global,
    name: &'a str,
    value_name: &'a str,
    least: usize,
    most: usize,
    help: &'a str,
) -> Arg<'a>
    ensures { rule_of result ≡ option_of name.now (Unsigned least most) }
{
    Arg::new(alloc, name)
        .long(name)
        .action(ArgAction::Set)
        .value_name(value_name)
        .value_parser(ValueParser::unsigned(least as u64, most as u64))
        .help(help)
}

fn device<'a>(alloc: Global) -> Arg<'a>
    ensures { rule_of result ≡ device_option }
{
    Arg::new(alloc, "device")
        .long("device")
        .action(ArgAction::Set)
        .value_name("DEVICE")
        .value_parser(ValueParser::string())
        .help(
            "What keeps the pages that have left their frames: memory, or the file at this path, made anew; default memory",
        )
}

/// The device that a parsed command line asks for. Memory takes none.
fn given_device(alloc: Global, matches: &ArgMatches<'_>) -> Result<DeviceKind, AllocError>
    ensures { IfOk result (AsksForDevice (first_value (found_of matches.now) (codes "device"))) }
{
    match matches.get_str("device") {
        Some(word) => device_named(alloc, word),
        None => Ok(DeviceKind::Memory),
    }
}

/// The device that a word asks for: memory by its name, and else the file at this path.
fn device_named(alloc: Global, word: &str) -> Result<DeviceKind, AllocError>
    ensures { IfOk result (AsksForDevice (Some word.now)) }
{
    if word == "memory" {
        Ok(DeviceKind::Memory)
    } else {
        Ok(DeviceKind::File(String::from_str(alloc, word)?))
    }
}

/// The options that a parsed command line gives, with this device. `None` where an option that has no default is not
/// given, or one is not in its range, which the parser lets no command line do.
fn given(matches: &ArgMatches<'_>, device: DeviceKind) -> Option<Options>
    ensures numbers { IfSome result (HasGiven matches.now) }
    ensures device { IfSome result (λ options. options.device ≡ device) }
    ensures none { IfNone result (IsInRange matches.now → ⊥) }
{
    let port = given_port(matches)?;
    let accept = given_accept(matches)?;
    let stripes = given_or(matches, "stripes", STRIPES_DEFAULT);
    let buckets = given_or(matches, "buckets", BUCKETS_DEFAULT);
    let frames = given_or(matches, "frames", FRAMES_DEFAULT);
    let places = given_or(matches, "places", PLACES_DEFAULT);
    let workers = given_or(matches, "workers", CLIENTS_DEFAULT);
    Options::new(
        port, accept, stripes, buckets, frames, places, workers, device,
    )
}

/// The port, or `None` where no number of 16 bits is given.
fn given_port(matches: &ArgMatches<'_>) -> Option<u16>
    ensures some { IfSome result (λ port. Gives (text_in matches.now (codes "port")) port) }
    ensures none { IfNone result ((port : ℕ) → Gives (text_in matches.now (codes "port")) port → port < 2 ^ 16 → ⊥) }
{
    matches.get_one("port")
}

/// How many connections are accepted, or `None` where no number of 32 bits is given.
fn given_accept(matches: &ArgMatches<'_>) -> Option<u32>
    ensures some { IfSome result (λ accept. Gives (text_in matches.now (codes "accept")) accept) }
    ensures none { IfNone result ((accept : ℕ) → Gives (text_in matches.now (codes "accept")) accept → accept < 2 ^ 32 → ⊥) }
{
    matches.get_one("accept")
}

/// The number of an option that may be left out.
fn given_or(matches: &ArgMatches<'_>, option: &str, default: usize) -> usize
    ensures { GivesOrDefault (text_in matches.now option.now) default result }
{
    match matches.get_one(option) {
        Some(number) => number,
        None => default,
    }
}

#[cfg(test)]
mod tests {
    use super::*;
    use std::test::Fail;

    /// A command line with each option.
    const ALL: &[&str] = &[
        "garnetd",
        "--port",
        "65535",
        "--accept=1000000",
        "--stripes=1",
        "--buckets=65536",
        "--frames",
        "12",
        "--places=65536",
        "--workers",
        "64",
        "--device=memory",
    ];

    /// What that asks for.
    fn all() -> Option<Options> {
        let memory = DeviceKind::Memory;
        Options::new(65_535, 1_000_000, 1, 65_536, 12, 65_536, 64, memory)
    }

    #[test]
    fn every_option_is_read(rt: HostRuntime) -> Result<(), Fail> {
        let options = options_of(rt.alloc(), ALL)?;
        assert_eq!(rt; Some(options), all());
        Ok(())
    }

    /// A command line with the options that have no default.
    const LEAST: &[&str] = &["garnetd", "--port=0", "--accept=1"];

    /// What that asks for.
    fn least() -> Option<Options> {
        Options::new(0, 1, 16, 4_096, 32, 4_096, 4, DeviceKind::Memory)
    }

    #[test]
    fn all_but_port_and_accept_have_defaults(rt: HostRuntime) -> Result<(), Fail> {
        let options = options_of(rt.alloc(), LEAST)?;
        assert_eq!(rt; Some(options), least());
        Ok(())
    }

    /// Words for the device, each with the path that it is, if it is one.
    const DEVICES: &[(&str, Option<&str>)] = &[
        ("--device=memory", None),
        ("--device=Memory", Some("Memory")),
        ("--device=./pages/0", Some("./pages/0")),
        ("--device=", Some("")),
    ];

    /// The path of a device in a file.
    fn path_of(device: &DeviceKind) -> Option<&str> {
        match device {
            DeviceKind::Memory => None,
            DeviceKind::File(path) => Some(path.as_str()),
        }
    }

    #[test]
    fn a_device_is_memory_or_a_file(rt: HostRuntime) -> Result<(), Fail> {
        for &(word, path) in DEVICES {
            let words = ["garnetd", "--port=0", "--accept=1", word];
            let options = options_of(rt.alloc(), words.as_slice())?;
            assert_eq!(rt; path_of(&options.device), path);
        }
        Ok(())
    }

    /// Options of which one is not in its range, is no number, stands twice or is not known.
    const REFUSED: &[&[&str]] = &[
        &["garnetd", "--port=0"],
        &["garnetd", "--accept=1"],
        &["garnetd", "--port=0", "--accept=1", "--port=0"],
        &["garnetd", "--port=65536", "--accept=1"],
        &["garnetd", "--port=-1", "--accept=1"],
        &["garnetd", "--port=0", "--accept=0"],
        &["garnetd", "--port=0", "--accept=1000001"],
        &["garnetd", "--port=0", "--accept=many"],
        &["garnetd", "--port=0", "--accept=1", "--stripes=0"],
        &["garnetd", "--port=0", "--accept=1", "--stripes=65"],
        &["garnetd", "--port=0", "--accept=1", "--stripes="],
        &["garnetd", "--port=0", "--accept=1", "--buckets=0"],
        &["garnetd", "--port=0", "--accept=1", "--buckets=65537"],
        &["garnetd", "--port=0", "--accept=1", "--frames=11"],
        &["garnetd", "--port=0", "--accept=1", "--frames=257"],
        &["garnetd", "--port=0", "--accept=1", "--places=63"],
        &["garnetd", "--port=0", "--accept=1", "--places=65537"],
        &["garnetd", "--port=0", "--accept=1", "--workers=0"],
        &["garnetd", "--port=0", "--accept=1", "--workers=65"],
        &["garnetd", "--port=0", "--accept=1", "--workers=-1"],
        &["garnetd", "--port=0", "--accept=1", "--device"],
        &[
            "garnetd",
            "--port=0",
            "--accept=1",
            "--device=a",
            "--device=b",
        ],
        &["garnetd", "--port=0", "--accept=1", "--colour=red"],
    ];

    #[test]
    fn other_command_lines_are_refused(rt: HostRuntime) -> Result<(), Fail> {
        for &words in REFUSED {
            let refused = options_of(rt.alloc(), words).err().ok_or("taken")?;
            assert_eq!(rt; refused.exit_code(), 2, "at {words:?}");
            assert!(rt; refused.use_stderr(), "at {words:?}");
        }
        Ok(())
    }

    /// What help says of each option.
    const HELP: &[&str] = &[
        "--port <P>",
        "0 to 65535 (0: any free one); no default",
        "--accept <N>",
        "1 to 1000000; no default",
        "--stripes <S>",
        "1 to 64; default 16",
        "--buckets <B>",
        "8 bytes each, 1 to 65536; default 4096",
        "--frames <F>",
        "64 KiB each, 12 to 256; default 32",
        "--places <L>",
        "64 KiB each when used, 64 to 65536; default 4096",
        "--workers <W>",
        "1 to 64; default 4",
        "--device <DEVICE>",
        "memory, or the file at this path, made anew; default memory",
    ];

    #[test]
    fn help_names_every_option_with_its_range(rt: HostRuntime) -> Result<(), Fail> {
        let shown = options_of(rt.alloc(), ["garnetd", "--help"].as_slice())
            .err()
            .ok_or("taken")?;
        assert_eq!(rt; shown.exit_code(), 0);
        let text = format!(in rt.alloc(); "{shown}")?;
        for part in HELP {
            assert!(rt; text.contains(part), "{part}");
        }
        Ok(())
    }

    #[test]
    fn the_version_is_told(rt: HostRuntime) -> Result<(), Fail> {
        let shown = options_of(rt.alloc(), ["garnetd", "--version"].as_slice())
            .err()
            .ok_or("taken")?;
        assert_eq!(rt; shown.exit_code(), 0);
        let text = format!(in rt.alloc(); "{shown}")?;
        assert!(rt; text.contains(VERSION));
        Ok(())
    }
}
