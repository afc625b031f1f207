//! Calls that do not wait, by one pass.

ghost use Rattle.std.specs.Prelude.{⊤, ◌≡◌, IfErr, IfSome, IsTrue};
ghost use Rattle.words.specs.Bounds.{IsBounded};
ghost use Rattle.words.specs.Commands.{touches_keys};
ghost use Rattle.engine.specs.Passes.{Rests};

use crate::exchanges::{Exchange, Outcome, compare, keyed, placed};
use device::{Device, MemoryDevice};
use engine::{Engine, Pass};
use std::alloc::Global;
use transact::call::{Answer, Call};
use words::command::Command;
use words::word::Word;

/// What a command is answered, or the stripe that was another pass's, with the command.
fn try_command<D: Device>(
    engine: &Engine<D>,
    pass: &mut Pass<D>,
    command: Command,
) -> Result<Answer, (usize, Command)>
    requires rests { Rests D.Receipt.is_steady engine.now pass.old }
    requires place { IsTrue (touches_keys command) × IsBounded command }
    ensures rests { Rests D.Receipt.is_steady engine.now pass.new }
    ensures back { IfErr result (λ refused. refused.1 ≡ command) }
{
    match engine.try_submit(pass, Call::One(command)) {
        Ok(answer) => Ok(answer),
        Err((busy, Call::One(command))) => Err((busy.stripe, command)),
        Err((_, Call::Watch(_keys))) => unreachable!(),
        Err((_, Call::Exec(_commands, _watching))) => unreachable!(),
        Err((_, Call::Forget(_watching))) => unreachable!(),
    }
}

/// What a request is answered that is tried. `None` where a stripe was another pass's, or where there was no memory for the
/// request's own words.
pub fn tried_answer<D: Device>(
    alloc: Global,
    engine: &Engine<D>,
    pass: &mut Pass<D>,
    request: &str,
) -> Option<Answer>
    requires rests { Rests D.Receipt.is_steady engine.now pass.old }
    ensures rests { Rests D.Receipt.is_steady engine.now pass.new }
{
    match keyed(alloc, request) {
        Some(command) => try_command(engine, pass, command).ok(),
        None => None,
    }
}

/// Whether a request that is tried is answered as is due.
pub fn is_answered(
    alloc: Global,
    engine: &Engine<MemoryDevice>,
    pass: &mut Pass<MemoryDevice>,
    exchange: Exchange<'_>,
) -> bool
    requires rests { Rests ⊤ engine.now pass.old }
    ensures rests { Rests ⊤ engine.now pass.new }
{
    match tried_answer(alloc, engine, pass, exchange.request) {
        Some(answer) => compare(answer, exchange.due) == Outcome::Due,
        None => false,
    }
}

/// GET of a key. `None` where there was no memory, or where the key is not within the limits.
fn getting(alloc: Global, key: &str) -> Option<Command>
    ensures { IfSome result (λ command. IsTrue (touches_keys command) × IsBounded command) }
{
    let word = Word::from_slice(alloc, key.as_bytes()).ok()?;
    placed(Command::Get(word))
}

/// Whether a GET of this key was handed back, since this stripe was another pass's.
fn is_back(answer: &Result<Answer, (usize, Command)>, key: &str, stripe: usize) -> bool {
    match answer {
        Err((found, Command::Get(back))) => {
            *found == stripe && back.as_slice() == key.as_bytes()
        }
        _ => false,
    }
}

/// Lets go of what came of a command.
fn let_go(tried: Result<Answer, (usize, Command)>) {
    match tried {
        Ok(answer) => drop(answer),
        Err((_, command)) => drop(command),
    }
}

/// Whether this GET of a key finds this stripe to be another pass's, and is handed back.
fn command_is_busy<D: Device>(
    engine: &Engine<D>,
    pass: &mut Pass<D>,
    command: Command,
    key: &str,
    stripe: usize,
) -> bool
    requires rests { Rests D.Receipt.is_steady engine.now pass.old }
    requires place { IsTrue (touches_keys command) × IsBounded command }
    ensures rests { Rests D.Receipt.is_steady engine.now pass.new }
{
    let tried = try_command(engine, pass, command);
    let is_back = is_back(&tried, key, stripe);
    let_go(tried);
    is_back
}

/// Whether a GET that is tried finds this stripe to be another pass's, and is handed back.
pub fn is_busy<D: Device>(
    alloc: Global,
    engine: &Engine<D>,
    pass: &mut Pass<D>,
    key: &str,
    stripe: usize,
) -> bool
    requires rests { Rests D.Receipt.is_steady engine.now pass.old }
    ensures rests { Rests D.Receipt.is_steady engine.now pass.new }
{
    match getting(alloc, key) {
        Some(command) => command_is_busy(engine, pass, command, key, stripe),
        None => false,
    }
}
