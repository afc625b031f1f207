//! The answering of what a client was fed: its requests are put to the engine, one after the other, and
//! their replies are said.

ghost use Rattle.std.specs.Prelude.{◌≡◌, ◌≤◌, ◌+◌, ℕ, [], ◌++◌, List, IfNone, IfOk};
ghost use Rattle.streams.specs.Streams.{stream_of, told_of, reads_of};
ghost use Rattle.streams.specs.declared.observed.Told.{Told as HasTold};
ghost use Rattle.engine.specs.Passes.{Known, knows, Rests, stripe_count};
ghost use Rattle.engine.specs.Calls.{promises_of};
ghost use Rattle.words.specs.Bounds.{IsBounded};
ghost use Rattle.words.specs.Briefs.{IsGet, IsMGet, IsMSet, IsOne, last_of};
ghost use Rattle.words.specs.Commands.{command_of, touches_keys};
ghost use Rattle.words.specs.Session.{line_reply};
ghost use Rattle.words.specs.Spelling.{IsRequest};
ghost use Rattle.transact.specs.Calls.{answer_of, reply_to};
ghost use Rattle.connection.specs.Clients.{Progress, before, mode_of, IsIdle, IsOpen};
ghost use Rattle.connection.specs.Served.{HasTurned, IsDue, IsDueToIdle, due_text, Attends, Conversing, HasPaused, IsHeard, IsFed, StandsAt, LeavesAt, paused_told, HasAnswered, GoesOn, EndsAnswering, answered_told};
ghost use Rattle.std.specs.Io.KnownBytes.{Appends, Consumes};

use crate::asking::{OpenStore, Store};
use crate::client::{Client, Front, Next};
use crate::output::{flush, go_on_behind, say_line, say_spent, say_value, say_values};
use crate::reading::{MORE_PIECES, Waiting, take_waiting};
use crate::serving::{Ended, Talk};
use device::Device;
use engine::{Came, Gathered, Got, GotAll, Pass, Spoken};
use gates::Latch;
use session::watches_follow_entries;
use std::io::Write;
use std::sync::Wait;
use streams::{Noted, ReadReady};
use transact::call::Call;
use words::bounds::commands_are_bounded;
use words::bulks::Bulks;
use words::command::{Brief, Command, Verb};
use words::reply::{Fault, Line, ProtocolFault, Refusal, Reply};
use words::word::{Word, Words};

/// What the next turn of a client comes to.
#[derive(Drop)]
pub(crate) enum Due {
    /// A request is answered with this reply.
    Reply(Reply),
    /// A request is answered with this line.
    Line(Line),
    /// An MGET is answered with what it found.
    Values(Bulks),
    /// A GET is answered with what it found.
    Value(Option<Word>),
    /// A GET, an MGET or a transaction of GETs was answered with this: the output buffer has its reply.
    Said(Spoken),
    /// No whole request is left.
    Input,
    /// The bytes that are left begin with a fault.
    Malformed(ProtocolFault),
    /// There was no memory for the next request.
    NoMemory,
    /// The session has ended.
    Closed,
}

/// Where the answering of what a client was fed pauses.
#[derive(Drop)]
pub(crate) enum Paused {
    /// No whole request is left.
    Input,
    /// The bytes that are left begin with a fault. Its line is not said yet.
    Malformed(ProtocolFault),
    /// There was no memory for the next request.
    NoMemory,
    /// There was no memory to feed the client what was read.
    Unfed,
    /// A write failed.
    WriteFailed,
    /// The session has ended.
    Closed,
}

/// Answers all whole requests that the client was fed. The replies go into the output buffer, and to the writer where
/// it is full.
pub(crate) fn answer_all<T: Wait, L: Latch, W: Write, D: Device>(
    store: &Store<T, L, D>,
    talk: &mut Talk,
    writer: &mut Noted<W>,
    pass: &mut Pass<D>,
) -> Paused
    requires rests { Rests D.Receipt.is_steady store.now.engine.now pass.old }
    requires attends { Attends (knows D.failures pass.old) talk.old.client }
    requires heard { IsHeard (told_of writer.old) }
    ensures paused { (was : Known) (fed before : List ℕ)
        → Conversing (promises_of D.Receipt.is_steady D.Receipt.lends (stripe_count store.now.engine.now)) was (knows D.failures pass.old) fed talk.old.client (before ++ talk.old.out.items)
        → (sent : List ℕ)
        × Appends (W.contents (stream_of writer.old)) (W.contents (stream_of writer.new)) sent
        × HasPaused (promises_of D.Receipt.is_steady D.Receipt.lends (stripe_count store.now.engine.now)) was (knows D.failures pass.new) fed result talk.new.client (before ++ sent) talk.new.out.items }
    ensures room { talk.new.room ≡ talk.old.room }
    ensures fed { IsFed result }
    ensures stands { StandsAt result talk.new.client }
    ensures told { told_of writer.new ≡ paused_told result (told_of writer.old) }
    ensures rests { Rests D.Receipt.is_steady store.now.engine.now pass.new }
    ensures attends { Attends (knows D.failures pass.new) talk.new.client }
{
    loop {
        if talk.client.wants_input() {
            return Paused::Input;
        }
        // The store and the writer are lent for this request alone.
        match answer_next(
            &*store,
            &mut talk.client,
            &mut talk.words,
            &mut talk.out,
            &*writer,
            pass,
        ) {
            Due::Reply(reply) => {
                if let Err(_) = say_spent(reply, &mut talk.out, writer) {
                    return Paused::WriteFailed;
                }
            }
            Due::Line(line) => {
                if let Err(_) = say_line(line, &mut talk.out, writer) {
                    return Paused::WriteFailed;
                }
            }
            Due::Values(values) => {
                if let Err(_) = say_values(values, &mut talk.out, writer) {
                    return Paused::WriteFailed;
                }
            }
            Due::Value(value) => {
                if let Err(_) = say_value(value, &mut talk.out, writer) {
                    return Paused::WriteFailed;
                }
            }
            Due::Said(said) => {
                if let Err(_) = go_on_behind(said, &mut talk.out, writer) {
                    return Paused::WriteFailed;
                }
            }
            Due::Input => return Paused::Input,
            Due::Malformed(fault) => return Paused::Malformed(fault),
            Due::NoMemory => return Paused::NoMemory,
            Due::Closed => return Paused::Closed,
        }
    }
}

/// Writes what is held back where the answering paused so, after it the line of a fault that was met.
/// `None` where the connection goes on.
pub(crate) fn conclude<W: Write, D: Device>(
    paused: Paused,
    out: &mut Vec<u8>,
    writer: &mut Noted<W>,
) -> Option<Ended>
    ensures answered { (stripes : ℕ) (was now : Known) (fed before : List ℕ) (standing : Progress)
        → HasPaused (promises_of D.Receipt.is_steady D.Receipt.lends stripes) was now fed paused standing before out.old.items
        → (sent : List ℕ)
        × Appends (W.contents (stream_of writer.old)) (W.contents (stream_of writer.new)) sent
        × HasAnswered (promises_of D.Receipt.is_steady D.Receipt.lends stripes) was now fed result standing (before ++ sent) }
    ensures goes_on { IfNone result ((paused ≡ Paused.Input) × (out.new.items ≡ [])) }
    ensures ends { EndsAnswering result }
    ensures told { (told : HasTold)
        → told_of writer.old ≡ paused_told paused told
        → told_of writer.new ≡ answered_told result told }
{
    match paused {
        Paused::Input => {
            if let Err(_) = flush(out, writer) {
                return Some(Ended::WriteFailed);
            }
            None
        }
        Paused::Malformed(fault) => {
            if let Err(_) = say_line(Line::Malformed(fault), out, writer) {
                return Some(Ended::WriteFailed);
            }
            if let Err(_) = flush(out, writer) {
                return Some(Ended::WriteFailed);
            }
            Some(Ended::ProtocolFault)
        }
        Paused::NoMemory => {
            if let Err(_) = flush(out, writer) {
                return Some(Ended::WriteFailed);
            }
            Some(Ended::NoMemory)
        }
        Paused::Unfed => {
            if let Err(_) = flush(out, writer) {
                return Some(Ended::WriteFailed);
            }
            Some(Ended::NoMemory)
        }
        Paused::Closed => {
            if let Err(_) = flush(out, writer) {
                return Some(Ended::WriteFailed);
            }
            Some(Ended::Quit)
        }
        Paused::WriteFailed => Some(Ended::WriteFailed),
    }
}

/// Answers all whole requests that the client was fed, and of what is there already, and writes the
/// replies. `None` where the connection goes on.
pub(crate) fn answer_piece<T: Wait, L: Latch, R: ReadReady, W: Write, D: Device>(
    store: &Store<T, L, D>,
    talk: &mut Talk,
    reader: &mut Noted<R>,
    writer: &mut Noted<W>,
    pass: &mut Pass<D>,
) -> Option<Ended>
    requires rests { Rests D.Receipt.is_steady store.now.engine.now pass.old }
    requires attends { Attends (knows D.failures pass.old) talk.old.client }
    requires room { talk.old.room.items ≡ [] }
    requires few { talk.old.room.more ≤ MORE_PIECES }
    requires empty { talk.old.out.items ≡ [] }
    requires heard { IsHeard (told_of writer.old) }
    ensures answered { (was : Known) (fed before : List ℕ)
        → Conversing (promises_of D.Receipt.is_steady D.Receipt.lends (stripe_count store.now.engine.now)) was (knows D.failures pass.old) fed talk.old.client before
        → (bytes sent : List ℕ)
        × Consumes (R.remaining (stream_of reader.old)) (R.remaining (stream_of reader.new)) bytes
        × Appends (W.contents (stream_of writer.old)) (W.contents (stream_of writer.new)) sent
        × HasAnswered (promises_of D.Receipt.is_steady D.Receipt.lends (stripe_count store.now.engine.now)) was (knows D.failures pass.new) (fed ++ bytes) result talk.new.client (before ++ sent) }
    ensures goes_on { GoesOn result talk.new.client talk.new.out.items }
    ensures ends { EndsAnswering result }
    ensures told { told_of writer.new ≡ answered_told result (told_of writer.old) }
    ensures reader_told { told_of reader.new ≡ told_of reader.old }
    ensures reads { reads_of reader.new ≤ reads_of reader.old }
    ensures few { reads_of reader.old ≤ reads_of reader.new + MORE_PIECES }
    ensures room { IfNone result (talk.new.room.items ≡ []) }
    ensures rests { Rests D.Receipt.is_steady store.now.engine.now pass.new }
    ensures attends { Attends (knows D.failures pass.new) talk.new.client }
{
    let paused = answer_waiting(store, talk, reader, writer, pass);
    conclude::<W, D>(paused, &mut talk.out, writer)
}

/// Answers the client's next request, if there is a whole one. It is taken up into these words. What a GET, an MGET or a transaction of GETs
/// found may be said at once, into the output buffer.
#[inline]
fn answer_next<'s, T: Wait, L: Latch, W, D: Device>(
    store: &'s Store<T, L, D>,
    client: &mut Client,
    words: &mut Words,
    out: &mut Vec<u8>,
    writer: &'s Noted<W>,
    pass: &mut Pass<D>,
) -> Due
    requires rests { Rests D.Receipt.is_steady store.now.engine.now pass.old }
    requires attends { Attends (knows D.failures pass.old) client.old }
    requires heard { IsHeard (told_of writer.now) }
    ensures turned { HasTurned client.old result client.new }
    ensures due { IsDue (promises_of D.Receipt.is_steady D.Receipt.lends (stripe_count store.now.engine.now)) (knows D.failures pass.old) (knows D.failures pass.new) client.old result client.new }
    ensures rests { Rests D.Receipt.is_steady store.now.engine.now pass.new }
    ensures attends { Attends (knows D.failures pass.new) client.new }
    ensures said { out.new.items ≡ out.old.items ++ due_text result }
{
    match client.take_up(words) {
        Front::Request => {
            let store = store.open(writer);
            if client.is_idle() {
                answer_idle(&store, client, words, out, pass)
            } else {
                answer_obeyed(&store, client, words, out, pass)
            }
        }
        Front::Input => Due::Input,
        Front::Malformed(fault) => Due::Malformed(fault),
        Front::OutOfMemory => Due::NoMemory,
        Front::Closed => Due::Closed,
    }
}

/// Answers the request of these words, which was taken off, of a client whose session is in no transaction.
/// A GET, an MGET, a SET without an option, an MSET and other commands of one key go to the engine with their words as they lie: the
/// session does no more to them than to hand them on. A PING without a text is answered at once.
#[inline]
fn answer_idle<T: Wait, L: Latch, D: Device>(
    store: &OpenStore<T, L, D>,
    client: &mut Client,
    words: &Words,
    out: &mut Vec<u8>,
    pass: &mut Pass<D>,
) -> Due
    requires rests { Rests D.Receipt.is_steady store.now.engine.now pass.old }
    requires attends { Attends (knows D.failures pass.old) client.old }
    requires idle { IsIdle client.old.stage }
    requires request { IsRequest words.now }
    ensures turned { HasTurned (before words.now client.old) result client.new }
    ensures due { IsDue (promises_of D.Receipt.is_steady D.Receipt.lends (stripe_count store.now.engine.now)) (knows D.failures pass.old) (knows D.failures pass.new) (before words.now client.old) result client.new }
    ensures rests { Rests D.Receipt.is_steady store.now.engine.now pass.new }
    ensures attends { Attends (knows D.failures pass.new) client.new }
    ensures said { out.new.items ≡ out.old.items ++ due_text result }
{
    match Brief::of(words) {
        Brief::Get => answer_get(store, words, out, pass),
        Brief::Set => {
            watches_follow_entries();
            commands_are_bounded();
            let key = &words.as_slice()[1];
            let value = &words.as_slice()[2];
            Due::Line(line_of(store.engine.set(store.rt, pass, key, value, store.latch)))
        }
        Brief::One(verb) => answer_one(store, words, pass, verb),
        Brief::Values => answer_values(store, words, out, pass),
        Brief::Settings => answer_settings(store, words, pass),
        Brief::Ping => Due::Line(Line::Pong),
        Brief::Other => answer_command(store, client, words, out, pass),
    }
}

/// Answers the request of these words, which is a GET, of a client whose session is in no transaction: its words go to the engine as
/// they lie, and what the key has may be said at once.
#[inline]
fn answer_get<T: Wait, L: Latch, D: Device>(
    store: &OpenStore<T, L, D>,
    words: &Words,
    out: &mut Vec<u8>,
    pass: &mut Pass<D>,
) -> Due
    requires rests { Rests D.Receipt.is_steady store.now.engine.now pass.old }
    requires request { IsRequest words.now }
    requires get { IsGet words.now }
    ensures turned { (at : Progress) → IsIdle at.stage → HasTurned (before words.now at) result at }
    ensures due { IsDueToIdle (promises_of D.Receipt.is_steady D.Receipt.lends (stripe_count store.now.engine.now))
        (knows D.failures pass.old) (knows D.failures pass.new) words.now result }
    ensures rests { Rests D.Receipt.is_steady store.now.engine.now pass.new }
    ensures attends { (at : Progress) → Attends (knows D.failures pass.old) at → IsIdle at.stage → Attends (knows D.failures pass.new) at }
    ensures said { out.new.items ≡ out.old.items ++ due_text result }
{
    watches_follow_entries();
    commands_are_bounded();
    let key = &words.as_slice()[1];
    match store.engine.say(store.rt, pass, key, out, store.latch) {
        Ok(Got::Said(said)) => Due::Said(said),
        Ok(Got::Found(value)) => Due::Value(value),
        Err(fault) => Due::Line(Line::Faulty(fault)),
    }
}

/// Answers the request of these words, which is an MGET, of a client whose session is in no transaction: its words go to the engine as
/// they lie, and what the keys have may be said at once.
#[inline(never)]
fn answer_values<T: Wait, L: Latch, D: Device>(
    store: &OpenStore<T, L, D>,
    words: &Words,
    out: &mut Vec<u8>,
    pass: &mut Pass<D>,
) -> Due
    requires rests { Rests D.Receipt.is_steady store.now.engine.now pass.old }
    requires request { IsRequest words.now }
    requires values { IsMGet words.now }
    ensures turned { (at : Progress) → IsIdle at.stage → HasTurned (before words.now at) result at }
    ensures due { IsDueToIdle (promises_of D.Receipt.is_steady D.Receipt.lends (stripe_count store.now.engine.now))
        (knows D.failures pass.old) (knows D.failures pass.new) words.now result }
    ensures rests { Rests D.Receipt.is_steady store.now.engine.now pass.new }
    ensures attends { (at : Progress) → Attends (knows D.failures pass.old) at → IsIdle at.stage → Attends (knows D.failures pass.new) at }
    ensures said { out.new.items ≡ out.old.items ++ due_text result }
{
    watches_follow_entries();
    commands_are_bounded();
    let Some((_name, keys)) = words.as_slice().split_first() else {
        unreachable!()
    };
    match store
        .engine
        .say_values(store.rt, pass, keys, out, store.latch)
    {
        GotAll::Said(said) => Due::Said(said),
        GotAll::Gathered(Gathered::Found(values)) => Due::Values(values),
        GotAll::Gathered(Gathered::Planned(planned)) => Due::Reply(planned.into_reply()),
    }
}

/// Answers the request of these words, which is an MSET, of a client whose session is in no transaction: its words go to the engine as
/// they lie.
#[inline(never)]
fn answer_settings<T: Wait, L: Latch, D: Device>(
    store: &OpenStore<T, L, D>,
    words: &Words,
    pass: &mut Pass<D>,
) -> Due
    requires rests { Rests D.Receipt.is_steady store.now.engine.now pass.old }
    requires request { IsRequest words.now }
    requires settings { IsMSet words.now }
    ensures turned { (at : Progress) → IsIdle at.stage → HasTurned (before words.now at) result at }
    ensures due { IsDueToIdle (promises_of D.Receipt.is_steady D.Receipt.lends (stripe_count store.now.engine.now))
        (knows D.failures pass.old) (knows D.failures pass.new) words.now result }
    ensures rests { Rests D.Receipt.is_steady store.now.engine.now pass.new }
    ensures attends { (at : Progress) → Attends (knows D.failures pass.old) at → IsIdle at.stage → Attends (knows D.failures pass.new) at }
    ensures unsaid { due_text result ≡ [] }
{
    watches_follow_entries();
    commands_are_bounded();
    let Some((_name, settings)) = words.as_slice().split_first() else {
        unreachable!()
    };
    let answer = store.engine.set_all(store.rt, pass, settings, store.latch);
    Due::Reply(answer.into_reply())
}

/// Answers the request of these words, which is such a command of one key, of a client whose session is in no transaction: its words go to
/// the engine as they lie.
#[inline(never)]
fn answer_one<T: Wait, L: Latch, D: Device>(
    store: &OpenStore<T, L, D>,
    words: &Words,
    pass: &mut Pass<D>,
    verb: Verb,
) -> Due
    requires rests { Rests D.Receipt.is_steady store.now.engine.now pass.old }
    requires request { IsRequest words.now }
    requires one { IsOne verb words.now }
    ensures turned { (at : Progress) → IsIdle at.stage → HasTurned (before words.now at) result at }
    ensures due { IsDueToIdle (promises_of D.Receipt.is_steady D.Receipt.lends (stripe_count store.now.engine.now))
        (knows D.failures pass.old) (knows D.failures pass.new) words.now result }
    ensures rests { Rests D.Receipt.is_steady store.now.engine.now pass.new }
    ensures attends { (at : Progress) → Attends (knows D.failures pass.old) at → IsIdle at.stage → Attends (knows D.failures pass.new) at }
    ensures unsaid { due_text result ≡ [] }
{
    watches_follow_entries();
    commands_are_bounded();
    let (key, value) = key_and_value(words.as_slice(), verb);
    let told = store
        .engine
        .one(store.rt, pass, key, verb, value, store.latch);
    Due::Reply(told.into_reply())
}

/// The key of such a command of one key, and the word behind it, or the key once more where there is none.
fn key_and_value<'a>(words: &'a [Word], verb: Verb) -> (&'a Word, &'a Word)
    requires { IsOne verb words.now }
    ensures { (one : IsOne verb words.entry.now) → (result.0.now ≡ one.key) × (result.1.now ≡ last_of one.key one.others) }
{
    match words {
        [_, key] => (key, key),
        [_, key, value] => (key, value),
        _ => unreachable!(),
    }
}

/// Answers the request of these words, which was taken off, of a client whose session is in no transaction.
/// A command that reads or writes keys goes to the engine at once: the session does no more to it than to hand it on,
/// and says its answer as it comes.
#[inline(never)]
fn answer_command<T: Wait, L: Latch, D: Device>(
    store: &OpenStore<T, L, D>,
    client: &mut Client,
    words: &Words,
    out: &mut Vec<u8>,
    pass: &mut Pass<D>,
) -> Due
    requires rests { Rests D.Receipt.is_steady store.now.engine.now pass.old }
    requires attends { Attends (knows D.failures pass.old) client.old }
    requires idle { IsIdle client.old.stage }
    requires request { IsRequest words.now }
    ensures turned { HasTurned (before words.now client.old) result client.new }
    ensures due { IsDue (promises_of D.Receipt.is_steady D.Receipt.lends (stripe_count store.now.engine.now))
        (knows D.failures pass.old) (knows D.failures pass.new) (before words.now client.old) result client.new }

    ensures rests { Rests D.Receipt.is_steady store.now.engine.now pass.new }
    ensures attends { Attends (knows D.failures pass.new) client.new }
    ensures said { out.new.items ≡ out.old.items ++ due_text result }
{
    match client.command_of(words) {
        Ok(Ok(command)) if names_key(&command) => {
            watches_follow_entries();
            let call = Call::One(command);
            let answer = store.engine.submit_with(store.rt, pass, call, store.latch);
            Due::Reply(answer.into_reply())
        }
        Ok(made) => answer_step(store, client, words, made, out, pass),
        Err(_) => Due::NoMemory,
    }
}

/// Whether a command reads or writes keys.
fn names_key(command: &Command) -> bool
    ensures { result ≡ touches_keys command.now }
{
    !matches!(
        command,
        Command::Ping(_) | Command::Echo(_) | Command::Session(_) | Command::Bad(_)
    )
}

/// The line that is said to an answer of one line, or to a fault.
fn line_of(told: Result<Line, Fault>) -> Line
    ensures { line_reply result ≡ reply_to (answer_of told) }
{
    match told {
        Ok(line) => line,
        Err(fault) => Line::Faulty(fault),
    }
}

/// Answers the request of these words, which was taken off.
#[inline(never)]
fn answer_obeyed<T: Wait, L: Latch, D: Device>(
    store: &OpenStore<T, L, D>,
    client: &mut Client,
    words: &Words,
    out: &mut Vec<u8>,
    pass: &mut Pass<D>,
) -> Due
    requires rests { Rests D.Receipt.is_steady store.now.engine.now pass.old }
    requires attends { Attends (knows D.failures pass.old) client.old }
    requires is_open { IsOpen (mode_of client.old.stage) }
    requires request { IsRequest words.now }
    ensures turned { HasTurned (before words.now client.old) result client.new }
    ensures due { IsDue (promises_of D.Receipt.is_steady D.Receipt.lends (stripe_count store.now.engine.now)) (knows D.failures pass.old) (knows D.failures pass.new) (before words.now client.old) result client.new }
    ensures rests { Rests D.Receipt.is_steady store.now.engine.now pass.new }
    ensures attends { Attends (knows D.failures pass.new) client.new }
    ensures said { out.new.items ≡ out.old.items ++ due_text result }
{
    match client.command_of(words) {
        Ok(command) => answer_step(store, client, words, command, out, pass),
        Err(_) => Due::NoMemory,
    }
}

/// Answers the request of these words, which was taken off and makes this command. What a transaction of GETs found may be said at once,
/// into the output buffer.
#[inline(never)]
fn answer_step<T: Wait, L: Latch, D: Device>(
    store: &OpenStore<T, L, D>,
    client: &mut Client,
    words: &Words,
    command: Result<Command, Refusal>,
    out: &mut Vec<u8>,
    pass: &mut Pass<D>,
) -> Due
    requires rests { Rests D.Receipt.is_steady store.now.engine.now pass.old }
    requires attends { Attends (knows D.failures pass.old) client.old }
    requires is_open { IsOpen (mode_of client.old.stage) }
    requires request { IsRequest words.now }
    requires command { command ≡ command_of words.now }
    requires bounded { IfOk command IsBounded }
    ensures turned { HasTurned (before words.now client.old) result client.new }
    ensures due { IsDue (promises_of D.Receipt.is_steady D.Receipt.lends (stripe_count store.now.engine.now))
        (knows D.failures pass.old) (knows D.failures pass.new) (before words.now client.old) result client.new }

    ensures rests { Rests D.Receipt.is_steady store.now.engine.now pass.new }
    ensures attends { Attends (knows D.failures pass.new) client.new }
    ensures said { out.new.items ≡ out.old.items ++ due_text result }
{
    match client.step(words, command) {
        Next::Input => Due::Input,
        Next::Says(reply) => Due::Reply(reply),
        Next::SaysOutOfMemory => Due::Reply(Reply::line(Line::Faulty(Fault::OutOfMemory))),
        Next::Calls(call) => {
            watches_follow_entries();
            match store
                .engine
                .submit_saying(store.rt, pass, call, out, store.latch)
            {
                Came::Answered(answer) => Due::Reply(client.resume(answer)),
                Came::Said(said) => {
                    client.resume_said();
                    Due::Said(said)
                }
            }
        }
        Next::Malformed(fault) => Due::Malformed(fault),
        Next::OutOfMemory => Due::NoMemory,
        Next::Closed => Due::Closed,
    }
}

/// Answers all whole requests that the client was fed, and of what is there already: it is read and fed
/// where no whole request is left, at most [`MORE_PIECES`] times, so that no reply waits for more reads than these.
/// The replies go into the output buffer, and to the writer where it is full.
fn answer_waiting<T: Wait, L: Latch, R: ReadReady, W: Write, D: Device>(
    store: &Store<T, L, D>,
    talk: &mut Talk,
    reader: &mut Noted<R>,
    writer: &mut Noted<W>,
    pass: &mut Pass<D>,
) -> Paused
    requires rests { Rests D.Receipt.is_steady store.now.engine.now pass.old }
    requires attends { Attends (knows D.failures pass.old) talk.old.client }
    requires room { talk.old.room.items ≡ [] }
    requires few { talk.old.room.more ≤ MORE_PIECES }
    requires heard { IsHeard (told_of writer.old) }
    ensures paused { (was : Known) (fed before : List ℕ)
        → Conversing (promises_of D.Receipt.is_steady D.Receipt.lends (stripe_count store.now.engine.now)) was (knows D.failures pass.old) fed talk.old.client (before ++ talk.old.out.items)
        → (bytes sent : List ℕ)
        × Consumes (R.remaining (stream_of reader.old)) (R.remaining (stream_of reader.new)) bytes
        × Appends (W.contents (stream_of writer.old)) (W.contents (stream_of writer.new)) sent
        × HasPaused (promises_of D.Receipt.is_steady D.Receipt.lends (stripe_count store.now.engine.now)) was (knows D.failures pass.new) (fed ++ bytes) result talk.new.client (before ++ sent)
        talk.new.out.items }
    ensures stands { StandsAt result talk.new.client }
    ensures told { told_of writer.new ≡ paused_told result (told_of writer.old) }
    ensures reader_told { told_of reader.new ≡ told_of reader.old }
    ensures reads { reads_of reader.new ≤ reads_of reader.old }
    ensures few { reads_of reader.old ≤ reads_of reader.new + MORE_PIECES }
    ensures room { LeavesAt result talk.new.room.items }
    ensures rests { Rests D.Receipt.is_steady store.now.engine.now pass.new }
    ensures attends { Attends (knows D.failures pass.new) talk.new.client }
{
    loop {
        match answer_all(store, talk, writer, pass) {
            Paused::Input => {}
            paused => return paused,
        }
        match take_waiting(reader, &mut talk.room, &mut talk.client) {
            Waiting::Fed => {}
            Waiting::Nothing => return Paused::Input,
            Waiting::NoMemory => return Paused::Unfed,
        }
    }
}
