//! Commands, and which command the words of a request are.

ghost use Rattle.std.specs.Prelude.{◌≡◌, ◌≤◌, ◌↔◌, [], ◌∷◌, List, IfOk, IsOk, IsTrue, codes, length};
ghost use Rattle.words.specs.Spelling.{IsRequest};
ghost use Rattle.words.specs.Commands.{command_of, command_in, AsksNoMemory, is_name, keys_set, readers, counters, session_commands};
ghost use Rattle.words.specs.Bounds.{AreKeysBounded, AreValuesBounded, IsBounded, values_set};
ghost use Rattle.words.specs.Store.{Bytes};
ghost use Rattle.words.specs.Verbs.{shaped};
ghost use Rattle.words.specs.Briefs.{IsGet, IsMGet, IsMSet, IsOne, IsPing, IsSet};
ghost use Rattle.words.specs.Briefs.{are_settings, commanded, counting, pairs_of};
ghost use Rattle.words.specs.Briefs.{brief_of, brief_of_key, brief_of_many, brief_of_setting, verb_of_key, verb_of_value};

use crate::limits::{KEY_BYTES_MAX, VALUE_BYTES_MAX};
use crate::number;
use crate::reply::Refusal;
use crate::sequence::Sequence;
use crate::shapes::{
    KeyVerb, KeysVerb, LoneVerb, NumberVerb, SettingsVerb, Shape, ValueVerb, add_settings,
    any_long, copies, copy, is_long,
};
use crate::word::{OutOfMemory, Word, Words};
use std::alloc::Global;
use std::fmt;
use std::fmt::{Debug, Formatter};

/// A list of keys.
pub type Keys = Sequence<Word>;

/// Keys, each with the value that it is given, in order.
pub type Settings = Sequence<(Word, Word)>;

/// When a SET is done.
#[derive(Clone, Copy, Debug, PartialEq, Eq)]
pub enum When {
    /// Whether the key is there or not.
    Always,
    /// Where the key is missing.
    IfMissing,
    /// Where the key is there.
    IfPresent,
}

/// A command of the session itself: it opens, ends or guards a transaction, or ends the connection.
#[derive(Debug, Drop)]
pub enum SessionCommand {
    /// `MULTI`
    Multi,
    /// `EXEC`
    Exec,
    /// `DISCARD`
    Discard,
    /// `WATCH key [key ..]`. A key may be too long: the session refuses it.
    Watch(Keys),
    /// `UNWATCH`
    Unwatch,
    /// `QUIT`
    Quit,
}

/// A command, with its arguments. Keys have at most `KEY_BYTES_MAX` bytes but for those of WATCH, and
/// lists have at least one item, where [`Command::of`] made it.
#[derive(Drop)]
pub enum Command {
    /// `PING [text]`
    Ping(Option<Word>),
    /// `ECHO text`
    Echo(Word),
    /// `GET key`
    Get(Word),
    /// `SET key value [NX | XX]`
    Set(Word, Word, When),
    /// `SET key value GET [NX | XX]`, its option words in any order
    SetGet(Word, Word, When),
    /// `SETNX key value`
    SetNx(Word, Word),
    /// `GETSET key value`
    GetSet(Word, Word),
    /// `GETDEL key`
    GetDel(Word),
    /// `STRLEN key`
    StrLen(Word),
    /// `EXISTS key [key ..]`
    Exists(Keys),
    /// `DEL key [key ..]`
    Del(Keys),
    /// `APPEND key value`
    Append(Word, Word),
    /// `SETRANGE key offset value`
    SetRange(Word, u64, Word),
    /// `GETRANGE key start end`
    GetRange(Word, i64, i64),
    /// `INCRBY key number`; `INCR key` with 1
    Add(Word, i64),
    /// `DECRBY key number`; `DECR key` with 1
    Subtract(Word, i64),
    /// `MGET key [key ..]`
    MGet(Keys),
    /// `MSET key value [key value ..]`
    MSet(Settings),
    /// `MSETNX key value [key value ..]`
    MSetNx(Settings),
    /// `RENAME key newkey`
    Rename(Word, Word),
    /// A command of the session itself.
    Session(SessionCommand),
    /// A command that its words show to be refused when it runs.
    Bad(Refusal),
}

/// By how much a command that counts changes the number of its key.
#[derive(Clone, Copy, Debug, PartialEq, Eq)]
pub enum Count {
    /// It adds this.
    Add(i64),
    /// It takes this away.
    Subtract(i64),
}

/// What a command does that names one key, and beside it a value at most.
#[derive(Clone, Copy, Debug, PartialEq, Eq)]
pub enum Verb {
    /// `INCR`, `DECR`, `INCRBY` or `DECRBY`
    Count(Count),
    /// `SETNX`, of a value
    SetNx,
    /// `GETSET`, of a value
    GetSet,
    /// `APPEND`, of a value
    Append,
    /// `GETDEL`
    GetDel,
    /// `STRLEN`
    StrLen,
    /// `EXISTS`
    Exists,
    /// `DEL`
    Del,
}

/// Which of the commands that are asked most a request is, whose words then are the command's as they lie.
#[derive(Clone, Copy, Debug, PartialEq, Eq)]
pub enum Brief {
    /// A GET: the second word is its key.
    Get,
    /// A SET without an option: the second word is its key, and the third the value.
    Set,
    /// Another command of one key: the second word is its key, and the last one the value, where it takes one.
    One(Verb),
    /// An MGET: the words after the first are its keys.
    Values,
    /// An MSET: the words after the first are its keys, each with its value behind it.
    Settings,
    /// A PING without a text.
    Ping,
    /// Any other request.
    Other,
}

impl Brief {
    /// Which the request of these words is, where its key is not too long. It takes no memory.
    pub fn of(words: &Words) -> Brief
        ensures exact { result ≡ brief_of words.now }
        ensures get { result ≡ Brief.Get → IsGet words.now }
        ensures set { result ≡ Brief.Set → IsSet words.now }
        ensures one { (verb : Verb) → result ≡ Brief.One verb → IsOne verb words.now }
        ensures values { result ≡ Brief.Values → IsMGet words.now }
        ensures settings { result ≡ Brief.Settings → IsMSet words.now }
        ensures ping { result ≡ Brief.Ping → IsPing words.now }
    {
        of_words(words.as_slice())
    }
}

/// Which the request of these words is.
#[inline]
fn of_words(words: &[Word]) -> Brief
    ensures { result ≡ brief_of words.now }
{
    match words.split_first() {
        Some((name, arguments)) => of_named(name.as_slice(), arguments),
        None => Brief::Other,
    }
}

/// Which a request of this name and arguments is.
#[inline]
fn of_named(name: &[u8], arguments: &[Word]) -> Brief
    ensures { result ≡ brief_of (name.now ∷ arguments.now) }
{
    match arguments {
        [key] if !is_long(key) => of_key(name),
        [key, value] if !is_long(key) => of_setting(name, value),
        [_, _, _, ..] => of_many(name, arguments),
        [] if is_named(name, b"PING") => Brief::Ping,
        _ => Brief::Other,
    }
}

/// Which a request of this name and a key is.
#[inline]
fn of_key(name: &[u8]) -> Brief
    ensures { result ≡ brief_of_key name.now }
{
    if is_named(name, b"GET") {
        Brief::Get
    } else {
        verb_of_key(name)
    }
}

/// Which a request of this name and a key is that is no GET.
fn verb_of_key(name: &[u8]) -> Brief
    ensures { result ≡ verb_of_key name.now }
{
    if is_named(name, b"INCR") {
        Brief::One(Verb::Count(Count::Add(1)))
    } else if is_named(name, b"DECR") {
        Brief::One(Verb::Count(Count::Subtract(1)))
    } else if is_named(name, b"DEL") {
        Brief::One(Verb::Del)
    } else if is_named(name, b"EXISTS") {
        Brief::One(Verb::Exists)
    } else if is_named(name, b"STRLEN") {
        Brief::One(Verb::StrLen)
    } else if is_named(name, b"GETDEL") {
        Brief::One(Verb::GetDel)
    } else if is_named(name, b"MGET") {
        Brief::Values
    } else {
        Brief::Other
    }
}

/// Which a request of this name and three words or more is.
fn of_many(name: &[u8], arguments: &[Word]) -> Brief
    ensures { result ≡ brief_of_many name.now arguments.now }
{
    if is_named(name, b"MGET") && !any_long(arguments) {
        Brief::Values
    } else if is_named(name, b"MSET") && are_settings(arguments) {
        Brief::Settings
    } else {
        Brief::Other
    }
}

/// Whether these words are keys that are not too long, each with its value behind it.
fn are_settings(words: &[Word]) -> bool
    ensures { result ≡ are_settings words.now }
{
    match words {
        [] => true,
        [_] => false,
        [key, _, others @ ..] => !is_long(key) && are_settings(others),
    }
}

/// Which a request of this name, a key and another word is.
#[inline]
fn of_setting(name: &[u8], value: &Word) -> Brief
    ensures { result ≡ brief_of_setting name.now value.now }
{
    if is_named(name, b"SET") {
        Brief::Set
    } else {
        verb_of_value(name, value)
    }
}

/// Which a request of this name, a key and another word is that is no SET.
fn verb_of_value(name: &[u8], value: &Word) -> Brief
    ensures { result ≡ verb_of_value name.now value.now }
{
    if is_named(name, b"INCRBY") {
        match number::parse(value.as_slice()) {
            Some(number) => Brief::One(Verb::Count(Count::Add(number))),
            None => Brief::Other,
        }
    } else if is_named(name, b"DECRBY") {
        match number::parse(value.as_slice()) {
            Some(number) => Brief::One(Verb::Count(Count::Subtract(number))),
            None => Brief::Other,
        }
    } else if is_named(name, b"SETNX") {
        Brief::One(Verb::SetNx)
    } else if is_named(name, b"GETSET") {
        Brief::One(Verb::GetSet)
    } else if is_named(name, b"APPEND") {
        Brief::One(Verb::Append)
    } else if is_named(name, b"MSET") {
        Brief::Settings
    } else if is_named(name, b"MGET") && !is_long(value) {
        Brief::Values
    } else {
        Brief::Other
    }
}

impl Verb {
    /// The command that does so to this key, with copies of the words that it keeps. The value is looked at only where it takes one.
    ///
    /// # Errors
    ///
    /// [`OutOfMemory`] where there is no memory for a copy. Words of at most [`WORD_INLINE`] bytes take none, but for an `EXISTS` or a `DEL`,
    /// which keep a list of keys.
    ///
    /// [`WORD_INLINE`]: crate::word::WORD_INLINE
    pub fn command(self, alloc: Global, key: &Word, value: &Word) -> Result<Command, OutOfMemory>
        ensures exact { IfOk result (λ command. command ≡ commanded self key.now value.now) }
        ensures memory { AsksNoMemory (Ok (commanded self key.now value.now)) → IsOk result }
    {
        match self {
            Verb::Count(by) => Ok(by.command(copy(alloc, key)?)),
            Verb::SetNx => Ok(Command::SetNx(copy(alloc, key)?, copy(alloc, value)?)),
            Verb::GetSet => Ok(Command::GetSet(copy(alloc, key)?, copy(alloc, value)?)),
            Verb::Append => Ok(Command::Append(copy(alloc, key)?, copy(alloc, value)?)),
            Verb::GetDel => Ok(Command::GetDel(copy(alloc, key)?)),
            Verb::StrLen => Ok(Command::StrLen(copy(alloc, key)?)),
            Verb::Exists => Ok(Command::Exists(lone(alloc, key)?)),
            Verb::Del => Ok(Command::Del(lone(alloc, key)?)),
        }
    }
}

impl Count {
    /// The command that changes the number of this key by so much.
    fn command(self, key: Word) -> Command
        ensures { result ≡ counting self key }
    {
        match self {
            Count::Add(number) => Command::Add(key, number),
            Count::Subtract(number) => Command::Subtract(key, number),
        }
    }
}

/// A copy of this word, as the one key of a list.
fn lone(alloc: Global, key: &Word) -> Result<Keys, OutOfMemory>
    ensures { IfOk result (λ keys. keys ≡ key.now ∷ []) }
{
    let mut keys = Vec::with_capacity(alloc, 1)?;
    keys.push(copy(alloc, key)?)?;
    Ok(Sequence::from_vec(keys))
}

/// Copies of these words, as keys, each with its value behind it. A last key that has none is left out.
///
/// # Errors
///
/// [`OutOfMemory`] where there is no memory for them.
pub fn settings_of(alloc: Global, words: &[Word]) -> Result<Settings, OutOfMemory>
    ensures { IfOk result (λ settings. settings ≡ pairs_of words.now) }
{
    let mut settings = Vec::with_capacity(alloc, words.len() / 2)?;
    add_settings(alloc, &mut settings, words)?;
    Ok(Sequence::from_vec(settings))
}

/// Copies of these words, as keys.
///
/// # Errors
///
/// [`OutOfMemory`] where there is no memory for them.
pub fn keys_of(alloc: Global, words: &[Word]) -> Result<Keys, OutOfMemory>
    ensures { IfOk result (λ keys. keys ≡ words.now) }
{
    copies(alloc, words)
}

/// The command's name alone: its words may be long, and they are a user's.
impl Debug for Command {
    fn fmt<W: fmt::Write>(&self, f: &mut Formatter<W>) -> fmt::Result {
        f.write_str(name_of(self))
    }
}

/// The name of a command's variant.
fn name_of(command: &Command) -> &'static str {
    match command {
        Command::Ping(_) => "Ping",
        Command::Echo(_) => "Echo",
        Command::Get(_) => "Get",
        Command::Set(..) => "Set",
        Command::SetGet(..) => "SetGet",
        Command::SetNx(..) => "SetNx",
        Command::GetSet(..) => "GetSet",
        Command::GetDel(_) => "GetDel",
        Command::StrLen(_) => "StrLen",
        Command::Exists(_) => "Exists",
        Command::Del(_) => "Del",
        Command::Append(..) => "Append",
        Command::SetRange(..) => "SetRange",
        Command::GetRange(..) => "GetRange",
        Command::Add(..) => "Add",
        Command::Subtract(..) => "Subtract",
        Command::MGet(_) => "MGet",
        Command::MSet(_) => "MSet",
        Command::MSetNx(_) => "MSetNx",
        Command::Rename(..) => "Rename",
        Command::Session(_) => "Session",
        Command::Bad(_) => "Bad",
    }
}

impl Command {
    /// The command that the words of a request are, or why they are none: no command has the name
    /// (compared without regard to ASCII case), or it does not take this number of words. Whatever
    /// else the words show is kept, as [`Command::Bad`], and answered where the command runs.
    ///
    /// It takes memory only for a word of more than `WORD_INLINE` bytes that the command keeps, and
    /// for a list of keys or settings. Where the request is within its limits, so are the command's
    /// keys and the values that it stores.
    pub fn of(alloc: Global, words: &Words) -> Result<Result<Command, Refusal>, OutOfMemory>
        ensures exact { IfOk result (λ command. command ≡ command_of words.now) }
        ensures bounded { IsRequest words.now → IfOk result (λ made. IfOk made IsBounded) }
        ensures memory { AsksNoMemory (command_of words.now) → IsOk result }
    {
        let Some((name, arguments)) = words.as_slice().split_first() else {
            return Ok(Err(Refusal::UnknownCommand));
        };
        shape_of(name.as_slice()).read(alloc, arguments)
    }

    /// Whether the keys that the command names and the values that it stores are within the limits.
    pub fn is_bounded(&self) -> bool
        ensures { IsTrue result ↔ IsBounded self.now }
    {
        match self {
            Command::Set(key, value, _)
            | Command::SetGet(key, value, _)
            | Command::SetNx(key, value)
            | Command::GetSet(key, value) => is_setting_bounded(key, value),
            Command::MSet(settings) | Command::MSetNx(settings) => {
                are_settings_bounded(settings.as_slice())
            }
            Command::Get(key)
            | Command::GetDel(key)
            | Command::StrLen(key)
            | Command::Append(key, _)
            | Command::SetRange(key, _, _)
            | Command::GetRange(key, _, _)
            | Command::Add(key, _)
            | Command::Subtract(key, _) => !is_long(key),
            Command::Exists(keys) | Command::Del(keys) | Command::MGet(keys) => {
                are_keys_bounded(keys.as_slice())
            }
            Command::Rename(key, name) => !is_long(key) && !is_long(name),
            Command::Ping(_) | Command::Echo(_) | Command::Session(_) | Command::Bad(_) => true,
        }
    }
}

/// Whether a key and its new value are within the limits.
fn is_setting_bounded(key: &Word, value: &Word) -> bool
    ensures { IsTrue result ↔ ((length key.now ≤ KEY_BYTES_MAX) × (length value.now ≤ VALUE_BYTES_MAX)) }
{
    !is_long(key) && value.len() <= VALUE_BYTES_MAX
}

/// Whether each of these keys is within the limits.
fn are_keys_bounded(keys: &[Word]) -> bool
    ensures { IsTrue result ↔ AreKeysBounded keys.now }
{
    match keys {
        [] => true,
        [key, others @ ..] => !is_long(key) && are_keys_bounded(others),
    }
}

/// Whether the key and the value of each of these settings are within the limits.
fn are_settings_bounded(settings: &[(Word, Word)]) -> bool
    ensures { IsTrue result ↔ (AreKeysBounded (keys_set settings.now) × AreValuesBounded (values_set settings.now)) }
{
    match settings {
        [] => true,
        [(key, value), others @ ..] => {
            is_setting_bounded(key, value) && are_settings_bounded(others)
        }
    }
}

/// The shape of a command of one key, by its name, or else of one of the others.
fn shape_of(name: &[u8]) -> Shape
    ensures { (arguments : List Bytes) → shaped result arguments ≡ command_in (readers counters) name.now arguments }
{
    if is_named(name, b"GET") {
        Shape::OneKey(KeyVerb::Get)
    } else if is_named(name, b"SET") {
        Shape::KeyValueOptions
    } else if is_named(name, b"SETNX") {
        Shape::KeyAndValue(ValueVerb::SetNx)
    } else if is_named(name, b"GETSET") {
        Shape::KeyAndValue(ValueVerb::GetSet)
    } else if is_named(name, b"GETDEL") {
        Shape::OneKey(KeyVerb::GetDel)
    } else if is_named(name, b"STRLEN") {
        Shape::OneKey(KeyVerb::StrLen)
    } else if is_named(name, b"EXISTS") {
        Shape::SomeKeys(KeysVerb::Exists)
    } else if is_named(name, b"DEL") {
        Shape::SomeKeys(KeysVerb::Del)
    } else if is_named(name, b"APPEND") {
        Shape::KeyAndValue(ValueVerb::Append)
    } else if is_named(name, b"SETRANGE") {
        Shape::KeyOffsetValue
    } else if is_named(name, b"GETRANGE") {
        Shape::KeyStartEnd
    } else {
        counting_shape(name)
    }
}

/// The shape of a command of numbers or of several keys, by its name, or else of one that names no key.
fn counting_shape(name: &[u8]) -> Shape
    ensures { (arguments : List Bytes) → shaped result arguments ≡ command_in counters name.now arguments }
{
    if is_named(name, b"INCR") {
        Shape::OneKey(KeyVerb::Increment)
    } else if is_named(name, b"DECR") {
        Shape::OneKey(KeyVerb::Decrement)
    } else if is_named(name, b"INCRBY") {
        Shape::KeyAndNumber(NumberVerb::Add)
    } else if is_named(name, b"DECRBY") {
        Shape::KeyAndNumber(NumberVerb::Subtract)
    } else if is_named(name, b"MGET") {
        Shape::SomeKeys(KeysVerb::MGet)
    } else if is_named(name, b"MSET") {
        Shape::SomeSettings(SettingsVerb::MSet)
    } else if is_named(name, b"MSETNX") {
        Shape::SomeSettings(SettingsVerb::MSetNx)
    } else if is_named(name, b"RENAME") {
        Shape::TwoKeys
    } else {
        keyless_shape(name)
    }
}

/// The shape of a command that names no key, or of one of the session, by its name.
fn keyless_shape(name: &[u8]) -> Shape
    ensures { (arguments : List Bytes) → shaped result arguments ≡ command_in session_commands name.now arguments }
{
    if is_named(name, b"PING") {
        Shape::OptionalText
    } else if is_named(name, b"ECHO") {
        Shape::OneText
    } else if is_named(name, b"MULTI") {
        Shape::Alone(LoneVerb::Multi)
    } else if is_named(name, b"EXEC") {
        Shape::Alone(LoneVerb::Exec)
    } else if is_named(name, b"DISCARD") {
        Shape::Alone(LoneVerb::Discard)
    } else if is_named(name, b"WATCH") {
        Shape::WatchedKeys
    } else if is_named(name, b"UNWATCH") {
        Shape::Alone(LoneVerb::Unwatch)
    } else if is_named(name, b"QUIT") {
        Shape::Alone(LoneVerb::Quit)
    } else {
        Shape::Unknown
    }
}

/// Whether a word is this command's name, without regard to ASCII case.
fn is_named(word: &[u8], name: &[u8]) -> bool
    ensures { result ≡ is_name name.now word.now }
{
    name.eq_ignore_ascii_case(word)
}
