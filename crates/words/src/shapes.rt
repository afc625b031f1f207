//! The shapes of the words after a command's name. A request with another number of words is refused
//! at once. What else the words show is kept as a refused command, in this order: a key that is too
//! long, option words, a number that is none, an offset below 0.
//!
//! A function clears the room of all its temporaries when it begins. So those of the shapes that are
//! read most have few: no `?`, and their refusals are functions of their own.

ghost use Rattle.std.specs.Prelude.{◌≡◌, ◌++◌, List, ℕ, Some, Ok, Err, IfOk, IsOk, OnOk, length};
ghost use Rattle.words.specs.Briefs.{pairs_of};
ghost use Rattle.words.specs.Commands as commands;
ghost use Rattle.words.specs.Commands.{AsksNoMemory, IsInline, in_pairs};
ghost use Rattle.words.specs.Verbs.{any_long_set, Adds, shaped};
ghost use Rattle.words.specs.Verbs.{of_key_verb, of_value_verb, of_number_verb, of_keys_verb, of_settings_verb, of_lone_verb};

use crate::command::{Command, Keys, SessionCommand, Settings, When};
use crate::limits::KEY_BYTES_MAX;
use crate::number;
use crate::reply::Refusal;
use crate::sequence::Sequence;
use crate::word::{OutOfMemory, Word};
use std::alloc::{AllocError, Global};

/// A command of one key.
#[derive(Clone, Copy)]
pub(crate) enum KeyVerb {
    Get,
    GetDel,
    StrLen,
    Increment,
    Decrement,
}

/// A command of a key and a value.
#[derive(Clone, Copy)]
pub(crate) enum ValueVerb {
    SetNx,
    GetSet,
    Append,
}

/// A command of a key and a number.
#[derive(Clone, Copy)]
pub(crate) enum NumberVerb {
    Add,
    Subtract,
}

/// A command of one key or more.
#[derive(Clone, Copy)]
pub(crate) enum KeysVerb {
    Exists,
    Del,
    MGet,
}

/// A command of one setting or more.
#[derive(Clone, Copy)]
pub(crate) enum SettingsVerb {
    MSet,
    MSetNx,
}

/// A command of the session itself that takes no word.
#[derive(Clone, Copy)]
pub(crate) enum LoneVerb {
    Multi,
    Exec,
    Discard,
    Unwatch,
    Quit,
}

/// What the words after a command's name are to be, and what they make.
#[derive(Clone, Copy)]
pub(crate) enum Shape {
    /// `key`
    OneKey(KeyVerb),
    /// `key value`
    KeyAndValue(ValueVerb),
    /// `key value [option ..]`
    KeyValueOptions,
    /// `key number`
    KeyAndNumber(NumberVerb),
    /// `key offset value`
    KeyOffsetValue,
    /// `key start end`
    KeyStartEnd,
    /// `key newkey`
    TwoKeys,
    /// `key [key ..]`
    SomeKeys(KeysVerb),
    /// `key value [key value ..]`
    SomeSettings(SettingsVerb),
    /// `[text]`
    OptionalText,
    /// `text`
    OneText,
    /// `key [key ..]` of WATCH
    WatchedKeys,
    /// Nothing.
    Alone(LoneVerb),
    /// Any words: no command has the name.
    Unknown,
}

impl Shape {
    /// The command that these words after the name are, or why they are none. The shapes that are
    /// read most stand here, and the others apart, so that this function stays small.
    pub(crate) fn read(
        self,
        alloc: Global,
        arguments: &[Word],
    ) -> Result<Result<Command, Refusal>, OutOfMemory>
        ensures exact { IfOk result (λ command. command ≡ shaped self arguments.now) }
        ensures memory { AsksNoMemory (shaped self arguments.now) → IsOk result }
    {
        match self {
            Shape::OneKey(KeyVerb::Get) => get(alloc, arguments),
            Shape::OneKey(verb) => one_key(alloc, verb, arguments),
            Shape::KeyValueOptions => key_value_options(alloc, arguments),
            Shape::OptionalText => optional_text(alloc, arguments),
            other => other.read_seldom(alloc, arguments),
        }
    }

    /// What [`read`](Shape::read) says, for any shape.
    #[inline(never)]
    fn read_seldom(
        self,
        alloc: Global,
        arguments: &[Word],
    ) -> Result<Result<Command, Refusal>, OutOfMemory>
        ensures exact { IfOk result (λ command. command ≡ shaped self arguments.now) }
        ensures memory { AsksNoMemory (shaped self arguments.now) → IsOk result }
    {
        match self {
            Shape::OneKey(verb) => one_key(alloc, verb, arguments),
            Shape::KeyAndValue(verb) => key_and_value(alloc, verb, arguments),
            Shape::KeyValueOptions => key_value_options(alloc, arguments),
            Shape::KeyAndNumber(verb) => key_and_number(alloc, verb, arguments),
            Shape::KeyOffsetValue => key_offset_value(alloc, arguments),
            Shape::KeyStartEnd => key_start_end(alloc, arguments),
            Shape::TwoKeys => two_keys(alloc, arguments),
            Shape::SomeKeys(verb) => some_keys(alloc, verb, arguments),
            Shape::SomeSettings(verb) => some_settings(alloc, verb, arguments),
            Shape::OptionalText => optional_text(alloc, arguments),
            Shape::OneText => one_text(alloc, arguments),
            Shape::WatchedKeys => watched_keys(alloc, arguments),
            Shape::Alone(verb) => Ok(alone(verb, arguments)),
            Shape::Unknown => Ok(Err(Refusal::UnknownCommand)),
        }
    }
}

impl KeyVerb {
    fn with(self, key: Word) -> Command
        ensures { result ≡ of_key_verb self key }
    {
        match self {
            KeyVerb::Get => Command::Get(key),
            KeyVerb::GetDel => Command::GetDel(key),
            KeyVerb::StrLen => Command::StrLen(key),
            KeyVerb::Increment => Command::Add(key, 1),
            KeyVerb::Decrement => Command::Subtract(key, 1),
        }
    }
}

impl ValueVerb {
    fn with(self, key: Word, value: Word) -> Command
        ensures { result ≡ of_value_verb self key value }
    {
        match self {
            ValueVerb::SetNx => Command::SetNx(key, value),
            ValueVerb::GetSet => Command::GetSet(key, value),
            ValueVerb::Append => Command::Append(key, value),
        }
    }
}

impl NumberVerb {
    fn with(self, key: Word, number: i64) -> Command
        ensures { result ≡ of_number_verb self key number }
    {
        match self {
            NumberVerb::Add => Command::Add(key, number),
            NumberVerb::Subtract => Command::Subtract(key, number),
        }
    }
}

impl KeysVerb {
    fn with(self, keys: Keys) -> Command
        ensures { result ≡ of_keys_verb self keys }
    {
        match self {
            KeysVerb::Exists => Command::Exists(keys),
            KeysVerb::Del => Command::Del(keys),
            KeysVerb::MGet => Command::MGet(keys),
        }
    }
}

impl SettingsVerb {
    fn with(self, settings: Settings) -> Command
        ensures { result ≡ of_settings_verb self settings }
    {
        match self {
            SettingsVerb::MSet => Command::MSet(settings),
            SettingsVerb::MSetNx => Command::MSetNx(settings),
        }
    }
}

impl LoneVerb {
    fn with(self) -> SessionCommand
        ensures { result ≡ of_lone_verb self }
    {
        match self {
            LoneVerb::Multi => SessionCommand::Multi,
            LoneVerb::Exec => SessionCommand::Exec,
            LoneVerb::Discard => SessionCommand::Discard,
            LoneVerb::Unwatch => SessionCommand::Unwatch,
            LoneVerb::Quit => SessionCommand::Quit,
        }
    }
}

/// Whether a key has more bytes than a key may have.
pub(crate) fn is_long(key: &Word) -> bool
    ensures { result ≡ commands.is_long key.now }
{
    key.len() > KEY_BYTES_MAX
}

/// A copy of a word. It takes memory only where the word has more than `WORD_INLINE` bytes.
pub(crate) fn copy(alloc: Global, word: &Word) -> Result<Word, OutOfMemory>
    ensures same { IfOk result (λ copy. copy ≡ word.now) }
    ensures memory { IsInline word.now → IsOk result }
{
    Word::from_slice(alloc, word.as_slice())
}

/// The refusal of a request with another number of words.
#[cold]
#[inline(never)]
fn wrong_arity() -> Result<Result<Command, Refusal>, OutOfMemory>
    ensures { result ≡ Ok (Err Refusal.WrongArity) }
{
    Ok(Err(Refusal::WrongArity))
}

/// A command that its words show to be refused.
#[cold]
#[inline(never)]
fn bad(refusal: Refusal) -> Result<Result<Command, Refusal>, OutOfMemory>
    ensures { result ≡ Ok (Ok (Command.Bad refusal)) }
{
    Ok(Ok(Command::Bad(refusal)))
}

/// Nothing.
fn alone(verb: LoneVerb, arguments: &[Word]) -> Result<Command, Refusal>
    ensures { result ≡ commands.alone (of_lone_verb verb) arguments.now }
{
    match arguments {
        [] => Ok(Command::Session(verb.with())),
        _ => Err(Refusal::WrongArity),
    }
}

/// A PING with this text.
fn ping_with(alloc: Global, text: &Word) -> Result<Result<Command, Refusal>, OutOfMemory>
    ensures exact { IfOk result (λ command. command ≡ Ok (Command.Ping (Some text.now))) }
    ensures memory { IsInline text.now → IsOk result }
{
    let Ok(text) = copy(alloc, text) else {
        return Err(AllocError);
    };
    Ok(Ok(Command::Ping(Some(text))))
}

/// `[text]`
fn optional_text(alloc: Global, arguments: &[Word]) -> Result<Result<Command, Refusal>, OutOfMemory>
    ensures exact { IfOk result (λ command. command ≡ commands.optional_text Command.Ping arguments.now) }
    ensures memory { AsksNoMemory (commands.optional_text Command.Ping arguments.now) → IsOk result }
{
    if let [text] = arguments {
        return ping_with(alloc, text);
    }
    if !arguments.is_empty() {
        return wrong_arity();
    }
    Ok(Ok(Command::Ping(None)))
}

/// `text`
fn one_text(alloc: Global, arguments: &[Word]) -> Result<Result<Command, Refusal>, OutOfMemory>
    ensures exact { IfOk result (λ command. command ≡ commands.one_text Command.Echo arguments.now) }
    ensures memory { AsksNoMemory (commands.one_text Command.Echo arguments.now) → IsOk result }
{
    match arguments {
        [text] => Ok(Ok(Command::Echo(copy(alloc, text)?))),
        _ => Ok(Err(Refusal::WrongArity)),
    }
}

/// `key` of GET: as [`one_key`], with fewer copies for the command that is read most
fn get(alloc: Global, arguments: &[Word]) -> Result<Result<Command, Refusal>, OutOfMemory>
    ensures exact { IfOk result (λ command. command ≡ commands.one_key Command.Get arguments.now) }
    ensures memory { AsksNoMemory (commands.one_key Command.Get arguments.now) → IsOk result }
{
    let [key] = arguments else {
        return wrong_arity();
    };
    if is_long(key) {
        return bad(Refusal::KeyTooLong);
    }
    let Ok(key) = copy(alloc, key) else {
        return Err(AllocError);
    };
    Ok(Ok(Command::Get(key)))
}

/// `key`
fn one_key(
    alloc: Global,
    verb: KeyVerb,
    arguments: &[Word],
) -> Result<Result<Command, Refusal>, OutOfMemory>
    ensures exact { IfOk result (λ command. command ≡ commands.one_key (of_key_verb verb) arguments.now) }
    ensures memory { AsksNoMemory (commands.one_key (of_key_verb verb) arguments.now) → IsOk result }
{
    let [key] = arguments else {
        return wrong_arity();
    };
    if is_long(key) {
        return bad(Refusal::KeyTooLong);
    }
    let Ok(key) = copy(alloc, key) else {
        return Err(AllocError);
    };
    Ok(Ok(verb.with(key)))
}

/// `key value`
fn key_and_value(
    alloc: Global,
    verb: ValueVerb,
    arguments: &[Word],
) -> Result<Result<Command, Refusal>, OutOfMemory>
    ensures exact { IfOk result (λ command. command ≡ commands.key_and_value (of_value_verb verb) arguments.now) }
    ensures memory { AsksNoMemory (commands.key_and_value (of_value_verb verb) arguments.now) → IsOk result }
{
    match arguments {
        [key, _] if is_long(key) => Ok(Ok(Command::Bad(Refusal::KeyTooLong))),
        [key, value] => Ok(Ok(verb.with(copy(alloc, key)?, copy(alloc, value)?))),
        _ => Ok(Err(Refusal::WrongArity)),
    }
}

/// When a SET is done for which a word NX or XX stands before others that ask for this, if none of
/// them is such a word too.
fn once(when: When, others: When) -> Option<When>
    ensures { result ≡ commands.once when others }
{
    match others {
        When::Always => Some(when),
        _ => None,
    }
}

/// What the option words of a SET ask for, where the first is this one, and the others ask for that:
/// when it is done, and whether it answers the old value.
fn with_option(option: &Word, when: When, answers_old: bool) -> Option<(When, bool)>
    ensures { result ≡ commands.with_option option.now (when, answers_old) }
{
    let option = option.as_slice();
    if b"GET".eq_ignore_ascii_case(option) {
        if answers_old {
            return None;
        }
        return Some((when, true));
    }
    if b"NX".eq_ignore_ascii_case(option) {
        return Some((once(When::IfMissing, when)?, answers_old));
    }
    if b"XX".eq_ignore_ascii_case(option) {
        return Some((once(When::IfPresent, when)?, answers_old));
    }
    None
}

/// What the option words of a SET ask for, if they are ones that it takes: when it is done, and whether
/// it answers the old value.
fn options_of(options: &[Word]) -> Option<(When, bool)>
    ensures { result ≡ commands.options_of options.now }
{
    match options {
        [] => Some((When::Always, false)),
        [option, others @ ..] => {
            let (when, answers_old) = options_of(others)?;
            with_option(option, when, answers_old)
        }
    }
}

/// `key value [option ..]`
fn key_value_options(
    alloc: Global,
    arguments: &[Word],
) -> Result<Result<Command, Refusal>, OutOfMemory>
    ensures exact { IfOk result (λ command. command ≡ commands.key_value_options arguments.now) }
    ensures memory { AsksNoMemory (commands.key_value_options arguments.now) → IsOk result }
{
    let [key, value, options @ ..] = arguments else {
        return wrong_arity();
    };
    if is_long(key) {
        return bad(Refusal::KeyTooLong);
    }
    let Some((when, answers_old)) = options_of(options) else {
        return bad(Refusal::Syntax);
    };
    let Ok(key) = copy(alloc, key) else {
        return Err(AllocError);
    };
    let Ok(value) = copy(alloc, value) else {
        return Err(AllocError);
    };
    if answers_old {
        return Ok(Ok(Command::SetGet(key, value, when)));
    }
    Ok(Ok(Command::Set(key, value, when)))
}

/// `key number`
fn key_and_number(
    alloc: Global,
    verb: NumberVerb,
    arguments: &[Word],
) -> Result<Result<Command, Refusal>, OutOfMemory>
    ensures exact { IfOk result (λ command. command ≡ commands.key_and_number (of_number_verb verb) arguments.now) }
    ensures memory { AsksNoMemory (commands.key_and_number (of_number_verb verb) arguments.now) → IsOk result }
{
    match arguments {
        [key, _] if is_long(key) => Ok(Ok(Command::Bad(Refusal::KeyTooLong))),
        [key, text] => match number::parse(text.as_slice()) {
            Some(number) => Ok(Ok(verb.with(copy(alloc, key)?, number))),
            None => Ok(Ok(Command::Bad(Refusal::NotAnInteger))),
        },
        _ => Ok(Err(Refusal::WrongArity)),
    }
}

/// `key offset value`
fn key_offset_value(
    alloc: Global,
    arguments: &[Word],
) -> Result<Result<Command, Refusal>, OutOfMemory>
    ensures exact { IfOk result (λ command. command ≡ commands.key_offset_value arguments.now) }
    ensures memory { AsksNoMemory (commands.key_offset_value arguments.now) → IsOk result }
{
    match arguments {
        [key, _, _] if is_long(key) => Ok(Ok(Command::Bad(Refusal::KeyTooLong))),
        [key, text, value] => match number::parse(text.as_slice()) {
            Some(offset) if offset < 0 => Ok(Ok(Command::Bad(Refusal::OffsetOutOfRange))),
            Some(offset) => {
                let key = copy(alloc, key)?;
                Ok(Ok(Command::SetRange(key, offset as u64, copy(alloc, value)?)))
            }
            None => Ok(Ok(Command::Bad(Refusal::NotAnInteger))),
        },
        _ => Ok(Err(Refusal::WrongArity)),
    }
}

/// `key start end`
fn key_start_end(alloc: Global, arguments: &[Word]) -> Result<Result<Command, Refusal>, OutOfMemory>
    ensures exact { IfOk result (λ command. command ≡ commands.key_start_end arguments.now) }
    ensures memory { AsksNoMemory (commands.key_start_end arguments.now) → IsOk result }
{
    match arguments {
        [key, _, _] if is_long(key) => Ok(Ok(Command::Bad(Refusal::KeyTooLong))),
        [key, start, end] => {
            let Some(start) = number::parse(start.as_slice()) else {
                return Ok(Ok(Command::Bad(Refusal::NotAnInteger)));
            };
            let Some(end) = number::parse(end.as_slice()) else {
                return Ok(Ok(Command::Bad(Refusal::NotAnInteger)));
            };
            Ok(Ok(Command::GetRange(copy(alloc, key)?, start, end)))
        }
        _ => Ok(Err(Refusal::WrongArity)),
    }
}

/// Whether one of these keys has more bytes than a key may have.
pub(crate) fn any_long(keys: &[Word]) -> bool
    ensures { result ≡ commands.any_long keys.now }
{
    match keys {
        [] => false,
        [key, others @ ..] => is_long(key) || any_long(others),
    }
}

/// Copies of these words.
pub(crate) fn copies(alloc: Global, words: &[Word]) -> Result<Keys, OutOfMemory>
    ensures { IfOk result (λ copies. copies ≡ words.now) }
{
    let mut copies = Vec::with_capacity(alloc, words.len())?;
    for word in words {
        copies.push(copy(alloc, word)?)?;
    }
    Ok(Sequence::from_vec(copies))
}

/// `key newkey`
fn two_keys(alloc: Global, arguments: &[Word]) -> Result<Result<Command, Refusal>, OutOfMemory>
    ensures exact { IfOk result (λ command. command ≡ commands.two_keys Command.Rename arguments.now) }
    ensures memory { AsksNoMemory (commands.two_keys Command.Rename arguments.now) → IsOk result }
{
    match arguments {
        [_, _] if any_long(arguments) => Ok(Ok(Command::Bad(Refusal::KeyTooLong))),
        [key, name] => Ok(Ok(Command::Rename(copy(alloc, key)?, copy(alloc, name)?))),
        _ => Ok(Err(Refusal::WrongArity)),
    }
}

/// `key [key ..]`
fn some_keys(
    alloc: Global,
    verb: KeysVerb,
    arguments: &[Word],
) -> Result<Result<Command, Refusal>, OutOfMemory>
    ensures exact { IfOk result (λ command. command ≡ commands.some_keys (of_keys_verb verb) arguments.now) }
    ensures memory { AsksNoMemory (commands.some_keys (of_keys_verb verb) arguments.now) → IsOk result }
{
    if arguments.is_empty() {
        return Ok(Err(Refusal::WrongArity));
    }
    if any_long(arguments) {
        return Ok(Ok(Command::Bad(Refusal::KeyTooLong)));
    }
    Ok(Ok(verb.with(copies(alloc, arguments)?)))
}

/// `key [key ..]` of WATCH
fn watched_keys(alloc: Global, arguments: &[Word]) -> Result<Result<Command, Refusal>, OutOfMemory>
    ensures exact { IfOk result (λ command. command ≡ commands.watched_keys arguments.now) }
    ensures memory { AsksNoMemory (commands.watched_keys arguments.now) → IsOk result }
{
    if arguments.is_empty() {
        return Ok(Err(Refusal::WrongArity));
    }
    let keys = copies(alloc, arguments)?;
    Ok(Ok(Command::Session(SessionCommand::Watch(keys))))
}

/// Whether one of the keys of these settings has more bytes than a key may have; `None` where the words
/// are no settings, since their number is odd.
fn any_key_long(words: &[Word]) -> Option<bool>
    ensures { result ≡ any_long_set (in_pairs words.now) }
{
    match words {
        [] => Some(false),
        [_] => None,
        [key, _, others @ ..] => {
            let long = any_key_long(others)?;
            Some(is_long(key) || long)
        }
    }
}

/// Adds copies of these words, each with the one after it. A last one that has none is left out.
pub(crate) fn add_settings(
    alloc: Global,
    settings: &mut Vec<(Word, Word)>,
    words: &[Word],
) -> Result<(), OutOfMemory>
    ensures settings { OnOk result (Adds settings.old.items (in_pairs words.now) settings.new.items) }
    ensures pairs { OnOk result (settings.new.items ≡ settings.old.items ++ pairs_of words.now) }
{
    if let [key, value, others @ ..] = words {
        settings.push((copy(alloc, key)?, copy(alloc, value)?))?;
        add_settings(alloc, settings, others)?;
    }
    Ok(())
}

/// `key value [key value ..]`
fn some_settings(
    alloc: Global,
    verb: SettingsVerb,
    arguments: &[Word],
) -> Result<Result<Command, Refusal>, OutOfMemory>
    ensures exact { IfOk result (λ command. command ≡ commands.some_settings (of_settings_verb verb) arguments.now) }
    ensures memory { AsksNoMemory (commands.some_settings (of_settings_verb verb) arguments.now) → IsOk result }
{
    if arguments.is_empty() {
        return Ok(Err(Refusal::WrongArity));
    }
    match any_key_long(arguments) {
        None => Ok(Err(Refusal::WrongArity)),
        Some(true) => Ok(Ok(Command::Bad(Refusal::KeyTooLong))),
        Some(false) => {
            let mut settings = Vec::with_capacity(alloc, arguments.len() / 2)?;
            add_settings(alloc, &mut settings, arguments)?;
            Ok(Ok(verb.with(Sequence::from_vec(settings))))
        }
    }
}
