//! Which keys a command names.

ghost use Rattle.std.specs.Prelude.{◌≡◌, ◌<◌, length, slice_get, Some};
ghost use Rattle.words.specs.Commands.{keys_of};

use words::command::Command;
use words::word::Word;

/// How many keys a command names, one that is named twice counting twice.
pub fn key_count(command: &Command) -> usize
    ensures { result ≡ length (keys_of command.now) }
{
    match command {
        Command::Ping(_) | Command::Echo(_) | Command::Session(_) | Command::Bad(_) => 0,
        Command::Exists(keys) | Command::Del(keys) | Command::MGet(keys) => keys.as_slice().len(),
        Command::MSet(settings) | Command::MSetNx(settings) => settings.as_slice().len(),
        Command::Rename(_, _) => 2,
        _ => 1,
    }
}

/// The key at a place, from 0 on, in the order in which the command names its keys.
pub fn key_at(command: &Command, place: usize) -> &Word
    requires { place < length (keys_of command.now) }
    ensures { slice_get (keys_of command.now) place ≡ Some result.now }
{
    match command {
        Command::Get(key)
        | Command::Set(key, _, _)
        | Command::SetGet(key, _, _)
        | Command::SetNx(key, _)
        | Command::GetSet(key, _)
        | Command::GetDel(key)
        | Command::StrLen(key)
        | Command::Append(key, _)
        | Command::SetRange(key, _, _)
        | Command::GetRange(key, _, _)
        | Command::Add(key, _)
        | Command::Subtract(key, _) => key,
        Command::Rename(key, name) => { if place == 0 { key } else { name } }
        Command::Exists(keys) | Command::Del(keys) | Command::MGet(keys) => {
            &keys.as_slice()[place]
        }
        Command::MSet(settings) | Command::MSetNx(settings) => &settings.as_slice()[place].0,
        Command::Ping(_) | Command::Echo(_) | Command::Session(_) | Command::Bad(_) => {
            unreachable!()
        }
    }
}
