//! What a command wants to know of its keys.

ghost use Rattle.std.specs.Prelude.{◌≡◌, ◌∷◌, [], Some, slice_get};
ghost use Rattle.words.specs.declared.command.Command.TheVariants.{MGet};
ghost use Rattle.words.specs.Commands.{keys_of};
ghost use Rattle.plans.specs.Finding.{ReadsNothing};
ghost use Rattle.plans.specs.Running.{AsksPresence, MatchLooks, ReadsOne};

use words::command::{Command, When};
use words::locality::depends_on_named_keys;
use words::word::Word;

/// What a command looks at.
#[derive(Clone, Copy, Debug)]
pub(crate) enum Looks<'a> {
    /// Nothing: it answers and writes the same whatever its keys have.
    AtNothing,
    /// The value of this key, which it names first.
    AtValue(&'a Word),
    /// The values of these keys: it answers them, and is an MGET.
    AtItems(&'a [Word]),
    /// Which of its keys are there, and not at their values.
    AtPresence,
}

/// What a command looks at.
pub(crate) fn looks_of(command: &Command) -> Looks<'_>
    ensures { MatchLooks result (ReadsNothing command.now)
        (λ key. ReadsOne key command.now × (slice_get (keys_of command.now) 0 ≡ Some key)) (λ keys. command.now ≡ MGet keys) (AsksPresence command.now) }
{
    depends_on_named_keys();
    match command {
        Command::Ping(_) => Looks::AtNothing,
        Command::Echo(_) => Looks::AtNothing,
        Command::Session(_) => Looks::AtNothing,
        Command::Bad(_) => Looks::AtNothing,
        Command::MSet(_) => Looks::AtNothing,
        Command::Set(key, _, when) => match when {
            When::Always => Looks::AtNothing,
            When::IfMissing | When::IfPresent => Looks::AtValue(key),
        },
        Command::Get(key) => Looks::AtValue(key),
        Command::SetGet(key, _, _) => Looks::AtValue(key),
        Command::SetNx(key, _) => Looks::AtValue(key),
        Command::GetSet(key, _) => Looks::AtValue(key),
        Command::GetDel(key) => Looks::AtValue(key),
        Command::StrLen(key) => Looks::AtValue(key),
        Command::Append(key, _) => Looks::AtValue(key),
        Command::SetRange(key, _, _) => Looks::AtValue(key),
        Command::GetRange(key, _, _) => Looks::AtValue(key),
        Command::Add(key, _) => Looks::AtValue(key),
        Command::Subtract(key, _) => Looks::AtValue(key),
        Command::Rename(key, _) => Looks::AtValue(key),
        Command::MGet(keys) => Looks::AtItems(keys.as_slice()),
        Command::Exists(_) => Looks::AtPresence,
        Command::Del(_) => Looks::AtPresence,
        Command::MSetNx(_) => Looks::AtPresence,
    }
}
