//! The stripes that a call needs.

ghost use Rattle.std.specs.Prelude.{◌≡◌, ◌≤◌, ◌∷◌, []};
ghost use Rattle.words.specs.Briefs.{pairs_of};
ghost use Rattle.words.specs.Commands as table;
ghost use Rattle.gates.specs.Sets.{AreBelow};
ghost use Rattle.transact.specs.Calls.{call_keys};
ghost use Rattle.transact.specs.Plans.{stripes_with};

use crate::call::Call;
use gates::Sorted;
use strings::keys::{key_at, key_count};
use words::command::Command;
use words::hash::{Hashed, stripe_of};
use words::word::Word;

/// The stripes of the keys that a call names, those that its session watches among them where it ends
/// their watches. It takes no memory.
pub fn keys_of(call: &Call, stripes: usize) -> Sorted
    requires some { 1 ≤ stripes }
    requires most { stripes ≤ 64 }
    ensures exact { result ≡ stripes_with stripes [] (call_keys call.now) }
    ensures below { AreBelow stripes result }
{
    match call {
        Call::One(command) => with_command(Sorted::none(), command, stripes),
        Call::Watch(keys) => stripes_of_keys(keys.as_slice(), stripes),
        Call::Exec(commands, watching) => with_keys(
            with_commands(Sorted::none(), commands.as_slice(), stripes),
            watching.keys(),
            stripes,
        ),
        Call::Forget(watching) => stripes_of_keys(watching.keys(), stripes),
    }
}

/// The stripes of these keys.
pub fn stripes_of_keys(keys: &[Word], stripes: usize) -> Sorted
    requires some { 1 ≤ stripes }
    requires most { stripes ≤ 64 }
    ensures exact { result ≡ stripes_with stripes [] keys.now }
    ensures below { AreBelow stripes result }
{
    with_keys(Sorted::none(), keys, stripes)
}

/// The stripes of these keys, each of which has its value behind it.
pub fn stripes_of_settings(words: &[Word], stripes: usize) -> Sorted
    requires some { 1 ≤ stripes }
    requires most { stripes ≤ 64 }
    ensures exact { result ≡ stripes_with stripes [] (table.keys_set (pairs_of words.now)) }
    ensures below { AreBelow stripes result }
{
    with_settings(Sorted::none(), words, stripes)
}

/// The stripe of a key alone.
pub fn stripe_of_key(key: &Hashed, stripes: usize) -> Sorted
    requires some { 1 ≤ stripes }
    requires most { stripes ≤ 64 }
    ensures exact { result ≡ stripes_with stripes [] (key.now ∷ []) }
    ensures below { AreBelow stripes result }
{
    Sorted::none().with(key.stripe_of(stripes))
}

/// The set with the stripe of a key.
fn with_key(set: Sorted, key: &Word, stripes: usize) -> Sorted
    requires some { 1 ≤ stripes }
    requires most { stripes ≤ 64 }
    requires below { AreBelow stripes set }
    ensures exact { result ≡ stripes_with stripes set (key.now ∷ []) }
    ensures below { AreBelow stripes result }
{
    set.with(stripe_of(key.as_slice(), stripes))
}

/// The set with the stripes of these keys.
fn with_keys(set: Sorted, keys: &[Word], stripes: usize) -> Sorted
    requires some { 1 ≤ stripes }
    requires most { stripes ≤ 64 }
    requires below { AreBelow stripes set }
    ensures exact { result ≡ stripes_with stripes set keys.now }
    ensures below { AreBelow stripes result }
{
    match keys {
        [] => set,
        [key, others @ ..] => with_keys(with_key(set, key, stripes), others, stripes),
    }
}

/// The set with the stripes of these keys, each of which has its value behind it.
fn with_settings(set: Sorted, words: &[Word], stripes: usize) -> Sorted
    requires some { 1 ≤ stripes }
    requires most { stripes ≤ 64 }
    requires below { AreBelow stripes set }
    ensures exact { result ≡ stripes_with stripes set (table.keys_set (pairs_of words.now)) }
    ensures below { AreBelow stripes result }
{
    match words {
        [] => set,
        [_] => set,
        [key, _, others @ ..] => with_settings(with_key(set, key, stripes), others, stripes),
    }
}

/// The set with the stripes of a command's keys.
fn with_command(set: Sorted, command: &Command, stripes: usize) -> Sorted
    requires some { 1 ≤ stripes }
    requires most { stripes ≤ 64 }
    requires below { AreBelow stripes set }
    ensures exact { result ≡ stripes_with stripes set (table.keys_of command.now) }
    ensures below { AreBelow stripes result }
{
    let mut all = set;
    for place in 0..key_count(command) {
        all = with_key(all, key_at(command, place), stripes);
    }
    all
}

/// The set with the stripes of the keys of these commands.
fn with_commands(set: Sorted, commands: &[Command], stripes: usize) -> Sorted
    requires some { 1 ≤ stripes }
    requires most { stripes ≤ 64 }
    requires below { AreBelow stripes set }
    ensures exact { result ≡ stripes_with stripes set (table.keys_of_all commands.now) }
    ensures below { AreBelow stripes result }
{
    let Some((command, others)) = commands.split_first() else {
        return set;
    };
    with_commands(with_command(set, command, stripes), others, stripes)
}
