//! A call with the hash of its key.

ghost use Rattle.std.specs.Prelude.{◌≡◌, ◌≤◌, ◌∷◌, [], IfSome};
ghost use Rattle.words.specs.Commands.{keys_of};
ghost use Rattle.gates.specs.Sets.{AreBelow};
ghost use Rattle.transact.specs.Calls.{call_keys};
ghost use Rattle.transact.specs.Plans.{stripes_with};

use gates::{Asks, Sorted};
use std::marker::Model;
use strings::keys::{key_at, key_count};
use transact::call::Call;
use transact::stripes::{keys_of, stripe_of_key};
use words::command::Command;
use words::hash::Hashed;

/// A call, with its key and the hash of it if it names one key alone: the stripe that is taken, the lookup and the write go by
/// that hash, which is computed once. Contracts see it as the call.
#[derive(Drop)]
pub struct HashedCall<'a> {
    /// The call.
    pub call: &'a Call,
    /// The one key that it names, as [`key_of`] tells it.
    pub key: Option<Hashed<'a>>,
}

impl<'a> Model for HashedCall<'a> {
    ghost use Rattle.std.specs.Prelude.{◌≡◌, ◌∷◌, [], IfSome};
    ghost use Rattle.transact.specs.Calls.{call_keys};
    ghost use Rattle.transact.specs.declared.call.Call.{Call};

    ghost Value = { Call };

    ghost view = { λ hashed. hashed.call.now };

    ghost invariant = { λ hashed. IfSome hashed.key (λ key. call_keys hashed.call.now ≡ key ∷ []) };
}

impl Asks for HashedCall<'_> {
    ghost use Rattle.transact.specs.Submits.{asked_for};

    ghost asked = { asked_for };
}

impl HashedCall<'_> {
    /// The call.
    #[inline]
    pub fn call(&self) -> &Call
        ensures { result.now ≡ self.now }
    {
        self.call
    }

    /// The stripes of the keys that the call names, of this many, those that its session watches among them where it ends
    /// their watches. It takes no memory.
    pub fn stripes(&self, count: usize) -> Sorted
        requires some { 1 ≤ count }
        requires most { count ≤ 64 }
        ensures exact { result ≡ stripes_with count [] (call_keys self.now) }
        ensures below { AreBelow count result }
    {
        match &self.key {
            Some(key) => stripe_of_key(key, count),
            None => keys_of(self.call, count),
        }
    }
}

/// The key of a call that names one alone. It is hashed here.
pub fn key_of(call: &Call) -> Option<Hashed<'_>>
    ensures { IfSome result (λ key. call_keys call.entry.now ≡ key ∷ []) }
{
    match call {
        Call::One(command) => key_of_command(command),
        Call::Watch(_) | Call::Exec(_, _) | Call::Forget(_) => None,
    }
}

/// The key of a command that names one alone.
fn key_of_command(command: &Command) -> Option<Hashed<'_>>
    ensures { IfSome result (λ key. keys_of command.entry.now ≡ key ∷ []) }
{
    if key_count(command) == 1 {
        Some(Hashed::new(key_at(command, 0)))
    } else {
        None
    }
}
