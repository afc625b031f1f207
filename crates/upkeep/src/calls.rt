//! What a thread of the background hears, says and does beside the stripes: calls, with their answers.

ghost use Rattle.std.specs.Prelude.{◌≡◌, ◌∷◌, []};

use std::marker::Model;
use std::snapshot::Snapshot;

/// One call of a thread's [`Surroundings`](crate::Surroundings), with its answer.
#[derive(Clone, Copy, Debug, PartialEq, Eq)]
pub enum Call {
    /// Whether serving is over.
    IsOver(bool),
    /// Whether no connection is served.
    IsIdle(bool),
    /// A rest of so many milliseconds.
    Rest(u64),
    /// That the cleaner is behind those who write, or is not.
    TellBehind(bool),
}

/// The calls that were made so far. To a contract they are a list, the newest first. They are not stored.
#[derive(Drop)]
pub struct Calls {
    last: Made,
}

// A call, and those before it.
#[derive(Drop)]
enum Made {
    Nothing,
    After(Snapshot<Call>, Snapshot<Made>),
}

impl Model for Calls {
    ghost use Rattle.std.specs.Prelude.{List};
    ghost use Rattle.upkeep.specs.Calls.{calls_in};
    ghost use Rattle.upkeep.specs.declared.calls.Call.{Call};

    ghost Value = { List Call };

    ghost view = { λ c. calls_in c.last };
}

impl Calls {
    /// None was made.
    pub fn new() -> Calls
        ensures { result ≡ [] }
    {
        Calls {
            last: Made::Nothing,
        }
    }

    /// Notes a call.
    pub fn note(&mut self, call: Call)
        ensures { self.new ≡ call ∷ self.old }
    {
        let earlier = Snapshot::of(&self.last);
        self.last = Made::After(Snapshot::of(&call), earlier);
    }
}
