// How often an opening was called.

ghost use Rattle.std.specs.Prelude.{◌≡◌, ◌+◌};

use std::marker::Model;
use std::snapshot::Snapshot;

/// How many calls of one kind an opening has had, for a device of one's own: its writes, its releases, or
/// the calls that failed. To a contract it is a number.
///
/// Contracts alone see the number. It has no greatest one, so a call can always be counted, as it could
/// not in a `u64`, and it is not stored.
#[derive(Drop)]
pub struct CallCount {
    last: Call,
}

// A call and those before it.
#[derive(Drop)]
enum Call {
    Nothing,
    After(Snapshot<Call>),
}

impl Model for CallCount {
    ghost use Rattle.std.specs.Prelude.{ℕ};

    ghost Value = { ℕ };

    ghost use Rattle.device.specs.Counts.{count_of};

    ghost view = { λ c. count_of c.last };
}

impl CallCount {
    /// No call yet.
    pub fn new() -> CallCount
        ensures { result ≡ 0 }
    {
        CallCount {
            last: Call::Nothing,
        }
    }

    /// Counts one more call.
    pub fn note(&mut self)
        ensures { self.new ≡ self.old + 1 }
    {
        let earlier = Snapshot::of(&self.last);
        self.last = Call::After(earlier);
    }
}
