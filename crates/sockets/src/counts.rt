//! How often something was done.

ghost use Rattle.std.specs.Prelude.{◌≡◌, ◌+◌};

use std::marker::Model;
use std::snapshot::Snapshot;

/// How often something was done so far. To a contract it is a number.
///
/// Contracts alone see the number. It has no greatest one, so one more can always be counted, as it could not in a `u64`, and it
/// is not stored.
#[derive(Drop)]
pub(crate) struct Count {
    last: Once,
}

// Once more, and what was before.
#[derive(Drop)]
enum Once {
    Nothing,
    After(Snapshot<Once>),
}

impl Model for Count {
    ghost use Rattle.std.specs.Prelude.{ℕ};
    ghost use Rattle.sockets.specs.Counts.{count_in};

    ghost Value = { ℕ };

    ghost view = { λ c. count_in c.last };
}

impl Count {
    /// Nothing was done yet.
    pub(crate) fn new() -> Count
        ensures { result ≡ 0 }
    {
        Count {
            last: Once::Nothing,
        }
    }

    /// Counts once more.
    pub(crate) fn note(&mut self)
        ensures { self.new ≡ self.old + 1 }
    {
        let earlier = Snapshot::of(&self.last);
        self.last = Once::After(earlier);
    }
}
