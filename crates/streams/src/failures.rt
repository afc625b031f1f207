//! How often a stream failed.

ghost use Rattle.std.specs.Prelude.{◌≡◌, ◌+◌};

use std::fmt;
use std::marker::Model;
use std::snapshot::Snapshot;

/// How many calls of a stream failed. To a contract it is a number.
///
/// Contracts alone see the number. It has no greatest one, so a failure can always be counted, as it could not
/// in a `u64`, and it is not stored.
#[derive(Drop)]
pub(crate) struct FailureCount {
    last: Failures,
}

// A failure and those before it.
#[derive(Drop)]
enum Failures {
    Nothing,
    After(Snapshot<Failures>),
}

impl Model for FailureCount {
    ghost use Rattle.std.specs.Prelude.{ℕ};
    ghost use Rattle.streams.specs.Failures.{count_of};

    ghost Value = { ℕ };

    ghost view = { λ count. count_of count.last };
}

impl FailureCount {
    /// No failure yet.
    pub(crate) fn new() -> FailureCount
        ensures { result ≡ 0 }
    {
        FailureCount {
            last: Failures::Nothing,
        }
    }

    /// Counts one more failure.
    pub(crate) fn note(&mut self)
        ensures { self.new ≡ self.old + 1 }
    {
        let earlier = Snapshot::of(&self.last);
        self.last = Failures::After(earlier);
    }
}

impl fmt::Debug for FailureCount {
    ghost use Rattle.std.specs.Prelude.{Some, codes};

    ghost debug_output = { λ _. Some (codes "FailureCount") };

    fn fmt<W: fmt::Write>(&self, f: &mut fmt::Formatter<W>) -> fmt::Result {
        write!(f, "FailureCount")
    }
}
