//! How long a read waits for the cleaner of the store.

ghost use Rattle.std.specs.Prelude.{◌≡◌, ◌+◌, ℕ};
ghost use Rattle.sockets.specs.Pausing.{count_of, pauses, HasPaused};

use crate::counts::Count;
use crate::serving::Serving;
use std::rt::Clock;
use std::thread::sleep;
use std::time::Duration;

/// For how many milliseconds a read waits at most for the cleaner, one at a time.
const PAUSES_MAX: u32 = 20;

/// Who is waited for.
pub(crate) trait Awaited {
    // How often it was asked so far whether it is behind.
    ghost asked: { Self → ℕ };

    // How often it was said so far that it is behind.
    ghost told: { Self → ℕ };

    // How many milliseconds it was waited for.
    ghost waited: { Self → ℕ };

    /// Whether it is behind those who write.
    fn is_behind(&mut self) -> bool
        ensures asked { asked self.new ≡ asked self.old + 1 }
        ensures told { told self.new ≡ told self.old + count_of result }
        ensures waited { waited self.new ≡ waited self.old };

    /// Waits for a millisecond.
    fn wait(&mut self)
        ensures asked { asked self.new ≡ asked self.old }
        ensures told { told self.new ≡ told self.old }
        ensures waited { waited self.new ≡ waited self.old + 1 };
}

/// The cleaner of a store, as all who serve are told of it.
#[derive(Drop)]
pub(crate) struct Cleaner<'a, C> {
    clock: &'a C,
    serving: &'a Serving,
    /// How often it was asked whether it is behind.
    asked: Count,
    /// How often it was said that it is.
    told: Count,
    /// How many milliseconds it was waited for.
    waited: Count,
}

impl<'a, C> Cleaner<'a, C> {
    /// The cleaner, for which nobody has waited.
    pub(crate) fn new(clock: &'a C, serving: &'a Serving) -> Cleaner<'a, C> {
        Cleaner {
            clock,
            serving,
            asked: Count::new(),
            told: Count::new(),
            waited: Count::new(),
        }
    }
}

/// Each call asks or waits once, in one line, and counts it. That line is what is left to trust.
impl<C: Clock> Awaited for Cleaner<'_, C> {
    ghost asked = { λ c. c.asked };

    ghost told = { λ c. c.told };

    ghost waited = { λ c. c.waited };

    fn is_behind(&mut self) -> bool {
        let behind = self.serving.is_behind();
        self.asked.note();
        if behind {
            self.told.note();
        }
        behind
    }

    fn wait(&mut self) {
        sleep(self.clock, Duration::from_millis(1));
        self.waited.note();
    }
}

/// Waits for the cleaner where it is behind, a millisecond each time that it is said so, and 20 at most. It waits for less only
/// where it was said that it is not behind.
pub(crate) fn pause<A: Awaited>(cleaner: &mut A)
    ensures { HasPaused (pauses (A.asked cleaner.old) (A.told cleaner.old) (A.waited cleaner.old))
        (pauses (A.asked cleaner.new) (A.told cleaner.new) (A.waited cleaner.new)) }
{
    let mut left = PAUSES_MAX;
    while left > 0 {
        if !cleaner.is_behind() {
            return;
        }
        cleaner.wait();
        left -= 1;
    }
}
