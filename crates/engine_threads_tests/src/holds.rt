//! What holds a call up, and a call that is held up while it has its stripe.

use crate::held::{Held, Meanwhile, goes_on_beside};
use gates::{Latch, Point};
use std::sync::atomic::{AtomicBool, Ordering};
use std::thread::sleep;
use std::time::{Clock, Duration};

/// How many turns of a millisecond a thread waits for the other.
const TURNS: u64 = 10_000;

/// Holds the call of pass 0 up at this point, until another was answered.
#[derive(Drop)]
pub(crate) struct Holds<'a, R> {
    rt: &'a R,
    point: Point,
    came: AtomicBool,
    answered: AtomicBool,
    late: AtomicBool,
}

impl<'a, R: Clock> Holds<'a, R> {
    /// No call came yet.
    pub(crate) fn new(rt: &'a R, point: Point) -> Holds<'a, R> {
        Holds {
            rt,
            point,
            came: AtomicBool::new(false),
            answered: AtomicBool::new(false),
            late: AtomicBool::new(false),
        }
    }

    /// Waits until this is so. False after all turns.
    fn wait_for(&self, told: &AtomicBool) -> bool {
        for _n in 0..TURNS {
            if told.load(Ordering::SeqCst) {
                return true;
            }
            sleep(self.rt, Duration::from_millis(1));
        }
        false
    }

    /// Holds a call up until the other was answered.
    fn hold_up(&self) {
        self.came.store(true, Ordering::SeqCst);
        let answered = self.wait_for(&self.answered);
        self.late.store(!answered, Ordering::SeqCst);
    }

    /// Waits until the call came. False after all turns.
    pub(crate) fn meets_call(&self) -> bool {
        self.wait_for(&self.came)
    }

    /// Lets the call go on, as the other was answered.
    pub(crate) fn let_go(&self) {
        self.answered.store(true, Ordering::SeqCst);
    }

    /// Whether the call went on only once it might.
    pub(crate) fn is_in_time(&self) -> bool {
        !self.late.load(Ordering::SeqCst)
    }
}

impl<'a, R: Clock> Latch for Holds<'a, R> {
    fn at(&self, pass: u64, point: Point) {
        if pass == 0 && point == self.point {
            self.hold_up();
        }
    }
}

/// Another pass is answered while the call has its stripe.
const BESIDE: Held = Held {
    point: Point::Holding,
    meanwhile: Meanwhile::Asks("GET b -> null"),
    then: "GET b -> null",
    end: "GET a -> $value",
};

#[test]
fn call_two_is_answered_while_call_one_is_held(rt: HostRuntime) {
    assert!(rt; goes_on_beside(&rt, rt.alloc(), BESIDE));
}
