//! Calls that do not wait, while another pass holds a stripe.

use crate::held::{Held, Meanwhile, goes_on_beside};
use gates::Point;

/// Once the stripe was given back, the key is read.
const TRIED: Held = Held {
    point: Point::Holding,
    meanwhile: Meanwhile::TriesBoth,
    then: "GET a -> $value",
    end: "GET a -> $value",
};

#[test]
fn a_held_stripe_does_not_stop_another(rt: HostRuntime) {
    assert!(rt; goes_on_beside(&rt, rt.alloc(), TRIED));
}
