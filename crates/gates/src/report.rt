//! What a pass reports when it gives its stripes back.

use crate::view::{Look, Refused, Work};

/// What a pass reports when it gives its stripes back: a note of it, which contracts see. It is read by
/// nobody at run time.
#[derive(Clone, Copy, Debug)]
pub enum Report {
    /// Nothing.
    Nothing,
    /// The unreleased places of this stripe are at their limit, and none of them can be released, but for what the epochs
    /// refused.
    Full(u64, Refused),
    /// There was nothing to do at this stripe.
    Idle(u64, Work),
    /// A step was done at this stripe.
    Done(u64, Work),
    /// This was seen of this stripe.
    Seen(u64, Look),
}
