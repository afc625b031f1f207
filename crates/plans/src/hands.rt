//! What a call works with beside the stripes that it holds and its opening of the device.

use device::Shows;
use hybrid::Staged;
use std::alloc::Global;

/// What a call works with: memory, the pages that it has read, and who retires the places that it gives back.
#[derive(Drop)]
pub struct Hands<R: Shows, S> {
    /// Where memory for keys, values and pages is had.
    pub alloc: Global,
    /// The pages that were read for the call.
    pub staged: Staged<R>,
    /// A seat of the epochs, or the stay of one.
    pub own: S,
}
