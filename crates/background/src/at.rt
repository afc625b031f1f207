//! Where a step is done.

use device::Shows;
use epoch::Epochs;
use gates::Gates;
use shards::shard::Shard;

/// Where a step is done: at a stripe of these gates, whose places go by these epochs.
#[derive(Drop)]
pub struct At<'a, R: Shows> {
    pub gates: &'a Gates<Shard<R>>,
    pub epochs: &'a Epochs,
    /// The number of the stripe.
    pub stripe: usize,
}

/// One turn of the cleaner's step.
#[derive(Drop)]
pub(crate) struct Turn<'a, R: Shows> {
    pub(crate) at: &'a At<'a, R>,
    /// Whether pages that are wanted are read while the stripe is held.
    pub(crate) reads: bool,
}
