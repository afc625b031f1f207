//! What the rounds of a call go by.

use device::Shows;
use epoch::Epochs;
use gates::{Gates, Latch};
use shards::shard::Shard;

/// The parts of an engine that each round of a call goes by, and who is told where the call is.
#[derive(Drop)]
pub(crate) struct Site<'a, L: Latch, R: Shows> {
    pub(crate) gates: &'a Gates<Shard<R>>,
    pub(crate) epochs: &'a Epochs,
    /// It is told where the stripes of a call are held whose commit is next.
    pub(crate) latch: &'a L,
}
