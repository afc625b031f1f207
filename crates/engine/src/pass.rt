//! The right to call an engine.

use device::{Device, Shows};
use epoch::EpochSeat;
use plans::hands::Hands;
use records::Page;
use shards::shard::Shard;

/// The right to call an [`Engine`](crate::Engine), for one session at a time, with an opening of the device of its own. It
/// has a number, by which the entries of its calls are known in the history.
///
/// It has a seat of the engine's epochs, so that a page that it reads outside the stripes stays where it is meanwhile, and
/// the memory of the pages that it reads and of one that it writes, which serves from call to call.
#[derive(Drop)]
pub struct Pass<D: Device> {
    pub(crate) gates: gates::Pass<Shard<D::Receipt>>,
    pub(crate) device: D,
    /// None only during a visit. No page is staged between calls.
    pub(crate) hands: Option<Hands<D::Receipt, EpochSeat>>,
    /// Where a page is copied to that is to be written.
    pub(crate) page: Page,
}
