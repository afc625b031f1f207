//! What is seen of a stripe: how many of its places are used, and whether its frames are short, or those that values leave.

ghost use Rattle.std.specs.Prelude.{◌≡◌, ◌<◌, ◌+◌};
ghost use Rattle.gates.specs.Background.{IsSeen};
ghost use Rattle.gates.specs.declared.view.Look.TheVariants.{FewerExpected, FewerFree, HalfUsed, Used};
ghost use Rattle.hybrid.specs.declared.stripe.TheConstants.{CALL_PAGES, CLEAN_PAGES};
ghost use Rattle.shards.specs.Shards.{shard_pages};

use crate::counted::is_laid_out;
use crate::shard::Shard;
use device::Shows;

impl<R: Shows> Shard<R> {
    /// Whether at least half of its places on the device are taken and not released.
    pub fn is_half_used(&self) -> bool
        ensures { IsSeen (HalfUsed result) (shard_pages self.now) }
    {
        self.log.stripe().is_half_used()
    }

    /// How many of its places on the device are taken and not released.
    pub fn used_places(&self) -> usize
        ensures { IsSeen (Used result) (shard_pages self.now) }
    {
        self.log.stripe().unreleased()
    }

    /// Whether fewer of its frames are free than pages that a call can open.
    pub fn is_short_of_frames(&self) -> bool
        ensures { IsSeen (FewerFree CALL_PAGES result) (shard_pages self.now) }
    {
        is_laid_out(self.log.stripe());
        self.log.stripe().is_short_of_frames()
    }

    /// Whether fewer of its frames than values leave are free or may be had: a deletion has opened the page that is left for it.
    #[tactic(auto, using(crate::proofs::Counts::count_kept_as))]
    pub fn lacks_spare_frames(&self) -> bool
        ensures { IsSeen (FewerExpected (CLEAN_PAGES + 1) result) (shard_pages self.now) }
    {
        is_laid_out(self.log.stripe());
        self.log.stripe().lacks_spare_frames()
    }
}
