// A receipt with its epoch drained.

ghost use Rattle.std.specs.Prelude.{◌≡◌, ◌≢◌, ◌+◌, ◌<◌, IfOk, IfErr};
ghost use Rattle.epoch.specs.Seats.{WasBlocked, drained_epoch, drained_of, refusals, retired_epoch, retired_known, retired_of, retired_value};

use crate::{Device, Shows};
use epoch::{Drained, Retired};

/// A retirement with its own epoch drained, by the epochs that retired it: what a device takes back.
#[derive(Drop)]
pub struct Releasable<R> {
    retired: Retired<R>,
    drained: Drained,
    ghost own: { retired_epoch retired ≡ drained_epoch drained },
    ghost of: { retired_of retired ≡ drained_of drained },
}

impl<R> Releasable<R> {
    ghost use Rattle.device.specs.Releases.{released_value, released_epoch, released_of};

    /// Drains the epoch of a retirement, by the epochs that retired it: it knows them, so no seat is wanted.
    ///
    /// # Errors
    ///
    /// The retirement, where a word that was read blocks its epoch. It has the note of that word.
    pub fn drain(retired: Retired<R>) -> Result<Releasable<R>, Retired<R>>
        ensures value { IfOk result (λ r. released_value r ≡ retired_value retired) }
        ensures epoch { IfOk result (λ r. released_epoch r ≡ retired_epoch retired) }
        ensures of { IfOk result (λ r. released_of r ≡ retired_of retired) }
        ensures back { IfErr result (λ same. retired_value same ≡ retired_value retired) }
        ensures same_epoch { IfErr result (λ same. retired_epoch same ≡ retired_epoch retired) }
        ensures same_epochs { IfErr result (λ same. retired_of same ≡ retired_of retired) }
        ensures blocked { IfErr result (λ same. WasBlocked (retired_epoch retired) (retired_known retired) (retired_known same)) }
        ensures refused { IfErr result (λ same. refusals retired < refusals same) }
    {
        let mut retired = retired;
        match retired.drained() {
            Some(drained) => Ok(Releasable { retired, drained }),
            None => Err(retired),
        }
    }
}

impl<R: Shows> Releasable<R> {
    ghost use Rattle.device.specs.Releases.{released_value};

    /// Gives the receipt back to its device.
    pub fn release<D: Device<Receipt = R>>(self, device: &mut D)
        ensures still_served { (r : R) → R.identity r ≢ R.identity (released_value self)
            → D.serves device.old r → D.serves device.new r }

        ensures no_failure { D.failures device.new ≡ D.failures device.old }
        ensures no_write { D.writes device.new ≡ D.writes device.old }
        ensures no_read { D.reads device.new ≡ D.reads device.old }
        ensures counted { D.releases device.new ≡ D.releases device.old + 1 }
    {
        let Releasable { retired, drained } = self;
        device.release(retired, &drained);
    }
}
