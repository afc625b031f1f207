//! Who may retire a place: a seat of the epochs, with a stay or without one.

ghost use Rattle.std.specs.Prelude.{◌≡◌, ℕ, IfOk, IfErr, OnErr};
ghost use Rattle.epoch.specs.Seats.{AdvancedPast, WasWorn, refusals, retired_epoch, retired_of, retired_value, id_of, StaysOver};

use epoch::{EpochSeat, Epochs, Inside, Retired};

/// Who may retire: a seat of some epochs that has no stay, or the stay of one, which goes on.
pub trait Retires {
    ghost use Rattle.epoch.specs.declared.epochs.Epochs.{Epochs};
    ghost use Rattle.epoch.specs.declared.view.View.{View};
    ghost use Rattle.epoch.specs.Seats.{AdvancedPast, WasWorn, refusals, retired_epoch, retired_of, retired_value, id_of, StaysOver};

    // It is one of these epochs.
    ghost is_of: { Epochs → Self → Type 0 };

    // What its seat knows.
    ghost knows: { Self → View };

    /// Retires a value: advances the epoch, and stamps the value with the epoch that is over then.
    ///
    /// # Errors
    ///
    /// The value, where the epoch word was read at 2^62 or more. The epoch is then not advanced.
    fn retire<U>(&mut self, epochs: &Epochs, value: U) -> Result<Retired<U>, U>
        requires is { Self.is_of epochs.now self.old }
        ensures is { Self.is_of epochs.now self.new }
        ensures of { IfOk result (λ retired. retired_of retired ≡ id_of epochs.now) }
        ensures value { IfOk result (λ retired. retired_value retired ≡ value) }
        ensures over { IfOk result (λ retired. StaysOver epochs.now retired) }
        ensures fresh { IfOk result (λ retired. refusals retired ≡ 0) }
        ensures past { IfOk result (λ retired. AdvancedPast (retired_epoch retired) (Self.knows self.old) (Self.knows self.new)) }
        ensures back { IfErr result (λ same. same ≡ value) }
        ensures worn { OnErr result (WasWorn (Self.knows self.old) (Self.knows self.new)) };
}

impl Retires for EpochSeat {
    ghost use Rattle.epoch.specs.Seats.{IsOutside, known};

    ghost is_of = { IsOutside };

    ghost knows = { known };

    fn retire<U>(&mut self, epochs: &Epochs, value: U) -> Result<Retired<U>, U> {
        epochs.retire(self, value)
    }
}

impl Retires for Inside {
    ghost use Rattle.epoch.specs.Seats.{IsInside, known, seat_in};

    ghost is_of = { IsInside };

    ghost knows = { λ inside. known (seat_in inside) };

    fn retire<U>(&mut self, epochs: &Epochs, value: U) -> Result<Retired<U>, U> {
        epochs.retire_inside(self, value)
    }
}
