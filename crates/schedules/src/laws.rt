//! What holds of schedules, as contracts of functions that do nothing.

ghost use Rattle.std.specs.Prelude.{ℕ, List};
ghost use Rattle.words.specs.Store.{Bytes};
ghost use Rattle.words.specs.declared.limits.Limits.{Limits};
ghost use Rattle.world_model.specs.declared.event.Event.{Event};
ghost use Rattle.schedules.specs.Schedules.{IsSchedule, IsBadLine};

/// A text that is a schedule has no bad line. So [`parse`](crate::parse) answers a bad line only for a text that is
/// no schedule, and events only for one without a bad line.
pub fn a_schedule_has_no_bad_line()
    ensures { (text : Bytes) (limits : Limits) (events : List Event) (number : ℕ)
        → IsSchedule text limits events → IsBadLine text number → ⊥ }
{}
