//! The laws of the crates below that the proofs of the world rest on.

ghost use Rattle.world_model.specs.Laws.{TalkLaws, WatchLaws};
ghost use Rattle.world_model.specs.Planned.{LocalLaws};

use connection::conversation::{
    begins, concludes, goes_on, is_done, is_fed, is_forgotten, is_undone, says,
};
use gates::watch_laws::{
    marks_after_entry, own_marks_after_entry, own_watches_after_entry, watches_each_once,
};
use words::locality::{depends_on_named_keys, leaves_other_keys, stays_due, stays_watched};

/// All of them. The call does nothing when it runs.
pub(crate) fn laws()
    ensures talks { TalkLaws }
    ensures watches { WatchLaws }
    ensures local { LocalLaws }
{
    begins();
    is_fed();
    says();
    is_done();
    is_undone();
    is_forgotten();
    goes_on();
    concludes();
    marks_after_entry();
    own_marks_after_entry();
    own_watches_after_entry();
    watches_each_once();
    stays_watched();
    stays_due();
    depends_on_named_keys();
    leaves_other_keys();
}
