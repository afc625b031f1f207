//! The laws of the crates below that the proofs of the world rest on.

ghost use Rattle.world.specs.Laws.{HistoryLaws, PlanLaws, TurnLaws};

use hybrid::laws::growth_adds_up;
use words::bounds::values_are_bounded;
use words::locality::writes_named_keys;
use world_log::laws::{
    cold_receipts_are_kept, given_receipts_are_served, pages_are_opened, plans_keep_what_waits,
    reads_change_no_place, room_is_made, values_stay,
};
use world_model::theorems::{
    calls_come_to_an_end, events_keep_the_order, events_keep_the_world_sound, no_client_is_stuck,
    plans_stay_right, resting_clients_are_answered, room_keeps_the_world_sound,
    sound_worlds_tell_the_truth,
};

/// Of events and plans in the plain world. The call does nothing when it runs.
pub(crate) fn laws()
    ensures turns { TurnLaws }
{
    events_keep_the_world_sound();
    events_keep_the_order();
    no_client_is_stuck();
    calls_come_to_an_end();
    resting_clients_are_answered();
    plans_stay_right();
    room_keeps_the_world_sound();
    sound_worlds_tell_the_truth();
}

/// Of plans over stripes, reads and rooms. The call does nothing when it runs.
pub(crate) fn plan_laws()
    ensures plans { PlanLaws }
    ensures history { HistoryLaws }
{
    values_are_bounded();
    growth_adds_up();
    writes_named_keys();
    room_is_made();
    pages_are_opened();
    values_stay();
    reads_change_no_place();
    given_receipts_are_served();
    cold_receipts_are_kept();
    plans_keep_what_waits();
}
