//! What holds however events follow each other.

ghost use Rattle.std.specs.Prelude.{ℕ, ◌≡◌, ◌<◌, ◌≤◌, List, [], None, false, get_or, length, true};
ghost use Rattle.words.specs.declared.reply.Reply.{Reply};
ghost use Rattle.words.specs.Store.{Write};
ghost use Rattle.words.specs.Session.{Asked};
ghost use Rattle.transact.specs.declared.call.Call.{Call};
ghost use Rattle.world_model.specs.Planning.{taken};
ghost use Rattle.world_model.specs.Rooms.{StepsAll};
ghost use Rattle.world_model.specs.Enabled.{is_enabled};
ghost use Rattle.world_model.specs.Resting.{IsAtRest, IsOfCall, IsOrderly, events_left, rests};
ghost use Rattle.world_model.specs.States.{State, client, start, stripe_count};
ghost use Rattle.world_model.specs.Turns.{Turn, Turns};
ghost use Rattle.world_model.specs.Told.{Headline};
ghost use Rattle.world_model.specs.Places.{NoneReleased};
ghost use Rattle.world_model.specs.Soundness.{IsSound};
ghost use Rattle.world_model.specs.Planned.{IsNoCommitOf, IsPlanned};
ghost use Rattle.world_model.specs.declared.event.Event.{Event};

use crate::laws::laws;

/// What events leave of a sound world is a sound world.
pub fn events_keep_the_world_sound()
    ensures { (before : State) (events : List Event) (after : State) → Turns before events after → IsSound before → IsSound after }
{
    laws();
}

/// A world at the beginning is sound. Of a sound world the headline holds; and each receipt that a log keeps, or
/// that is to be read for a client, is of a place that is not released.
pub fn sound_worlds_tell_the_truth()
    ensures start { (stripes clients frames limit : ℕ) → IsSound (start stripes clients frames limit) }
    ensures headline { (state : State) → IsSound state → Headline state }
    ensures places { (state : State) → IsSound state → NoneReleased state }
{
    laws();
}

/// Room that is made in stripes leaves a sound world sound. Where a client took a stripe in a sound world, and room was
/// made then, no receipt that a log keeps is of a place that was released.
pub fn room_keeps_the_world_sound()
    ensures sound { (before : State) (stripes : List ℕ) (after : State) → StepsAll before stripes after → IsSound before → IsSound after }
    ensures taken { (before : State) (c i : ℕ) (stripes : List ℕ) (after : State) → IsSound before → c < length before.clients
        → get_or before.holders i None ≡ None → (client before c).due ≡ []
        → StepsAll (taken before c (client before c) i) stripes after → NoneReleased after }
{}

/// However events follow each other from the start, the headline holds after them; and each receipt that a
/// log keeps, or that is to be read for a client, is of a place that is not released, so a read by it gives
/// the page that was written.
pub fn events_keep_the_headline()
    ensures headline { (stripes clients frames limit : ℕ) (events : List Event) (after : State)
        → Turns (start stripes clients frames limit) events after → Headline after }
    ensures places { (stripes clients frames limit : ℕ) (events : List Event) (after : State)
        → Turns (start stripes clients frames limit) events after → NoneReleased after }
{
    laws();
}

/// What a call was planned to reply and to write at its last take is due until its commit, whatever event
/// comes in between.
pub fn plans_stay_right()
    ensures { (before : State) (event : Event) (after : State) (c : ℕ) (call : Call) (asked : Asked) (reply : Reply) (writes : List Write)
        → Turn before event after → IsNoCommitOf c event → IsSound before
        → IsPlanned before c call asked reply writes → IsPlanned after c call asked reply writes }
{
    laws();
}

/// A world at the beginning is orderly: who holds which stripe follows the rising order of stripes. What events leave
/// of an orderly world is an orderly world.
pub fn events_keep_the_order()
    ensures start { (stripes clients frames limit : ℕ) → 1 ≤ stripe_count (start stripes clients frames limit)
        → IsOrderly (start stripes clients frames limit) }
    ensures turns { (before : State) (events : List Event) (after : State) → Turns before events after → IsOrderly before → IsOrderly after }
{}

/// No client is stuck: as long as one does not rest, a take, a fetch, a commit or a give is enabled, the client's own or
/// another's.
pub fn no_client_is_stuck()
    ensures { (state : State) (c : ℕ) → IsOrderly state → c < length state.clients → rests state c ≡ false
        → (e : Event) × IsOfCall e × (is_enabled state e ≡ true) }
{}

/// Each enabled take, fetch, commit and give lowers the number of the events that are left at most. So, whatever
/// happened before, calls come to their ends, as long as clients are fed nothing more.
pub fn calls_come_to_an_end()
    ensures { (before : State) (e : Event) (after : State) → IsOfCall e → is_enabled before e ≡ true → IsSound before
        → IsOrderly before → Turn before e after → events_left after < events_left before }
{}

/// Where the headline holds, a client that rests was told all that is due.
pub fn resting_clients_are_answered()
    ensures { (state : State) (c : ℕ) → Headline state → c < length state.clients → rests state c ≡ true → IsAtRest state c }
{}
