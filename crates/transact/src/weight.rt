//! What weighs too much for one call.

ghost use Rattle.std.specs.Prelude.{◌≡◌, ◌+◌, ◌<◌, ◌≤◌, [], ◌∷◌, length, Some, true, false, nat_lt};
ghost use Rattle.std.specs.Prelude.{IfNone, IfSome};
ghost use Rattle.std.specs.Bool.{OnTrue};
ghost use Rattle.words.specs.Answers.{writes_set};
ghost use Rattle.words.specs.Briefs.{pairs_of};
ghost use Rattle.words.specs.Store.{weight};
ghost use Rattle.words.specs.declared.limits.TheConstants.{WEIGHT_MAX, WEIGHT_OF_KEY};
ghost use Rattle.words.specs.declared.history.Operation.TheVariants.{Run};
ghost use Rattle.words.specs.History.{History, too_much};
ghost use Rattle.words.specs.Session.{line_reply};
ghost use Rattle.transact.specs.Plans.{IsPlan, weight_of_each};

use words::command::{Command, When};
use words::limits::{WEIGHT_MAX, WEIGHT_OF_KEY};
use words::reply::Line;
use words::word::Word;

/// Whether the write of a SET without an option weighs more than a call may write. Where it does, the SET is due to
/// be refused for it, else to be done.
pub fn weighs_too_much(key: &Word, value: &Word) -> bool
    ensures weight { result ≡ nat_lt WEIGHT_MAX (WEIGHT_OF_KEY + length key.now + length value.now) }
    ensures heavy { result ≡ true → (seen : History) → IsPlan seen (Run (Command.Set key.now value.now When.Always)) too_much [] }
    ensures light { result ≡ false → (seen : History) → IsPlan seen (Run (Command.Set key.now value.now When.Always)) (line_reply Line.Done) ((key.now, Some value.now) ∷ []) }
{
    is_heavy(key, value)
}

/// Whether a key with this value is heavier than a call's writes may be.
fn is_heavy(key: &Word, value: &Word) -> bool
    ensures { result ≡ nat_lt WEIGHT_MAX (WEIGHT_OF_KEY + length key.now + length value.now) }
{
    let room = WEIGHT_MAX - WEIGHT_OF_KEY;
    key.len() > room || value.len() > room - key.len()
}

/// Whether an MSET of these keys, each of which has its value behind it, is known to be light enough for a call: it is then due to be
/// done. A key that it gives two values counts with both, so of such an MSET it may not be known.
pub fn are_light(words: &[Word]) -> bool
    ensures weight { OnTrue result (weight (writes_set (pairs_of words.now)) ≤ WEIGHT_MAX) }
    ensures heavy { result ≡ false → WEIGHT_MAX < weight_of_each (pairs_of words.now) }
    ensures done { result ≡ true → (seen : History)
        → IsPlan seen (Run (Command.MSet (pairs_of words.now))) (line_reply Line.Done) (writes_set (pairs_of words.now)) }
{
    fit_in(words, WEIGHT_MAX)
}

/// Whether these keys with their values weigh no more than so much, each counted.
fn fit_in(words: &[Word], room: usize) -> bool
    ensures fit { OnTrue result (weight (writes_set (pairs_of words.now)) ≤ room) }
    ensures over { result ≡ false → room < weight_of_each (pairs_of words.now) }
{
    match words {
        [] => true,
        [_] => true,
        [key, value, others @ ..] => match left_of(room, key, value) {
            Some(left) => fit_in(others, left),
            None => false,
        },
    }
}

/// What is left of so much room with a key and its value in it, if they fit.
fn left_of(room: usize, key: &Word, value: &Word) -> Option<usize>
    ensures some { IfSome result (λ left. left + (WEIGHT_OF_KEY + length key.now + length value.now) ≡ room) }
    ensures none { IfNone result (room < WEIGHT_OF_KEY + length key.now + length value.now) }
{
    room.checked_sub(WEIGHT_OF_KEY)?
        .checked_sub(key.len())?
        .checked_sub(value.len())
}
