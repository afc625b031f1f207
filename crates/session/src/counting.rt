//! What is counted against the limits of transactions and watches.

ghost use Rattle.std.specs.Prelude.{◌≡◌, ◌≤◌, not, ◌&&◌, nat_lt, if◌then◌else◌, Some, None};
ghost use Rattle.words.specs.Spelling.{bytes_of};
ghost use Rattle.words.specs.Commands.{any_long};
ghost use Rattle.words.specs.History.{is_among};
ghost use Rattle.words.specs.Watches.{count_watched};
ghost use Rattle.session.specs.Sizes.{with_request, watch_refusal};

use crate::modes::Size;
use transact::call::is_one_of;
use words::limits::{
    KEY_BYTES_MAX, TRANSACTION_BYTES_MAX, TRANSACTION_COMMANDS_MAX, TRANSACTION_WORDS_MAX,
    WATCHED_KEYS_MAX,
};
use words::reply::{Line, Refusal, TransactionError};
use words::word::Word;

/// How large a transaction of so many commands and this size is with one more request, or `None` where
/// it is too large then.
pub(crate) fn with_one_more(commands: usize, size: Size, request: &[Word]) -> Option<Size>
    requires commands { commands ≤ TRANSACTION_COMMANDS_MAX }
    requires words { size.words ≤ TRANSACTION_WORDS_MAX }
    requires bytes { size.bytes ≤ TRANSACTION_BYTES_MAX }
    ensures { result ≡ with_request commands size request.now }
{
    let words_left = TRANSACTION_WORDS_MAX - size.words;
    if commands == TRANSACTION_COMMANDS_MAX || request.len() > words_left {
        return None;
    }
    match bytes_within(request, TRANSACTION_BYTES_MAX - size.bytes) {
        Some(bytes) => Some(Size {
            words: size.words + request.len(),
            bytes: size.bytes + bytes,
        }),
        None => None,
    }
}

/// How many bytes these words have together, or `None` where they have more than the limit.
fn bytes_within(words: &[Word], limit: usize) -> Option<usize>
    ensures { result ≡ (if nat_lt limit (bytes_of words.now) then None else Some (bytes_of words.now)) }
{
    let Some((first, others)) = words.split_first() else {
        return Some(0);
    };
    if first.len() > limit {
        return None;
    }
    match bytes_within(others, limit - first.len()) {
        Some(bytes) => Some(first.len() + bytes),
        None => None,
    }
}

/// The line that a WATCH of these keys is refused with where these are watched, if it is. It takes no
/// memory.
pub(crate) fn refusal_of_watch(watched: &[Word], keys: &[Word]) -> Option<Line>
    ensures { result ≡ watch_refusal watched.now keys.now }
{
    if is_any_long(keys) {
        Some(Line::Refused(Refusal::KeyTooLong))
    } else if are_too_many(watched, keys) {
        Some(Line::Misplaced(TransactionError::TooManyWatchedKeys))
    } else {
        None
    }
}

/// Whether one of the keys is longer than a key may be.
fn is_any_long(keys: &[Word]) -> bool
    ensures { result ≡ any_long keys.now }
{
    match keys {
        [] => false,
        [first, others @ ..] => first.len() > KEY_BYTES_MAX || is_any_long(others),
    }
}

/// Whether more keys would be watched than a session may watch, each counted once.
fn are_too_many(watched: &[Word], keys: &[Word]) -> bool
    ensures { result ≡ nat_lt WATCHED_KEYS_MAX (count_watched watched.now keys.now) }
{
    let mut count = watched.len();
    for place in 0..keys.len() {
        if is_new(watched, &keys[..place], &keys[place]) {
            if count >= WATCHED_KEYS_MAX {
                return true;
            }
            count += 1;
        }
    }
    count > WATCHED_KEYS_MAX
}

/// Whether a key is none of those that are watched and none of those named before it.
fn is_new(watched: &[Word], earlier: &[Word], key: &Word) -> bool
    ensures { result ≡ not (is_among watched.now key.now) && not (is_among earlier.now key.now) }
{
    !is_one_of(key, watched) && !is_one_of(key, earlier)
}
