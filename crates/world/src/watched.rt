//! The keys that a client of the world watches, each with the position of its watch.

ghost use Rattle.std.specs.Prelude.{◌≡◌, OnOk};
ghost use Rattle.words.specs.Watches.{watched_at, with_key, with_keys};

use words::word::{OutOfMemory, Word};

/// The position from which on a key is watched, if it is.
fn position_of(pairs: &[(Word, u64)], key: &Word) -> Option<u64>
    ensures { result ≡ watched_at pairs.now key.now }
{
    match pairs {
        [] => None,
        [pair, others @ ..] => {
            if pair.0 == *key {
                return Some(pair.1);
            }
            position_of(others, key)
        }
    }
}

/// Watches a key from this position on, where it is not watched yet.
fn watch_key(pairs: &mut Vec<(Word, u64)>, key: &Word, position: u64) -> Result<(), OutOfMemory>
    ensures { OnOk result (pairs.new.items ≡ with_key pairs.old.items key.now position (watched_at pairs.old.items key.now)) }
{
    if position_of(pairs.as_slice(), key).is_some() {
        return Ok(());
    }
    let key = key.clone()?;
    pairs.insert(0, (key, position))?;
    Ok(())
}

/// Watches these keys from this position on, those that are not watched yet.
pub(crate) fn watch_keys(
    pairs: &mut Vec<(Word, u64)>,
    keys: &[Word],
    position: u64,
) -> Result<(), OutOfMemory>
    ensures { OnOk result (pairs.new.items ≡ with_keys pairs.old.items keys.now position) }
{
    let Some((key, others)) = keys.split_first() else {
        return Ok(());
    };
    watch_key(pairs, key, position)?;
    watch_keys(pairs, others, position)
}
