//! Commands that read values.

ghost use Rattle.std.specs.Prelude.{◌≡◌, ◌<◌, ◌≤◌, length, IfOk, IsOk, option_copied};
ghost use Rattle.words.specs.Commands.{IsInline};
ghost use Rattle.words.specs.Answers as answers;
ghost use Rattle.words.specs.Answers.{value_of, item_of, bulk, number, count_there, items_of, range_of};
ghost use Rattle.strings.specs.Overlays.{shown};

use crate::overlay::Overlay;
use std::alloc::Global;
use words::reply::{CommandReply, Item};
use words::sequence::Sequence;
use words::word::{OutOfMemory, Word};

/// A copy of a text.
pub(crate) fn copy(alloc: Global, text: &Word) -> Result<Word, OutOfMemory>
    ensures same { IfOk result (λ copy. copy ≡ text.now) }
    ensures memory { IsInline text.now → IsOk result }
{
    Word::from_slice(alloc, text.as_slice())
}

/// The reply of a text.
pub(crate) fn echo(alloc: Global, text: &Word) -> Result<CommandReply, OutOfMemory>
    ensures reply { IfOk result (λ reply. reply ≡ CommandReply.One (Item.Bulk text.now)) }
    ensures memory { IsInline text.now → IsOk result }
{
    Ok(CommandReply::One(Item::Bulk(copy(alloc, text)?)))
}

/// A copy of the value of a key.
pub(crate) fn value_copy(
    alloc: Global,
    overlay: &Overlay<'_>,
    key: &Word,
) -> Result<Option<Word>, OutOfMemory>
    ensures value { IfOk result (λ value. value ≡ shown overlay.now key.now) }
    ensures memory { IsInline (value_of (shown overlay.now key.now)) → IsOk result }
{
    match overlay.value(key.as_slice()) {
        Some(value) => Ok(Some(Word::from_slice(alloc, value)?)),
        None => Ok(None),
    }
}

/// `GET`
pub(crate) fn get(
    alloc: Global,
    overlay: &Overlay<'_>,
    key: &Word,
) -> Result<CommandReply, OutOfMemory>
    ensures reply { IfOk result (λ reply. reply ≡ bulk (shown overlay.now key.now)) }
    ensures memory { IsInline (value_of (shown overlay.now key.now)) → IsOk result }
{
    Ok(CommandReply::bulk(value_copy(alloc, overlay, key)?))
}

/// The bytes of a key's value, none where it is missing.
pub(crate) fn bytes_at<'o>(overlay: &'o Overlay<'_>, key: &Word) -> &'o [u8]
    ensures { result.now ≡ value_of (shown overlay.now key.now) }
{
    match overlay.value(key.as_slice()) {
        Some(value) => value,
        None => &[],
    }
}

/// `STRLEN`
pub(crate) fn length(overlay: &Overlay<'_>, key: &Word) -> CommandReply
    ensures { result ≡ number (length (value_of (shown overlay.now key.now))) }
{
    CommandReply::integer(bytes_at(overlay, key).len() as i64)
}

/// `EXISTS`
pub(crate) fn exists(overlay: &Overlay<'_>, keys: &[Word]) -> CommandReply
    ensures { result ≡ number (count_there (shown overlay.now) keys.now) }
{
    let mut count: usize = 0;
    for key in keys {
        if overlay.has(key.as_slice()) {
            count += 1;
        }
    }
    CommandReply::integer(count as i64)
}

/// `MGET`
pub(crate) fn get_all(
    alloc: Global,
    overlay: &Overlay<'_>,
    keys: &[Word],
) -> Result<CommandReply, OutOfMemory>
    ensures { IfOk result (λ reply. reply ≡ CommandReply.Array (items_of (shown overlay.now) keys.now)) }
{
    let mut items = Vec::with_capacity(alloc, keys.len())?;
    for key in keys {
        items.push(Item::of(value_copy(alloc, overlay, key)?))?;
    }
    Ok(CommandReply::Array(Sequence::from_vec(items)))
}

/// The place of a range's first byte in so many bytes.
fn first_of(size: usize, start: i64) -> usize
    ensures { result ≡ answers.first_of size start }
{
    if start < 0 {
        size.saturating_sub(start.unsigned_abs() as usize)
    } else {
        start as usize
    }
}

/// The place after a range's last byte in so many bytes.
fn past_of(end: i64, size: usize) -> usize
    ensures { result ≡ answers.past_of end size }
{
    if end < 0 {
        size.saturating_sub(end.unsigned_abs() as usize - 1)
    } else {
        end as usize + 1
    }
}

/// The bytes from a start to an end, both within.
fn range(value: &[u8], start: i64, end: i64) -> &[u8]
    ensures { result.now ≡ range_of value.now start end }
{
    let past = past_of(end, value.len());
    let front = if past < value.len() {
        &value[..past]
    } else {
        value
    };
    let first = first_of(value.len(), start);
    if first < front.len() {
        &front[first..]
    } else {
        &[]
    }
}

/// `GETRANGE`
pub(crate) fn get_range(
    alloc: Global,
    overlay: &Overlay<'_>,
    key: &Word,
    start: i64,
    end: i64,
) -> Result<CommandReply, OutOfMemory>
    ensures reply { IfOk result (λ reply. reply ≡ CommandReply.One (Item.Bulk (range_of (value_of (shown overlay.now key.now)) start end))) }
    ensures memory { IsInline (range_of (value_of (shown overlay.now key.now)) start end) → IsOk result }
{
    let part = Word::from_slice(alloc, range(bytes_at(overlay, key), start, end))?;
    Ok(CommandReply::One(Item::Bulk(part)))
}
