//! Watches that begin and end.

ghost use Rattle.std.specs.Prelude.{◌≡◌, [], ◌∷◌, OnOk, OnErr};
ghost use Rattle.shards.specs.declared.shard.Shard.{Shard};
ghost use Rattle.transact.specs.Plans.{keys_ended};
ghost use Rattle.transact.specs.Tables as tables;
ghost use Rattle.transact.specs.Tables.{AreThere, stays};
ghost use Rattle.shards.specs.Shards.{SameLogs, SameWaits};
ghost use Rattle.plans.specs.Planning.{IsStillHeld};
ghost use Rattle.plans.specs.Holding.{Becomes, BeginsMore, BeginsWatches, EndsWatches, marks_of};

use crate::cells::{begin, clear, is_marked};
use device::Shows;
use gates::Parts;
use shards::shard::Shard;
use transact::call::{Call, Watching};
use words::word::{OutOfMemory, Word};

/// A session watches none of its keys any more. It takes no memory, and cannot fail.
pub fn forget<R: Shows, P: Parts<Shard<R>>>(parts: &mut P, watching: &Watching)
    requires open { P.is_open parts.old }
    requires there { AreThere (P.stripes_of parts.old) (P.part_of parts.old) watching.now }
    ensures became { EndsWatches R.is_steady P.stripes_of P.holder_of P.part_of parts.old parts.new watching.now }
    ensures logs { SameLogs (P.part_of parts.old) (P.part_of parts.new) }
    ensures waits { SameWaits (P.part_of parts.old) (P.part_of parts.new) }
    ensures held { IsStillHeld P.is_open P.keeps parts.old parts.new }
{
    clear_all(parts, watching.keys());
}

/// Ends the watches that a call ends.
pub(crate) fn end_watches<R: Shows, P: Parts<Shard<R>>>(parts: &mut P, call: &Call)
    requires open { P.is_open parts.old }
    requires there { AreThere (P.stripes_of parts.old) (P.part_of parts.old) (keys_ended call.now) }
    ensures became { EndsWatches R.is_steady P.stripes_of P.holder_of P.part_of parts.old parts.new (keys_ended call.now) }
    ensures logs { SameLogs (P.part_of parts.old) (P.part_of parts.new) }
    ensures waits { SameWaits (P.part_of parts.old) (P.part_of parts.new) }
    ensures held { IsStillHeld P.is_open P.keeps parts.old parts.new }
{
    match call {
        Call::One(_) | Call::Watch(_) => {}
        Call::Exec(_, watching) | Call::Forget(watching) => {
            forget(parts, watching);
        }
    }
}

/// A session watches these keys no more.
pub(crate) fn clear_all<R: Shows, P: Parts<Shard<R>>>(parts: &mut P, keys: &[Word])
    requires open { P.is_open parts.old }
    requires there { AreThere (P.stripes_of parts.old) (P.part_of parts.old) keys.now }
    ensures became { EndsWatches R.is_steady P.stripes_of P.holder_of P.part_of parts.old parts.new keys.now }
    ensures logs { SameLogs (P.part_of parts.old) (P.part_of parts.new) }
    ensures waits { SameWaits (P.part_of parts.old) (P.part_of parts.new) }
    ensures held { IsStillHeld P.is_open P.keeps parts.old parts.new }
{
    if let Some((key, others)) = keys.split_first() {
        clear(parts, key);
        clear_all(parts, others);
    }
}

/// Whether a mark that a session has of these keys says that its key was written.
pub(crate) fn any_marked<R: Shows, P: Parts<Shard<R>>>(parts: &mut P, keys: &[Word]) -> bool
    requires open { P.is_open parts.old }
    requires there { AreThere (P.stripes_of parts.old) (P.part_of parts.old) keys.now }
    ensures marks { result ≡ tables.any_marked (marks_of R.is_steady P.stripes_of P.part_of parts.old) (P.holder_of parts.old) keys.now }
    ensures same { P.part_of parts.new ≡ P.part_of parts.old }
    ensures held { IsStillHeld P.is_open P.keeps parts.old parts.new }
{
    match keys {
        [] => false,
        [key, others @ ..] => {
            if is_marked(parts, key) {
                return true;
            }
            any_marked(parts, others)
        }
    }
}

/// A session watches these keys from here on. The list gains those that it did not watch. After an `Err`
/// it watches some of them, which are in the list.
pub(crate) fn begin_all<R: Shows, P: Parts<Shard<R>>>(
    parts: &mut P,
    keys: &[Word],
    begun: &mut Vec<Word>,
) -> Result<(), OutOfMemory>
    requires open { P.is_open parts.old }
    requires there { AreThere (P.stripes_of parts.old) (P.part_of parts.old) keys.now }
    ensures ok { OnOk result (BeginsWatches R.is_steady P.stripes_of P.holder_of P.part_of parts.old parts.new keys.now) }
    ensures begun { BeginsMore R.is_steady P.stripes_of P.holder_of P.part_of parts.old parts.new begun.old.items begun.new.items }
    ensures logs { SameLogs (P.part_of parts.old) (P.part_of parts.new) }
    ensures waits { SameWaits (P.part_of parts.old) (P.part_of parts.new) }
    ensures held { IsStillHeld P.is_open P.keeps parts.old parts.new }
{
    let Some((key, others)) = keys.split_first() else {
        return Ok(());
    };
    begin_one(parts, key, begun)?;
    begin_all(parts, others, begun)
}

/// A session watches a key from here on. The list gains the key where the session did not watch it.
fn begin_one<R: Shows, P: Parts<Shard<R>>>(
    parts: &mut P,
    key: &Word,
    begun: &mut Vec<Word>,
) -> Result<(), OutOfMemory>
    requires open { P.is_open parts.old }
    requires there { AreThere (P.stripes_of parts.old) (P.part_of parts.old) (key.now ∷ []) }
    ensures ok { OnOk result (BeginsWatches R.is_steady P.stripes_of P.holder_of P.part_of parts.old parts.new (key.now ∷ [])) }
    ensures err { OnErr result (Becomes R.is_steady P.stripes_of P.part_of parts.old parts.new [] stays) }
    ensures begun { BeginsMore R.is_steady P.stripes_of P.holder_of P.part_of parts.old parts.new begun.old.items begun.new.items }
    ensures logs { SameLogs (P.part_of parts.old) (P.part_of parts.new) }
    ensures waits { SameWaits (P.part_of parts.old) (P.part_of parts.new) }
    ensures held { IsStillHeld P.is_open P.keeps parts.old parts.new }
{
    let copy = key.clone()?;
    begun.reserve(1)?;
    if begin(parts, key)? {
        begun.push_reserved(copy);
    }
    Ok(())
}
