//! Laws of parts that are held. Each is the contract of a function that does nothing; a proof that wants the law
//! calls it.

ghost use Rattle.std.specs.Prelude.{◌≡◌, ◌<◌, ◌↔◌, ℕ, [], List, Option, Some, IsSome};
ghost use Rattle.words.specs.declared.command.Command.{Command};
ghost use Rattle.words.specs.declared.history.Operation.TheVariants.{Run};
ghost use Rattle.words.specs.declared.reply.Reply.{Reply};
ghost use Rattle.words.specs.History.{History, Pair};
ghost use Rattle.words.specs.Session.{Asked, operation_of};
ghost use Rattle.words.specs.Store.{Bytes, Write};
ghost use Rattle.gates.specs.Sets.{times};
ghost use Rattle.transact.specs.declared.call.Call.{Call};
ghost use Rattle.transact.specs.Calls.{asked_of};
ghost use Rattle.transact.specs.Plans.{EndsAll, IsInstalled, IsPlan, keys_begun, keys_ended, stripes_with};
ghost use Rattle.transact.specs.Tables.{AreThere, Became, Stand, begins, stays, touches, touches_and_clears};
ghost use Rattle.shards.specs.declared.shard.Shard.{Shard};
ghost use Rattle.shards.specs.Shards.{shard_meaning};

use device::Shows;

/// What becomes of parts by the marks that a call begins, and then by the writes that are due to it and by the watches
/// that it ends, is what its entry leaves.
pub fn writes_install_a_call<R: Shows>()
    ensures { (stripes seat : ℕ) (call : Call) (asked : Asked) (seen : History) (watched : List Pair) (reply : Reply)
        (writes : List Write) (before planned later : ℕ → Option (Shard R)) → asked_of call ≡ Some asked → EndsAll call watched
        → IsPlan seen (operation_of watched asked) reply writes
        → Stand (shard_meaning R.is_steady) stripes before seen seat watched
        → Became (shard_meaning R.is_steady) stripes [] (begins seat (keys_begun call)) before planned
        → Became (shard_meaning R.is_steady) stripes writes (touches_and_clears writes seat (keys_ended call)) planned later
        → IsInstalled (shard_meaning R.is_steady) stripes seen
        (record { session = seat; operation = operation_of watched asked; reply = reply }) before later }
{}

/// What becomes of parts by the writes that are due to a command, and by nothing else, is what its entry leaves.
pub fn writes_install_a_command<R: Shows>()
    ensures { (stripes seat : ℕ) (command : Command) (seen : History) (watched : List Pair) (reply : Reply) (writes : List Write)
        (before reserved later : ℕ → Option (Shard R)) → IsPlan seen (Run command) reply writes
        → Stand (shard_meaning R.is_steady) stripes before seen seat watched
        → Became (shard_meaning R.is_steady) stripes [] stays before reserved
        → Became (shard_meaning R.is_steady) stripes writes (touches writes) reserved later
        → IsInstalled (shard_meaning R.is_steady) stripes seen
        (record { session = seat; operation = Run command; reply = reply }) before later }
{}

/// Where the stripes of keys are taken, and no others, there is a part for each of the keys.
pub fn stripes_hold_keys<R: Shows>()
    ensures { (stripes : ℕ) (parts : ℕ → Option (Shard R)) (taken : List ℕ) (keys : List Bytes)
        → taken ≡ stripes_with stripes [] keys → ((stripe : ℕ) → IsSome (parts stripe) ↔ (0 < times stripe taken))
        → AreThere stripes parts keys }
{}
