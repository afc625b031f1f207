//! Laws of sizes: what has its place in a history keeps keys and values within their limits, so that each
//! has a place in a page. Each law is the contract of a function that does nothing; a proof that wants the
//! law calls it.

ghost use Rattle.std.specs.Prelude.{List, IfOk};
ghost use Rattle.words.specs.declared.history.Operation.{Operation};
ghost use Rattle.words.specs.Store.{Bytes, Store};
ghost use Rattle.words.specs.Spelling.{IsRequest};
ghost use Rattle.words.specs.Commands.{command_of};
ghost use Rattle.words.specs.Bounds.{AreWritesBounded, IsBounded, IsStoreBounded};
ghost use Rattle.words.specs.History.{History, HasPlace, Legal, after, outcome};

/// What an operation writes is within the limits, where the store before it is.
pub fn writes_are_bounded()
    ensures { (operation : Operation) (store : Store) → IsStoreBounded store → HasPlace operation
        → AreWritesBounded (outcome store operation).1 }
{}

/// No value of the store that a legal history leaves is longer than a value may be.
pub fn values_are_bounded()
    ensures { (history : History) → Legal history → IsStoreBounded (after history) }
{}

/// What a request within the limits makes is within them.
pub fn commands_are_bounded()
    ensures { (words : List Bytes) → IsRequest words → IfOk (command_of words) IsBounded }
{}
