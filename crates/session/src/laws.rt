//! A law of what sessions watch.

ghost use Rattle.session.specs.Laws.{WatchesPairsOfEntry, WatchesPairsOfFault};

/// What a session watches after a call are the keys of the pairs that the call's entry leaves it, or
/// that a fault leaves it. It does nothing: its contract is the law.
pub fn watches_follow_entries()
    ensures entry { WatchesPairsOfEntry }
    ensures fault { WatchesPairsOfFault }
{}
