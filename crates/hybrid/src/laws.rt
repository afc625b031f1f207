//! What callers may reckon with: growths, rooms, the lengths of values, and pages that are read until no
//! lookup is cold.

ghost use Rattle.hybrid.specs.Growth.{GrowthLaws, RoomLaws};
ghost use Rattle.hybrid.specs.HybridLog.{HybridLog, IsHybridLog, log_of};
ghost use Rattle.hybrid.specs.Log.{AreValuesShort};
ghost use Rattle.hybrid.specs.Reading.{ReadingLaws};

/// The growths of a log by several writes add up, and a call opens few pages.
pub fn growth_adds_up()
    ensures { GrowthLaws }
{}

/// There is room for nothing, and for less than there is room for.
pub fn room_shrinks()
    ensures { RoomLaws }
{}

/// Each page that is read makes the unread ones fewer, so reading until no lookup is cold ends.
pub fn reading_ends()
    ensures { ReadingLaws }
{}

/// The value of each key of a log has at most `VALUE_BYTES_MAX` bytes.
pub fn values_are_short()
    ensures { (p : HybridLog) → IsHybridLog p → AreValuesShort (log_of p) }
{}
