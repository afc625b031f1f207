//! What callers may reckon with.

ghost use Rattle.std.specs.Prelude.{◌≡◌, ◌<◌, ◌≤◌, ◌^◌, ℕ, List, []};
ghost use Rattle.records.specs.Page.{empty_page, SameWithin};
ghost use Rattle.records.specs.Records.{records_of};

/// An empty page has no record.
pub fn empty_pages_have_no_record()
    ensures { (number : ℕ) → number < 2 ^ 64 → records_of (empty_page number) ≡ [] }
{}

/// Of the bytes that two pages have in common, they have each part in common.
pub fn parts_of_the_same_bytes_are_the_same()
    ensures { (from to i j : ℕ) (page other : List ℕ) → SameWithin from to page other → from ≤ i → j ≤ to → SameWithin i j page other }
{}
