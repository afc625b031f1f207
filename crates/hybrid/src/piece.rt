// Pieces of pages.

ghost use Rattle.std.specs.Prelude.{◌≡◌, ◌≤◌, ◌<◌};
ghost use Rattle.records.specs.declared.pages.TheConstants.{PAGE_SIZE};

use records::PAGE_SIZE;

/// How many bytes are read of a page for one record of it, from the record on. For a record that is longer the whole page is read
/// then.
pub const PIECE_BYTES: usize = 4096;

/// A piece of a page: its bytes from one place up to another.
#[derive(Clone, Copy)]
pub(crate) struct Piece {
    pub(crate) from: usize,
    pub(crate) to: usize,
    ghost in_order: { from ≤ to },
    ghost in_page: { to ≤ PAGE_SIZE },
}

impl Piece {
    /// The piece that is read for a record at an offset of a page: `PIECE_BYTES` from there on, or up to the page's end.
    pub(crate) fn for_record_at(offset: usize) -> Piece
        requires { offset < PAGE_SIZE }
        ensures { result.from ≡ offset }
    {
        Piece {
            from: offset,
            to: (offset + PIECE_BYTES).min(PAGE_SIZE),
        }
    }
}
