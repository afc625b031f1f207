//! The oldest of the pieces in which the bytes of a client came.

ghost use Rattle.std.specs.Prelude.{◌≡◌, ◌<◌, ◌==◌, [], length, drop};

use bytes::Bytes;
use std::marker::Model;

/// The oldest piece, which has bytes, or none. Contracts see it as its bytes: none where there is no piece.
///
/// A piece keeps the block alive that it was cut from, so one with no bytes left is not kept in the place of
/// none: it is made of a piece that has bytes, and never loses all of them.
#[derive(Drop)]
pub(crate) struct Oldest {
    bytes: Bytes,
}

impl Model for Oldest {
    ghost use Rattle.std.specs.Prelude.{ℕ, List};

    ghost Value = { List ℕ };

    ghost view = { λ oldest. oldest.bytes };
}

impl Oldest {
    /// No piece.
    #[inline]
    pub(crate) fn none() -> Oldest
        ensures { result ≡ [] }
    {
        Oldest {
            bytes: Bytes::new(),
        }
    }

    /// A piece that has bytes.
    #[inline]
    pub(crate) fn of(piece: Bytes) -> Oldest
        requires { 0 < length piece }
        ensures { result ≡ piece }
    {
        Oldest { bytes: piece }
    }

    /// The bytes of the piece, or none where there is no piece.
    #[inline]
    pub(crate) fn as_slice(&self) -> &[u8]
        ensures { result.now ≡ self.now }
    {
        self.bytes.as_slice()
    }

    /// How many bytes it has.
    #[inline]
    pub(crate) fn len(&self) -> usize
        ensures { result ≡ length self.now }
    {
        self.bytes.len()
    }

    /// Whether there is no piece.
    #[inline]
    pub(crate) fn is_none(&self) -> bool
        ensures { result ≡ (length self.now == 0) }
    {
        self.bytes.is_empty()
    }

    /// Takes so many bytes off the front of the piece, and not all of them.
    #[inline]
    pub(crate) fn advance(&mut self, count: usize)
        requires { count < length self.old }
        ensures { self.new ≡ drop count self.old }
    {
        self.bytes.advance(count);
    }
}
