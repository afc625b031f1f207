//! How connections ended.

ghost use Rattle.std.specs.Prelude.{◌≡◌, IfOk, IfSome};
ghost use Rattle.connection.specs.Served.{number_of};
ghost use Rattle.server.specs.Numbers.{IsEndingNumber};

use boxcar::table::Keeps;
use boxcar::tag::Tag;
use boxcar::{Pushed, Vec};
use connection::Ended;
use std::alloc::{AllocError, Global};
use std::sync::Wait;

/// The rule that each number of the list stands for an ending.
pub struct EndingNumber;

impl Keeps<u8> for EndingNumber {
    ghost holds = { λ tag place number. IsEndingNumber number };
}

/// Shows that the list holds a number at a place.
pub(crate) type Shown = Pushed<u8, Global, EndingNumber>;

/// How the connections that were served have ended: a number from 1 to 6 for each, as
/// `Ended::number` gives it, in the order in which they were put down. The list only grows, and
/// threads may share it.
#[derive(Drop)]
pub struct Endings {
    numbers: Vec<u8, Global, EndingNumber>,
}

impl Endings {
    /// A list with no ending yet.
    ///
    /// # Errors
    ///
    /// `AllocError` where there is no memory for it.
    pub fn new(alloc: Global) -> Result<Endings, AllocError> {
        let numbers = Vec::with_rule(alloc, Tag::empty())?;
        Ok(Endings { numbers })
    }

    /// Puts down how a connection ended, and shows where. Where there is no memory for it, it is left
    /// out, and nothing else changes.
    pub(crate) fn push(&self, rt: &impl Wait, ended: Ended) -> Result<Shown, u8>
        ensures { IfOk result (λ shown. shown.value ≡ number_of ended) }
    {
        self.numbers.push_shown(rt, ended.number())
    }

    /// The number at this place, 0 being the first, or `None` where the list is not so long.
    pub fn get(&self, place: usize) -> Option<u8>
        ensures { IfSome result (λ number. IsEndingNumber number) }
    {
        self.numbers.get(place).copied()
    }

    /// How many endings were put down.
    pub fn count(&self) -> usize {
        self.numbers.count()
    }
}
