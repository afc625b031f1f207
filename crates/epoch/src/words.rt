//! The words of the epochs, and scans of them.

ghost use Rattle.std.specs.Prelude.{◌≡◌, ◌+◌, ◌^◌, ◌<◌, IsTrue, IsFalse};
ghost use Rattle.epoch.specs.Rule.{word_of};

use crate::rule::{Begin, Pass, SafeEpochs};
use crate::view::View;
use atomic_table::{Seat, Table};
use std::alloc::Global;

/// The table's word that counts epochs.
pub(crate) const EPOCH: usize = 0;

/// The words between the word of one seat and that of the next: they lie on cache lines of their own.
const STRIDE: usize = 16;

/// The epoch word, which starts at 1, and a word for each seat.
#[derive(Drop)]
pub(crate) struct EpochWords {
    pub(crate) table: Table<u8, View, u64, SafeEpochs, Global>,
    pub(crate) seats: usize,
    ghost sized: { table.shared.table_id.words ≡ word_of seats },
    ghost keyed: { table.shared.key ≡ seats },
    ghost small: { seats < 2 ^ 32 },
}

/// The table's word of a seat.
pub(crate) fn word_index(number: usize) -> usize
    requires { number < 2 ^ 32 }
    ensures { result ≡ word_of number }
{
    STRIDE * (number + 1)
}

impl EpochWords {
    ghost use Rattle.epoch.specs.Words.{id_in};
    ghost use Rattle.epoch.specs.Seats.{IsScanning, OnlyScanned, WasBlocked};

    /// Reads the epoch word. Where it is not past the epoch, the scan is over.
    fn begin(&self, seat: &mut Seat<u8, View>, e: u64) -> bool
        requires { seat.old.table_id ≡ id_in self.now }
        ensures of { seat.new.table_id ≡ seat.old.table_id }
        ensures only { OnlyScanned seat.old.me.0 seat.new.me.0 }
        ensures past { IsTrue result → IsScanning e 0 seat.old.me.0 seat.new.me.0 }
        ensures blocked { IsFalse result → WasBlocked e seat.old.me.0 seat.new.me.0 }
    {
        self.table.shared.load::<Begin>(seat, EPOCH) > e
    }

    /// Reads the word of the next seat. Where it is set at the epoch or below, the scan is over.
    fn pass(&self, seat: &mut Seat<u8, View>, number: usize, e: u64) -> bool
        requires of { seat.old.table_id ≡ id_in self.now }
        requires next { seat.old.me.0.passed ≡ number }
        requires below { number < self.now.seats }
        requires above { e < seat.old.me.0.bound }
        ensures of { seat.new.table_id ≡ seat.old.table_id }
        ensures only { OnlyScanned seat.old.me.0 seat.new.me.0 }
        ensures past { IsTrue result → IsScanning e (number + 1) seat.old.me.0 seat.new.me.0 }
        ensures blocked { IsFalse result → WasBlocked e seat.old.me.0 seat.new.me.0 }
    {
        let word = word_index(number);
        let found = self.table.shared.load::<Pass>(seat, word);
        found == 0 || found > e
    }

    /// Reads the epoch word, and then each seat's word, as far as all of them are past the epoch. Whoever has
    /// a seat or a token of the table may scan: it tells its view alone.
    pub(crate) fn scan(&self, seat: &mut Seat<u8, View>, e: u64) -> bool
        requires { seat.old.table_id ≡ id_in self.now }
        ensures of { seat.new.table_id ≡ seat.old.table_id }
        ensures only { OnlyScanned seat.old.me.0 seat.new.me.0 }
        ensures past { IsTrue result → IsScanning e self.now.seats seat.old.me.0 seat.new.me.0 }
        ensures blocked { IsFalse result → WasBlocked e seat.old.me.0 seat.new.me.0 }
    {
        if !self.begin(seat, e) {
            return false;
        }
        let seats = self.seats;
        for number in 0..seats {
            if !self.pass(seat, number, e) {
                return false;
            }
        }
        true
    }
}
