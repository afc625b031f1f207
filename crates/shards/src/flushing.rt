//! The flusher's step at a stripe: its oldest page that waits is written to the device. Where no place may be taken for it, each
//! place of the stripe that can be released is released first.

ghost use Rattle.std.specs.Prelude.{◌≡◌, ⊤, IfErr, OnOk};
ghost use Rattle.epoch.specs.Seats.{IsOutside, known};
ghost use Rattle.shards.specs.Devices.{HasRested};
ghost use Rattle.shards.specs.Flushing.{BeganAt, BeganTold, EndedTold, EndsAt, FlushFailed, Flushes, HasWritten, MatchBeginning};
ghost use Rattle.shards.specs.Flushing.{MatchEnding};
ghost use Rattle.shards.specs.Heard.{HasTriedOutside, ToldWorn};
ghost use Rattle.shards.specs.Shards.{shard_counted, shard_marks, shard_pages, shard_store};

use crate::counted::Begun;
use crate::shard::Shard;
use device::{Device, Shows};
use epoch::{EpochSeat, Epochs};
use gates::Refused;
use records::Page;

/// How a flush begins that released what it could.
#[derive(Clone, Copy, Debug)]
pub enum Beginning {
    /// No page waits to be written.
    Idle,
    /// One does, no place may be taken for it, and none can be released, but for what the epochs refused.
    Full(Refused),
    /// The page of this number was copied, and a place is counted for it.
    Sealed(u64),
}

/// A page that was written to the device.
#[derive(Drop)]
pub struct Flown<'a, R: Shows> {
    /// Its number.
    pub number: u64,
    /// What was written.
    pub page: &'a Page,
    /// What the device answered.
    pub receipt: R,
}

/// How a flush ends that released what it could.
#[derive(Drop)]
pub enum Ending<R: Shows> {
    /// The receipt is kept, or its place is unlinked.
    Landed,
    /// Places were released first, and one is counted for the page now. This is its receipt, which is to land.
    Again(R),
    /// No place may be taken for the page, and none can be released, but for what the epochs refused.
    Full(Refused),
}

/// Why a page was not written.
#[derive(Clone, Copy, Debug)]
pub enum Unflushed {
    /// The write failed.
    DeviceFault,
    /// No place may be taken for it, and none can be released, but for what the epochs refused.
    Full(Refused),
}

impl<R: Shows> Shard<R> {
    /// Copies the oldest page that waits to be written, and counts a place for it. Where none may be taken, it releases each
    /// place that can be released, and looks again. What keys have and marks stay.
    pub fn begin_freeing<D: Device<Receipt = R>>(
        &mut self,
        page: &mut Page,
        epochs: &Epochs,
        seat: &mut EpochSeat,
        device: &mut D,
    ) -> Beginning
        requires outside { IsOutside epochs.now seat.old }
        ensures seat { HasTriedOutside epochs.now seat.old seat.new }
        ensures store { shard_store self.new ≡ shard_store self.old }
        ensures marks { shard_marks self.new ≡ shard_marks self.old }
        ensures begun { BeganAt result page.new (shard_counted self.old) (shard_counted self.new) }
        ensures told { BeganTold result (shard_pages self.old) (shard_pages self.new) }
        ensures worn { MatchBeginning result ⊤ (λ refused. ToldWorn refused (known seat.old) (known seat.new)) (λ number. ⊤) }
        ensures rested { HasRested D.failures D.writes device.old device.new }
    {
        match self.begin_flush(page) {
            Begun::Idle => return Beginning::Idle,
            Begun::Full => {}
            Begun::Sealed(number) => return Beginning::Sealed(number),
        }
        let freed = self.free_places(epochs, seat, device);
        match self.begin_flush(page) {
            Begun::Idle => Beginning::Idle,
            Begun::Full => Beginning::Full(freed.refused),
            Begun::Sealed(number) => Beginning::Sealed(number),
        }
    }

    /// Keeps the receipt of a page that was written, as [`Shard::end_flush`] does. Where no place is counted for it and none
    /// may be taken, it releases each place that can be released, and takes one for the receipt, which has then to land in
    /// another hold: in this one a place that is unlinked could not be told from those that were retired.
    pub fn end_freeing<D: Device<Receipt = R>>(
        &mut self,
        flown: Flown<R>,
        epochs: &Epochs,
        seat: &mut EpochSeat,
        device: &mut D,
    ) -> Ending<R>
        requires shown { R.shown flown.receipt ≡ flown.page.now }
        requires outside { IsOutside epochs.now seat.old }
        ensures seat { HasTriedOutside epochs.now seat.old seat.new }
        ensures store { shard_store self.new ≡ shard_store self.old }
        ensures marks { shard_marks self.new ≡ shard_marks self.old }
        ensures ended { EndsAt R.identity R.shown result flown.entry (shard_counted self.old) (shard_counted self.new) }
        ensures told { EndedTold result (shard_pages self.old) (shard_pages self.new) }
        ensures worn { MatchEnding result ⊤ (λ again. ⊤) (λ refused. ToldWorn refused (known seat.old) (known seat.new)) }
        ensures rested { HasRested D.failures D.writes device.old device.new }
    {
        let Flown {
            number,
            page,
            receipt,
        } = flown;
        if self.claim() {
            self.land(number, page, receipt);
            return Ending::Landed;
        }
        let freed = self.free_places(epochs, seat, device);
        if self.claim() {
            Ending::Again(receipt)
        } else {
            Ending::Full(freed.refused)
        }
    }

    /// Writes the oldest page that waits for it to the device, and keeps its receipt. False where none waits. Where no place
    /// may be taken for it, each place that can be released is released first. What keys have and marks stay. `page` is what
    /// it is copied into.
    ///
    /// # Errors
    ///
    /// [`Unflushed::DeviceFault`] where the write failed; [`Unflushed::Full`] where no place may be taken. All is then as it
    /// was, but for places that were released.
    pub fn flush<D: Device<Receipt = R>>(
        &mut self,
        page: &mut Page,
        epochs: &Epochs,
        seat: &mut EpochSeat,
        device: &mut D,
    ) -> Result<bool, Unflushed>
        requires outside { IsOutside epochs.now seat.old }
        ensures seat { HasTriedOutside epochs.now seat.old seat.new }
        ensures store { shard_store self.new ≡ shard_store self.old }
        ensures marks { shard_marks self.new ≡ shard_marks self.old }
        ensures flushed { Flushes result self.old self.new }
        ensures fault { IfErr result (λ why. FlushFailed D.failures why (self.old, device.old, seat.old) (self.new, device.new, seat.new)) }
        ensures no_fault { OnOk result (D.failures device.new ≡ D.failures device.old) }
        ensures writes { HasWritten result (D.writes device.old) (D.writes device.new) }
    {
        let number = match self.begin_freeing(page, epochs, seat, device) {
            Beginning::Idle => return Ok(false),
            Beginning::Full(refused) => return Err(Unflushed::Full(refused)),
            Beginning::Sealed(number) => number,
        };
        let Ok(receipt) = device.write(page) else {
            self.fail_flush();
            return Err(Unflushed::DeviceFault);
        };
        if !self.end_flush(number, page, receipt) {
            unreachable!()
        }
        Ok(true)
    }
}
