//! Epochs, stays in them, and retirements.

ghost use Rattle.std.specs.Prelude.{◌≡◌, ◌+◌, ◌*◌, ◌^◌, ◌<◌, ◌≤◌, ◌∷◌, [], ℕ, true, false, All, IsTrue, IsFalse, IfOk, OnOk, OnErr, IfErr, IfSome, IfNone, vec_len, vec_capacity};
ghost use Rattle.epoch.specs.Rule.{word_of, newest};
ghost use Rattle.epoch.specs.Words.{id_in, words_by};

use crate::handle::{Handle, Handles};
use crate::rule::{
    Advance, Arm, ClearOwn, Compare, Deal, Learn, SafeEpochs, SetOwn, Tell, Validate,
};
use crate::view::View;
use crate::words::{EPOCH, EpochWords, word_index};
use atomic_table::{Seat, Shared, Table};
use crossbeam_utils::Backoff;
use std::alloc::{AllocError, Global};
use std::snapshot::Snapshot;
use std::sync::{Arc, Wait};

/// The epoch is not advanced where the epoch word is read as this or more.
const EPOCH_LIMIT: u64 = 1 << 62;

/// The epoch word, which starts at 1, and a word for each seat. Threads share it by reference. The words
/// stay as long as these epochs, a seat of theirs or a retirement does.
#[derive(Drop)]
pub struct Epochs {
    pub(crate) words: Arc<EpochWords>,
}

/// The right to enter an epoch, to retire and to drain, for one thread at a time.
#[derive(Drop)]
pub struct EpochSeat {
    pub(crate) number: usize,
    /// The epoch word as the seat last read it.
    pub(crate) last: u64,
    /// Whether an advance needs no look at the epoch word first.
    pub(crate) armed: bool,
    pub(crate) seat: Seat<u8, View>,
    /// Makes the handles of what it retires.
    pub(crate) handles: Handles,
}

/// Which epochs some are, to a contract: what was retired and is kept beside a name can be known to belong
/// to the epochs that gave it. It has no bytes.
#[derive(Drop)]
pub struct EpochsName {
    named: Snapshot<Epochs>,
}

/// A valid stay in an epoch. It can't be dropped: [`Epochs::leave`] ends it, and gives the seat back.
pub struct Inside {
    pub(crate) seat: EpochSeat,
}

/// A value that was taken out of use, stamped with an epoch that is over. It comes out with that epoch
/// drained, and in no other way. It knows its epochs, so it can drain its own epoch.
#[derive(Drop)]
pub struct Retired<U> {
    pub(crate) value: U,
    pub(crate) epoch: u64,
    pub(crate) seat: Seat<u8, View>,
    pub(crate) handle: Handle,
    // The epoch was advanced past it.
    ghost stamped: { newest seat.me.0.advanced ≡ epoch },
    // Its handle is of the words that its token knows.
    ghost own: { seat.table_id ≡ id_in (words_by handle) },
}

/// An epoch that is clear for good: the epoch word is past it, and no stay is valid at it or below.
#[derive(Drop)]
pub struct Drained {
    pub(crate) epoch: u64,
    pub(crate) seat: Seat<u8, View>,
    // It is below all that a scan found.
    ghost bounded: { epoch < seat.me.0.bound },
    // The scan read the word of each seat.
    ghost whole: { seat.table_id.words ≡ word_of seat.me.0.passed },
    ghost stands_for_none: { (seat.me.0.count ≡ 0) × (seat.me.0.armed ≡ false) × (seat.me.0.valid ≡ false) },
}

impl EpochWords {
    ghost use Rattle.epoch.specs.Seats.{OnlyScanned, HasScanned, WasBlocked, StaysClearIn, drained_of, drained_epoch};

    /// Scans, and makes a token where no word that was read blocks the epoch.
    fn drain(&self, seat: &mut Seat<u8, View>, e: u64) -> Option<Drained>
        requires { seat.old.table_id ≡ id_in self.now }
        ensures table { seat.new.table_id ≡ seat.old.table_id }
        ensures only { OnlyScanned seat.old.me.0 seat.new.me.0 }
        ensures told { HasScanned seat.old.me.0 seat.new.me.0 }
        ensures of { IfSome result (λ drained. drained_of drained ≡ seat.old.table_id) }
        ensures epoch { IfSome result (λ drained. drained_epoch drained ≡ e) }
        ensures clear { IfSome result (λ drained. StaysClearIn self.now drained) }
        ensures none { IfNone result (WasBlocked e seat.old.me.0 seat.new.me.0) }
    {
        if !self.scan(seat, e) {
            return None;
        }
        let token = self.table.shared.split_seat::<Tell>(seat);
        Some(Drained {
            epoch: e,
            seat: token,
        })
    }
}

impl Epochs {
    ghost use Rattle.epoch.specs.Plays.{unmet};
    ghost use Rattle.epoch.specs.Seats.{id_of, named_by, seats_of, CountsAdvances, known, seat_in, stay_epoch, IsSeatOf, IsOutside, IsInside, KnowsNothing, KnowsTheSame, AdvancedPast, WasWorn, WasBlocked, KeepsStay, drained_of, drained_epoch, refusals, retired_of, retired_epoch, retired_value, StaysIn, StaysClear, StaysOver, HasScanned};

    /// Epochs with so many seats, and the seats. The present epoch is 1, and each advance adds 1 to it.
    ///
    /// # Errors
    ///
    /// [`AllocError`] where there is no memory for the words or the list of seats.
    pub fn new(alloc: Global, seats: usize) -> Result<(Epochs, Vec<EpochSeat>), AllocError>
        requires few { seats < 2 ^ 32 }
        ensures seats { IfOk result (λ made. seats_of made.0 ≡ seats) }
        ensures count { IfOk result (λ made. vec_len made.1 ≡ seats) }
        ensures outside { IfOk result (λ made. All (IsOutside made.0) made.1.items) }
        ensures nothing { IfOk result (λ made. All KnowsNothing made.1.items) }
        ensures epoch { IfOk result (λ made. CountsAdvances made.0) }
    {
        let mut words = vec![in alloc; 0u64; word_index(seats)]?;
        words[EPOCH] = 1;
        let dealt = Vec::with_capacity(alloc, seats)?;
        let (table, seat) = Table::of_words(alloc, words.as_slice(), &(seats as u64))?;
        let epochs = Epochs::of(alloc, EpochWords { table, seats })?;
        let dealt = epochs.deal(alloc, seat, dealt)?;
        Ok((epochs, dealt))
    }

    /// Epochs by these words.
    fn of(alloc: Global, words: EpochWords) -> Result<Epochs, AllocError>
        ensures id { IfOk result (λ epochs. id_of epochs ≡ id_in words) }
        ensures seats { IfOk result (λ epochs. seats_of epochs ≡ words.seats) }
    {
        match Arc::new(alloc, words) {
            Ok(words) => Ok(Epochs { words }),
            Err(_) => Err(AllocError),
        }
    }

    /// The table of the words.
    fn shared(&self) -> &Shared<u8, View, u64, SafeEpochs>
        ensures id { result.now.table_id ≡ id_of self.now }
        ensures wide { result.now.table_id.words ≡ word_of (seats_of self.now) }
        ensures few { seats_of self.now < 2 ^ 32 }
    {
        &self.words.table.shared
    }

    /// The name of these epochs.
    pub fn name(&self) -> EpochsName
        ensures { named_by result ≡ id_of self.now }
    {
        EpochsName {
            named: Snapshot::of(self),
        }
    }

    /// Deals out the seats.
    fn deal(
        &self,
        alloc: Global,
        seat: Seat<u8, View>,
        mut dealt: Vec<EpochSeat>,
    ) -> Result<Vec<EpochSeat>, AllocError>
        requires table { seat.table_id ≡ id_of self.now }
        requires all { seat.me ≡ (unmet (seats_of self.now), []) }
        requires none { dealt.items ≡ [] }
        requires room { seats_of self.now ≤ vec_capacity dealt }
        ensures count { IfOk result (λ dealt. vec_len dealt ≡ seats_of self.now) }
        ensures outside { IfOk result (λ dealt. All (IsOutside self.now) dealt.items) }
        ensures nothing { IfOk result (λ dealt. All KnowsNothing dealt.items) }
    {
        let seats = self.words.seats;
        let mut others = seat;
        for number in 0..seats {
            let handles = Handles::of(alloc, &self.words)?;
            let mut seat = others;
            others = self.shared().split_seat::<Deal>(&mut seat);
            dealt.push_reserved(EpochSeat {
                number,
                last: 1,
                armed: false,
                seat,
                handles,
            });
        }
        Ok(dealt)
    }

    /// Sets the own word to the epoch last seen, and says whether the epoch word was read as the same.
    fn try_enter(&self, seat: &mut EpochSeat) -> bool
        requires seat { IsSeatOf self.now seat.old }
        ensures seat { IsSeatOf self.now seat.new }
        ensures valid { IsTrue result → (known seat.new).valid ≡ true }
        ensures same { KnowsTheSame (known seat.old) (known seat.new) }
    {
        let shared = self.shared();
        shared.store::<SetOwn>(&mut seat.seat, word_index(seat.number), seat.last);
        let found = shared.load::<Validate>(&mut seat.seat, EPOCH);
        if found == seat.last {
            return true;
        }
        seat.last = found;
        false
    }

    /// Enters the present epoch: sets the seat's own word to an epoch, then loads the epoch word, until
    /// both agree. It tries again only where another seat has advanced the epoch in between.
    pub fn enter<R: Wait>(&self, rt: &R, seat: EpochSeat) -> Inside
        requires outside { IsOutside self.now seat }
        ensures inside { IsInside self.now result }
        ensures stays { StaysIn self.now result }
        ensures same { KnowsTheSame (known seat) (known (seat_in result)) }
    {
        let mut seat = seat;
        let backoff = Backoff::new();
        for _ in rt.forever() {
            if self.try_enter(&mut seat) {
                return Inside { seat };
            }
            backoff.spin();
        }
        unreachable!()
    }

    /// Ends a stay: clears the seat's word.
    pub fn leave(&self, inside: Inside) -> EpochSeat
        requires inside { IsInside self.now inside }
        ensures outside { IsOutside self.now result }
        ensures same { KnowsTheSame (known (seat_in inside)) (known result) }
    {
        let Inside { mut seat } = inside;
        let word = word_index(seat.number);
        self.shared().store::<ClearOwn>(&mut seat.seat, word, 0);
        seat
    }

    /// Looks at the epoch word where the seat may not add to it yet.
    fn arm(&self, seat: &mut EpochSeat) -> bool
        requires { IsSeatOf self.now seat.old }
        ensures seat { IsSeatOf self.now seat.new }
        ensures stay { KeepsStay (known seat.old) (known seat.new) }
        ensures armed { IsTrue result → (seat.new.armed ≡ true) × KnowsTheSame (known seat.old) (known seat.new) }
        ensures worn { IsFalse result → WasWorn (known seat.old) (known seat.new) }
    {
        if seat.armed {
            return true;
        }
        if self.shared().load::<Arm>(&mut seat.seat, EPOCH) >= EPOCH_LIMIT {
            return false;
        }
        seat.armed = true;
        true
    }

    /// Advances the epoch, and says past which one.
    fn advance(&self, seat: &mut EpochSeat) -> Option<u64>
        requires { IsSeatOf self.now seat.old }
        ensures seat { IsSeatOf self.now seat.new }
        ensures stay { KeepsStay (known seat.old) (known seat.new) }
        ensures some { IfSome result (λ e. AdvancedPast e (known seat.old) (known seat.new)) }
        ensures none { IfNone result (WasWorn (known seat.old) (known seat.new)) }
    {
        if !self.arm(seat) {
            return None;
        }
        let found = self.shared().fetch_add::<Advance>(&mut seat.seat, EPOCH, 1);
        seat.armed = found < EPOCH_LIMIT;
        Some(found)
    }

    /// Advances the epoch, and stamps a value with the one that it advanced past.
    fn stamp<U>(&self, seat: &mut EpochSeat, value: U) -> Result<Retired<U>, U>
        requires { IsSeatOf self.now seat.old }
        ensures seat { IsSeatOf self.now seat.new }
        ensures stay { KeepsStay (known seat.old) (known seat.new) }
        ensures of { IfOk result (λ retired. retired_of retired ≡ id_of self.now) }
        ensures value { IfOk result (λ retired. retired_value retired ≡ value) }
        ensures over { IfOk result (λ retired. StaysOver self.now retired) }
        ensures fresh { IfOk result (λ retired. refusals retired ≡ 0) }
        ensures past { IfOk result (λ retired. AdvancedPast (retired_epoch retired) (known seat.old) (known seat.new)) }
        ensures back { IfErr result (λ same. same ≡ value) }
        ensures worn { OnErr result (WasWorn (known seat.old) (known seat.new)) }
    {
        match self.advance(seat) {
            Some(epoch) => {
                let token = self.shared().split_seat::<Tell>(&mut seat.seat);
                Ok(Retired {
                    value,
                    epoch,
                    seat: token,
                    handle: seat.handles.next(),
                })
            }
            None => Err(value),
        }
    }

    /// Retires a value: advances the epoch, and stamps the value with the epoch that is over then. A stay
    /// that is entered later is past it.
    ///
    /// # Errors
    ///
    /// The value, where the epoch word was read at 2^62 or more. The epoch is then not advanced.
    pub fn retire<U>(&self, seat: &mut EpochSeat, value: U) -> Result<Retired<U>, U>
        requires outside { IsOutside self.now seat.old }
        ensures outside { IsOutside self.now seat.new }
        ensures of { IfOk result (λ retired. retired_of retired ≡ id_of self.now) }
        ensures value { IfOk result (λ retired. retired_value retired ≡ value) }
        ensures over { IfOk result (λ retired. StaysOver self.now retired) }
        ensures fresh { IfOk result (λ retired. refusals retired ≡ 0) }
        ensures past { IfOk result (λ retired. AdvancedPast (retired_epoch retired) (known seat.old) (known seat.new)) }
        ensures back { IfErr result (λ same. same ≡ value) }
        ensures worn { OnErr result (WasWorn (known seat.old) (known seat.new)) }
    {
        self.stamp(seat, value)
    }

    /// Shows that an epoch is drained, by a seat of these epochs; `None` where a stay at it or below, or the epoch word,
    /// was read as standing in the way.
    fn drain(&self, seat: &mut EpochSeat, e: u64) -> Option<Drained>
        requires { IsSeatOf self.now seat.old }
        ensures seat { IsSeatOf self.now seat.new }
        ensures stay { KeepsStay (known seat.old) (known seat.new) }
        ensures told { HasScanned (known seat.old) (known seat.new) }
        ensures of { IfSome result (λ drained. drained_of drained ≡ id_of self.now) }
        ensures epoch { IfSome result (λ drained. drained_epoch drained ≡ e) }
        ensures clear { IfSome result (λ drained. StaysClear self.now drained) }
        ensures none { IfNone result (WasBlocked e (known seat.old) (known seat.new)) }
    {
        self.words.drain(&mut seat.seat, e)
    }

    /// Reads the epoch word and each seat's word, and tells that `e` is clear for good: the epoch is past it,
    /// and no stay is valid at it or below. None where one of these words was read as not past it: a seat's
    /// word as set at `e` or below, or the epoch word as `e` or below.
    pub fn drained(&self, seat: &mut EpochSeat, e: u64) -> Option<Drained>
        requires outside { IsOutside self.now seat.old }
        ensures outside { IsOutside self.now seat.new }
        ensures told { HasScanned (known seat.old) (known seat.new) }
        ensures of { IfSome result (λ drained. drained_of drained ≡ id_of self.now) }
        ensures epoch { IfSome result (λ drained. drained_epoch drained ≡ e) }
        ensures clear { IfSome result (λ drained. StaysClear self.now drained) }
        ensures none { IfNone result (WasBlocked e (known seat.old) (known seat.new)) }
    {
        self.drain(seat, e)
    }

    /// As [`Epochs::retire`], inside a stay, which goes on.
    ///
    /// # Errors
    ///
    /// As [`Epochs::retire`].
    pub fn retire_inside<U>(&self, inside: &mut Inside, value: U) -> Result<Retired<U>, U>
        requires inside { IsInside self.now inside.old }
        ensures inside { IsInside self.now inside.new }
        ensures stay { stay_epoch inside.new ≡ stay_epoch inside.old }
        ensures of { IfOk result (λ retired. retired_of retired ≡ id_of self.now) }
        ensures value { IfOk result (λ retired. retired_value retired ≡ value) }
        ensures over { IfOk result (λ retired. StaysOver self.now retired) }
        ensures fresh { IfOk result (λ retired. refusals retired ≡ 0) }
        ensures past { IfOk result (λ retired. AdvancedPast (retired_epoch retired) (known (seat_in inside.old)) (known (seat_in inside.new))) }
        ensures back { IfErr result (λ same. same ≡ value) }
        ensures worn { OnErr result (WasWorn (known (seat_in inside.old)) (known (seat_in inside.new))) }
    {
        self.stamp(&mut inside.seat, value)
    }

    /// As [`Epochs::drained`], inside a stay, which goes on and counts as any other.
    pub fn drained_inside(&self, inside: &mut Inside, e: u64) -> Option<Drained>
        requires inside { IsInside self.now inside.old }
        ensures inside { IsInside self.now inside.new }
        ensures stay { stay_epoch inside.new ≡ stay_epoch inside.old }
        ensures told { HasScanned (known (seat_in inside.old)) (known (seat_in inside.new)) }
        ensures of { IfSome result (λ drained. drained_of drained ≡ id_of self.now) }
        ensures epoch { IfSome result (λ drained. drained_epoch drained ≡ e) }
        ensures clear { IfSome result (λ drained. StaysClear self.now drained) }
        ensures none { IfNone result (WasBlocked e (known (seat_in inside.old)) (known (seat_in inside.new))) }
    {
        self.drain(&mut inside.seat, e)
    }

    /// A valid stay is past each drained epoch. The call shows this to contracts, and changes nothing.
    pub fn compare(&self, inside: &mut Inside, drained: &mut Drained)
        requires inside { IsInside self.now inside.old }
        requires drained { drained_of drained.old ≡ id_of self.now }
        ensures inside { IsInside self.now inside.new }
        ensures drained { drained_of drained.new ≡ id_of self.now }
        ensures epoch { drained_epoch drained.new ≡ drained_epoch drained.old }
        ensures same { KnowsTheSame (known (seat_in inside.old)) (known (seat_in inside.new)) }
        ensures stay { stay_epoch inside.new ≡ stay_epoch inside.old }
        ensures apart { drained_epoch drained.new < stay_epoch inside.new }
    {
        let shared = self.shared();
        let token = shared.split_seat::<Tell>(&mut drained.seat);
        shared.join_seat::<Learn>(&mut inside.seat.seat, token);
        shared.load::<Compare>(&mut inside.seat.seat, EPOCH);
    }
}

/// A value that is wrapped round another one.
pub trait Wraps {
    /// The value inside.
    type Inner;

    // The value inside.
    ghost inner: { Self → Self.Inner };

    /// Takes the wrapper off.
    fn into_inner(self) -> Self::Inner
        ensures { result ≡ inner self };
}

impl<U> Retired<U> {
    ghost use Rattle.epoch.specs.declared.epochs.Epochs.{Epochs};
    ghost use Rattle.epoch.specs.Seats.{retired_epoch, retired_of, retired_value, retired_known, refusals, drained_epoch, drained_of, id_of, HasScanned, StaysClear, StaysOver, WasBlocked};

    /// The epoch of the stamp.
    pub fn epoch(&self) -> u64
        ensures { result ≡ retired_epoch self.now }
    {
        self.epoch
    }

    /// As [`Epochs::drained`] of its own epoch, by the epochs that retired it: what retired it knows them,
    /// and wants no seat. Where it is refused, the note of the word that was read stays with it.
    pub fn drained(&mut self) -> Option<Drained>
        ensures value { retired_value self.new ≡ retired_value self.old }
        ensures stamp { retired_epoch self.new ≡ retired_epoch self.old }
        ensures same_epochs { retired_of self.new ≡ retired_of self.old }
        ensures over { (epochs : Epochs) → StaysOver epochs self.new }
        ensures told { HasScanned (retired_known self.old) (retired_known self.new) }
        ensures of { IfSome result (λ drained. drained_of drained ≡ retired_of self.old) }
        ensures epoch { IfSome result (λ drained. drained_epoch drained ≡ retired_epoch self.old) }
        ensures clear { (epochs : Epochs) → id_of epochs ≡ retired_of self.old → IfSome result (λ drained. StaysClear epochs drained) }
        ensures none { IfNone result (WasBlocked (retired_epoch self.old) (retired_known self.old) (retired_known self.new)) }
        ensures refused { IfNone result (refusals self.old < refusals self.new) }
    {
        self.handle.words().drain(&mut self.seat, self.epoch)
    }

    /// The value, for use anew, since its epoch is drained, by the epochs that retired it.
    pub fn into_value(self, drained: &Drained) -> U
        requires drained { retired_epoch self ≡ drained_epoch drained.now }
        requires of { retired_of self ≡ drained_of drained.now }
        ensures { result ≡ retired_value self }
    {
        let Retired {
            value,
            epoch: _,
            seat: _,
            handle: _,
        } = self;
        value
    }
}

impl<U: Wraps> Retired<U> {
    ghost use Rattle.epoch.specs.declared.epochs.Epochs.{Epochs};
    ghost use Rattle.epoch.specs.Seats.{retired_epoch, retired_of, retired_value, retired_known, StaysOver};

    /// Takes the wrapper off the value, which stays retired as it is.
    pub fn into_inner(self) -> Retired<U::Inner>
        ensures value { retired_value result ≡ U.inner (retired_value self) }
        ensures epoch { retired_epoch result ≡ retired_epoch self }
        ensures of { retired_of result ≡ retired_of self }
        ensures known { retired_known result ≡ retired_known self }
        ensures over { (epochs : Epochs) → StaysOver epochs self → StaysOver epochs result }
    {
        let Retired {
            value,
            epoch,
            seat,
            handle,
        } = self;
        let value = value.into_inner();
        Retired {
            value,
            epoch,
            seat,
            handle,
        }
    }
}

impl Drained {
    ghost use Rattle.epoch.specs.Seats.{drained_epoch};

    /// The epoch that is clear.
    pub fn epoch(&self) -> u64
        ensures { result ≡ drained_epoch self.now }
    {
        self.epoch
    }
}
