//! Why a plan was not made.

ghost use Rattle.std.specs.Prelude.{◌≡◌, [], ◌∷◌, ◌++◌, length, nat_eq, IsOk, OnOk, OnErr, IfSome, IfNone};
ghost use Rattle.shards.specs.Receipts.{kept_by};

use device::Shows;
use hybrid::ReadFault;
use std::alloc::Global;
use std::marker::Model;
use words::word::OutOfMemory;

/// Why a plan was not made. What keys have and all marks are as they were.
#[derive(Drop)]
pub enum Stop<R: Shows> {
    /// A growth was refused.
    OutOfMemory,
    /// A call of the device failed.
    DeviceFault,
    /// This stripe, which the call writes, has no place left on the device.
    StoreFull(usize),
    /// Pages are wanted that are neither resident nor staged: copies of their receipts, one at least. Nothing has
    /// changed at all. Where receipts lend their pages, none is wanted.
    Cold(Receipts<R>),
}

impl<R: Shows> From<ReadFault> for Stop<R> {
    ghost use Rattle.hybrid.specs.Reading.{MatchReadFault};
    ghost use Rattle.plans.specs.declared.stop.Stop.TheVariants as stop;

    ghost from_gives = { λ fault made. MatchReadFault fault (made ≡ stop.OutOfMemory) (made ≡ stop.DeviceFault) };

    fn from(fault: ReadFault) -> Stop<R> {
        match fault {
            ReadFault::OutOfMemory => Stop::OutOfMemory,
            ReadFault::DeviceFault => Stop::DeviceFault,
        }
    }
}

/// A page that is wanted.
#[derive(Drop)]
pub struct Wanted<R: Shows> {
    /// A copy of its receipt.
    pub receipt: R,
    /// Where in it the record stands that is looked for.
    pub offset: usize,
}

/// Receipts of pages that are wanted. Contracts see of each what it has in common with its copies, and the page that it shows.
#[derive(Drop)]
pub struct Receipts<R: Shows> {
    /// The first, which takes no memory of its own.
    first: Option<Wanted<R>>,
    /// Those after it.
    others: Vec<Wanted<R>>,
}

impl<R: Shows> Model for Receipts<R> {
    ghost use Rattle.std.specs.Prelude.{List, IfNone, ◌≡◌, []};
    ghost use Rattle.hybrid.specs.HybridLog.{Kept};
    ghost use Rattle.shards.specs.Receipts.{listed};

    ghost Value = { List Kept };

    ghost view = { λ receipts. listed (λ wanted. R.identity wanted.receipt) (λ wanted. R.shown wanted.receipt) receipts.first receipts.others.items };

    ghost invariant = { λ receipts. IfNone receipts.first (receipts.others.items ≡ []) };
}

impl<R: Shows> Receipts<R> {
    /// No receipt. It takes no memory.
    pub fn new(alloc: Global) -> Receipts<R>
        ensures { result ≡ [] }
    {
        Receipts {
            first: None,
            others: Vec::new(alloc),
        }
    }

    /// One receipt more. The first takes no memory.
    ///
    /// # Errors
    ///
    /// [`OutOfMemory`] where there is no memory for it. The others are then as they were.
    pub fn push(&mut self, wanted: Wanted<R>) -> Result<(), OutOfMemory>
        ensures ok { OnOk result (self.new ≡ self.old ++ kept_by R.identity R.shown wanted.receipt ∷ []) }
        ensures err { OnErr result (self.new ≡ self.old) }
        ensures first { self.old ≡ [] → IsOk result }
    {
        if self.first.is_none() {
            self.first = Some(wanted);
            return Ok(());
        }
        self.others.reserve(1)?;
        self.others.push_reserved(wanted);
        Ok(())
    }

    /// Takes the last receipt off.
    pub fn pop(&mut self) -> Option<Wanted<R>>
        ensures some { IfSome result (λ wanted. self.old ≡ self.new ++ kept_by R.identity R.shown wanted.receipt ∷ []) }
        ensures none { IfNone result ((self.old ≡ []) × (self.new ≡ self.old)) }
    {
        match self.others.pop() {
            Some(last) => Some(last),
            None => self.first.take(),
        }
    }

    /// Whether there is none.
    pub fn is_empty(&self) -> bool
        ensures { result ≡ nat_eq (length self.now) 0 }
    {
        self.len() == 0
    }

    /// How many there are.
    pub fn len(&self) -> usize
        ensures { result ≡ length self.now }
    {
        match self.first {
            Some(_) => self.others.len() + 1,
            None => 0,
        }
    }
}
