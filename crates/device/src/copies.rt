// Pages that can be shared: copies, and pages that their owners give up.

ghost use Rattle.std.specs.Prelude.{◌≡◌, ◌+◌, IfOk, IfNone, IfSome, OnErr, OnOk};
ghost use Rattle.records.specs.Page.{zero_page};
ghost use Rattle.std.specs.Arc.{arc_value};

use crate::counts::CallCount;
use records::Page;
use std::alloc::{AllocError, Global};
use std::marker::Model;
use std::mem;
use std::sync::Arc;

/// Makes copies of pages, and takes pages for blank ones. To a contract it is how often the allocator had no memory for one:
/// only the call that asks the allocator counts that, so no caller can say that memory was refused where none was asked for.
#[derive(Drop)]
pub(crate) struct Copies {
    alloc: Global,
    refusals: CallCount,
}

impl Model for Copies {
    ghost use Rattle.std.specs.Prelude.{ℕ};

    ghost Value = { ℕ };

    ghost view = { λ c. c.refusals };
}

impl Copies {
    /// Nothing was refused yet.
    pub(crate) fn new(alloc: Global) -> Copies
        ensures { result ≡ 0 }
    {
        Copies {
            alloc,
            refusals: CallCount::new(),
        }
    }

    /// A copy of a page that can be shared, or `None` where the allocator has no memory for it.
    pub(crate) fn share(&mut self, page: &Page) -> Option<Arc<Page>>
        ensures copy { IfSome result (λ shared. arc_value shared ≡ page.now) }
        ensures had { IfSome result (λ _. self.new ≡ self.old) }
        ensures refused { IfNone result (self.new ≡ self.old + 1) }
    {
        match shared(self.alloc, page) {
            Ok(shared) => Some(shared),
            Err(_) => {
                self.refusals.note();
                None
            }
        }
    }

    /// A page, taken as it is, that can be shared, and a blank one in its place; or `None` where the allocator has no memory
    /// for one, and the page as it was.
    pub(crate) fn take(&mut self, page: &mut Page) -> Option<Arc<Page>>
        ensures taken { IfSome result (λ shared. arc_value shared ≡ page.old) }
        ensures blank { IfSome result (λ _. page.new ≡ zero_page) }
        ensures kept { IfNone result (page.new ≡ page.old) }
        ensures had { IfSome result (λ _. self.new ≡ self.old) }
        ensures refused { IfNone result (self.new ≡ self.old + 1) }
    {
        match taken(self.alloc, page) {
            Ok(shared) => Some(shared),
            Err(_) => {
                self.refusals.note();
                None
            }
        }
    }
}

// A page, taken as it is, that can be shared. A blank one is left in its place.
fn taken(alloc: Global, page: &mut Page) -> Result<Arc<Page>, AllocError>
    ensures taken { IfOk result (λ shared. arc_value shared ≡ page.old) }
    ensures blank { OnOk result (page.new ≡ zero_page) }
    ensures kept { OnErr result (page.new ≡ page.old) }
{
    let blank = Page::blank(alloc)?;
    match Arc::new(alloc, mem::replace(page, blank)) {
        Ok(shared) => Ok(shared),
        Err(refused) => {
            *page = refused.value;
            Err(AllocError)
        }
    }
}

// A copy of a page that can be shared.
fn shared(alloc: Global, page: &Page) -> Result<Arc<Page>, AllocError>
    ensures { IfOk result (λ shared. arc_value shared ≡ page.now) }
{
    let copy = page.try_clone(alloc)?;
    match Arc::new(alloc, copy) {
        Ok(shared) => Ok(shared),
        Err(_) => Err(AllocError),
    }
}
