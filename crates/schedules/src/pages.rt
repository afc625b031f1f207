//! The pages that `release` lines show.

ghost use Rattle.std.specs.Prelude.{◌≡◌, IfOk, IfSome};
ghost use Rattle.world_model.specs.ShownPages.{page_of};

use std::alloc::Global;
use std::marker::Model;
use words::word::OutOfMemory;
use world_model::ShownPage;

/// A page of which each byte is the same.
#[derive(Drop)]
struct Filled {
    byte: u8,
    page: ShownPage,
}

// To a contract it is that byte.
impl Model for Filled {
    ghost use Rattle.std.specs.Prelude.{ℕ, ◌≡◌};
    ghost use Rattle.world_model.specs.ShownPages.{page_of};

    ghost Value = { ℕ };

    ghost view = { λ filled. filled.byte };

    ghost invariant = { λ filled. filled.page ≡ page_of filled.byte };
}

impl Filled {
    fn new(alloc: Global, byte: u8) -> Result<Filled, OutOfMemory>
        ensures { IfOk result (λ filled. filled ≡ byte) }
    {
        let page = ShownPage::filled(alloc, byte)?;
        Ok(Filled { byte, page })
    }

    fn byte(&self) -> u8
        ensures { result ≡ self.now }
    {
        self.byte
    }

    /// Its page, which is then shared.
    fn page(&self) -> Result<ShownPage, OutOfMemory>
        ensures { IfOk result (λ page. page ≡ page_of self.now) }
    {
        self.page.again()
    }
}

/// The pages that a schedule's lines show: one for each byte that some line names, which all these lines share.
#[derive(Drop)]
pub(crate) struct Pages {
    alloc: Global,
    made: Vec<Filled>,
}

impl Pages {
    /// None yet.
    pub(crate) fn new(alloc: Global) -> Pages {
        Pages {
            alloc,
            made: Vec::new(alloc),
        }
    }

    /// A page of which each byte is this: the one that was made for an earlier line, or else a new one.
    pub(crate) fn of(&mut self, byte: u8) -> Result<ShownPage, OutOfMemory>
        ensures { IfOk result (λ page. page ≡ page_of byte) }
    {
        if let Some(filled) = made_of(self.made.as_slice(), byte) {
            return filled.page();
        }
        let filled = Filled::new(self.alloc, byte)?;
        let page = filled.page()?;
        self.made.push(filled)?;
        Ok(page)
    }
}

/// The one of this byte, if there is one.
fn made_of(made: &[Filled], byte: u8) -> Option<&Filled>
    ensures { IfSome result (λ filled. filled.now ≡ byte) }
{
    for filled in made {
        if filled.byte() == byte {
            return Some(filled);
        }
    }
    None
}
