//! Pages that a released place shows.

ghost use Rattle.std.specs.Prelude.{◌≡◌, IfOk, length, replicate};
ghost use Rattle.std.specs.Arc.{arc_value};
ghost use Rattle.world_model.specs.ShownPages.{page_of};

use records::Page;
use std::alloc::{AllocError, Global};
use std::marker::Model;
use std::sync::Arc;
use words::word::OutOfMemory;

/// A page that a place of the device shows once it was released: any bytes. To a contract it is these.
#[derive(Drop)]
pub struct ShownPage {
    page: Arc<Page>,
}

impl Model for ShownPage {
    ghost use Rattle.std.specs.Prelude.{ℕ, List};
    ghost use Rattle.std.specs.Arc.{arc_value};

    ghost Value = { List ℕ };

    ghost view = { λ shown. arc_value shown.page };
}

impl ShownPage {
    /// Shows this page.
    ///
    /// # Errors
    ///
    /// [`OutOfMemory`] where there is no memory to share the page.
    pub fn new(alloc: Global, page: Page) -> Result<ShownPage, OutOfMemory>
        ensures { IfOk result (λ shown. shown ≡ page) }
    {
        match Arc::new(alloc, page) {
            Ok(page) => Ok(ShownPage { page }),
            Err(_) => Err(AllocError),
        }
    }

    /// Shows a page of which each byte is this.
    ///
    /// # Errors
    ///
    /// [`OutOfMemory`] where there is no memory for 65,536 bytes.
    pub fn filled(alloc: Global, byte: u8) -> Result<ShownPage, OutOfMemory>
        ensures { IfOk result (λ shown. shown ≡ page_of byte) }
    {
        ShownPage::new(alloc, page_filled(alloc, byte)?)
    }

    /// The page.
    pub fn page(&self) -> &Page
        ensures { result.now ≡ self.now }
    {
        &self.page
    }

    /// The page, which is then shared: nothing is copied.
    ///
    /// # Errors
    ///
    /// [`OutOfMemory`] where it is shared as often as can be counted.
    pub fn shared(&self) -> Result<Arc<Page>, OutOfMemory>
        ensures { IfOk result (λ page. arc_value page ≡ self.now) }
    {
        Arc::try_clone(&self.page)
    }

    /// The same once more: both share the page.
    ///
    /// # Errors
    ///
    /// As [`shared`](ShownPage::shared).
    pub fn again(&self) -> Result<ShownPage, OutOfMemory>
        ensures { IfOk result (λ shown. shown ≡ self.now) }
    {
        Ok(ShownPage {
            page: self.shared()?,
        })
    }
}

/// A page of which each byte is this.
fn page_filled(alloc: Global, byte: u8) -> Result<Page, OutOfMemory>
    ensures { IfOk result (λ page. page ≡ page_of byte) }
{
    let mut page = Page::new(alloc, 0)?;
    fill(page.bytes_mut(), byte);
    Ok(page)
}

/// Makes each byte this.
fn fill(bytes: &mut [u8], byte: u8)
    ensures { bytes.new ≡ replicate (length bytes.old) byte }
{
    bytes.fill(byte);
}
