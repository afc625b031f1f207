//! A page that was written.

use crate::cells::Flight;
use device::Shows;
use records::Page;

/// A page that was written to the device. As its flight, it is no value that can be dropped.
pub(crate) struct Written<'a, R: Shows> {
    pub(crate) flight: Flight,
    /// What was written.
    pub(crate) page: &'a Page,
    /// What the device answered.
    pub(crate) receipt: R,
}
