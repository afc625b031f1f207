//! The simulated world as plain data: its events, what each does, and what holds however events follow each
//! other; and the pages that places show which were released.
#![tactic(auto)]

mod event;
mod laws;
mod shown_page;
pub mod theorems;

pub use event::Event;
pub use shown_page::ShownPage;
