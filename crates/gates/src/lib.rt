//! Gates: passes over striped parts, and one history for all of them.
//!
//! A store is cut into 1 to 64 stripes, each with a part of it. The gates have one atomic word for each stripe, which is
//! 0 while the stripe is free, and one commit word. A thread works by a [`Pass`]. It takes the stripes of a call in rising
//! order, so no two passes wait for each other; each take is one `compare_exchange` of a stripe's word. What is taken is
//! [`Held`], which lends the parts ([`Parts`]), and nobody else sees these meanwhile.
//!
//! A call has its place in the history at one step, the `fetch_add` of the commit word by [`Held::commit`]: the entry,
//! which exists in proofs alone, is put in front of all others. What the call found before that step still holds then,
//! since no other pass can name a key of a held stripe. Stripes are given back by one store of 0 each ([`Held::give`]),
//! where each part has to read as its part of what the history leaves. So a change without a commit cannot be given back,
//! nor a commit without its change.
//!
//! What each pass knows (the beginning of the history that it has seen, its own entries, what it watches and holds) is a
//! `View`, for proofs alone. One rule over the words and all views holds between any two steps of any threads:
//! `docs/PROOFS.md` tells it ("One history for all threads"), and `specs/Rule.antt` states it.
#![tactic(auto)]

pub mod asks;
pub mod gates;
pub mod held;
pub mod latch;
mod laws;
mod order;
pub mod part;
pub mod report;
mod rule;
pub mod says;
pub mod sorted;
pub mod view;
pub mod watch_laws;

pub use asks::Asks;
pub use gates::{CommitsWornOut, Gates, Pass};
pub use held::Held;
pub use latch::{Latch, Open, Point};
pub use part::{Part, Parts};
pub use report::Report;
pub use says::Says;
pub use sorted::Sorted;
pub use view::{Look, Refused, Work};
