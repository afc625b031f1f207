//! The bytes of replies, in the Redis serialization protocol, version 2: [`encode`] and
//! [`encode_within`] append them to a buffer, [`send`] writes them to a stream. [`encode_line_within`] and
//! [`encode_value_within`] do without a reply, [`encode_values_within`] and [`send_values`] take values that
//! lie there as they are spelled, and [`say_within`], [`say_up_to`] and [`SaidAll`] take values where they lie.
//!
//! One walk over a reply's tree gives its bytes, part by part, to a sink: a count of them, a buffer,
//! or a stream. So a buffer is given room for all of them at once, and a stream needs no memory. A reply that
//! surely fits is not counted before (`bound`).
#![tactic(auto)]

mod bound;
mod encoder;
mod said;
mod sink;
mod walk;

pub use encoder::{
    encode, encode_line_within, encode_value_within, encode_values_within, encode_within, send,
    send_values,
};
pub use said::{Said, SaidAll, say_up_to, say_within};
