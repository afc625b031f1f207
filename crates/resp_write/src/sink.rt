//! Where the bytes of a reply go.

ghost use Rattle.std.specs.Prelude.{◌≡◌, ◌+◌, ◌≤◌, ◌<◌, ◌^◌, ℕ, List, [], ◌++◌, length, Vec, vec_len, vec_capacity, vec_items};
ghost use Rattle.streams.specs.Streams.{AppendsBeginning, stream_of, told_of};
ghost use Rattle.streams.specs.declared.observed.Told.TheVariants.{Failure};
ghost use Rattle.std.specs.Io.KnownBytes.{Appends};
ghost use Rattle.std.proofs.Common.{◌∙◌, refl, rules};
ghost use Rattle.std.proofs.lemmas.Grind.{common_steps};
ghost use Rattle.streams.specs.Laws.{Keeps-same, Appends-none, Appends-then, AppendsBeginning-more, AppendsBeginning-then};
ghost use Rattle.resp_write.specs.Sinks.{IsGiven};

use std::io::Write;
use streams::Noted;

/// A sink took no more bytes.
#[derive(Clone, Copy)]
pub(crate) struct Stopped;

/// It takes a text, given part by part.
pub(crate) trait Sink {
    // Between these two states it took this text.
    ghost takes: { Self → Self → List ℕ → Type 0 };

    // Between these two states it stopped within this text.
    ghost stops: { Self → Self → List ℕ → Type 0 };

    /// Takes a part.
    fn give(&mut self, part: &[u8]) -> Result<(), Stopped>
        ensures { IsGiven takes stops self.old self.new result part.now };

    // Nothing is a text.
    ghost takes_none: { (s : Self) → takes s s [] };

    // Two texts, one after the other, are one.
    ghost takes_then: { (s t u : Self) (a b : List ℕ) → takes s t a → takes t u b → takes s u (a ++ b) };

    // What stops within a part stops within a text that begins with it.
    ghost stops_more: { (s t : Self) (a b : List ℕ) → stops s t a → stops s t (a ++ b) };

    // And within one that has the part after what was taken.
    ghost stops_then: { (s t u : Self) (a b : List ℕ) → takes s t a → stops t u b → stops s u (a ++ b) };
}

/// How many bytes a text has. It stops where they are 2^64 or more.
#[derive(Clone, Copy)]
pub(crate) struct Length {
    pub(crate) bytes: usize,
}

impl Sink for Length {
    ghost takes = { λ s t text. t.bytes ≡ s.bytes + length text };

    ghost stops = { λ s t text. 2 ^ 64 ≤ s.bytes + length text };

    #[inline]
    fn give(&mut self, part: &[u8]) -> Result<(), Stopped> {
        match self.bytes.checked_add(part.len()) {
            Some(bytes) => {
                self.bytes = bytes;
                Ok(())
            }
            None => Err(Stopped),
        }
    }

    ghost takes_none = { Prim.search (rules, common_steps) };

    ghost takes_then = { Prim.search (rules, common_steps) };

    ghost stops_more = { Prim.search (rules, common_steps) };

    ghost stops_then = { Prim.search (rules, common_steps) };
}

// It stops only where there is neither room nor memory.
impl Sink for Vec<u8> {
    ghost takes = { λ s t text. (t.items ≡ s.items ++ text) × (vec_len t ≡ vec_len s + length text)
        × (vec_capacity s ≤ vec_capacity t) };

    ghost stops = { λ s t text. vec_capacity s < vec_len s + length text };

    #[inline]
    fn give(&mut self, part: &[u8]) -> Result<(), Stopped> {
        match self.extend_from_slice(part) {
            Ok(()) => Ok(()),
            Err(_) => Err(Stopped),
        }
    }

    ghost takes_none = { Prim.search (rules, common_steps) };

    ghost takes_then = { Prim.search (rules, common_steps) };

    ghost stops_more = { Prim.search (rules, common_steps) };

    ghost stops_then = { Prim.search (rules, common_steps) };
}

// It stops where a write fails.
impl<W: Write> Sink for Noted<W> {
    ghost takes = { λ s t text. Appends (W.contents (stream_of s)) (W.contents (stream_of t)) text
        × (told_of t ≡ told_of s) };

    ghost stops = { λ s t text. AppendsBeginning (W.contents (stream_of s)) (W.contents (stream_of t)) text
        × (told_of t ≡ Failure) };

    fn give(&mut self, part: &[u8]) -> Result<(), Stopped> {
        match self.write_all(part) {
            Ok(()) => Ok(()),
            Err(_) => Err(Stopped),
        }
    }

    ghost takes_none = { λ s. (Appends-none _ _ (Keeps-same _), refl) };

    ghost takes_then = { λ s t u a b x y. (Appends-then _ _ _ a b x.0 y.0, y.1 ∙ x.1) };

    ghost stops_more = { λ s t a b x. (AppendsBeginning-more _ _ a b x.0, x.1) };

    ghost stops_then = { λ s t u a b x y. (AppendsBeginning-then _ _ _ a b x.0 y.0, y.1) };
}
