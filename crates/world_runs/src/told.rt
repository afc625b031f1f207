//! What a client was told.

/// What a client is told whose call met a full stripe.
const FULL: &[u8] = b"-FULL store is full\r\n";

/// What it is told of the requests of a transaction of two commands, before the last.
const QUEUED: &[u8] = b"+OK\r\n+QUEUED\r\n+QUEUED\r\n";

/// Whether some call may wait for its commit.
#[derive(Clone, Copy, PartialEq, Eq)]
pub(crate) enum Waits {
    Some,
    None,
}

/// What a client was told, behind what was compared already.
#[derive(Drop)]
pub(crate) struct Told<'a> {
    rest: &'a [u8],
    refused: usize,
}

impl<'a> Told<'a> {
    /// All that a client was told.
    pub(crate) fn new(output: &'a [u8]) -> Told<'a> {
        Told {
            rest: output,
            refused: 0,
        }
    }

    /// Takes a reply off. `None` where something else was told.
    pub(crate) fn take(&mut self, reply: &[u8]) -> Option<()> {
        self.rest = self.rest.strip_prefix(reply)?;
        Some(())
    }

    /// Takes what was told of a transaction off that is to be done.
    pub(crate) fn take_queued(&mut self) -> Option<()> {
        self.take(QUEUED)
    }

    /// Takes off what was told of calls that met a full stripe, and says whether a transaction is among them.
    pub(crate) fn take_refusals(&mut self) -> bool {
        let mut queued = false;
        for _ in 0..self.rest.len() {
            if let Some(rest) = self.rest.strip_prefix(FULL) {
                self.rest = rest;
            } else if let Some(rest) = after_both(self.rest) {
                self.rest = rest;
                queued = true;
            } else {
                break;
            }
            self.refused = self.refused.saturating_add(1);
        }
        queued
    }

    /// How many calls were refused, where nothing else is left; but where a transaction may wait, what was told of one.
    pub(crate) fn end(mut self, waits: Waits) -> Option<usize> {
        let _queued = self.take_refusals();
        let queued = waits == Waits::Some && self.rest == QUEUED;
        if self.rest.is_empty() || queued {
            Some(self.refused)
        } else {
            None
        }
    }
}

/// What is left behind what was told of a transaction that met a full stripe.
fn after_both(output: &[u8]) -> Option<&[u8]> {
    output.strip_prefix(QUEUED)?.strip_prefix(FULL)
}
