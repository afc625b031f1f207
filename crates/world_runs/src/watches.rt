//! What a client watches.

use std::alloc::Global;
use std::collections::BTreeMap;
use words::word::Word;

/// The keys that a client watches, each with the position of the entry from which on it does.
#[derive(Drop)]
pub(crate) struct Watches {
    alloc: Global,
    positions: BTreeMap<Vec<u8>, u64>,
}

impl Watches {
    /// None.
    pub(crate) fn new(alloc: Global) -> Watches {
        Watches {
            alloc,
            positions: BTreeMap::new(alloc),
        }
    }

    /// Watches these keys from this position on; one that is watched already keeps its own.
    pub(crate) fn add(&mut self, keys: &[Word], position: u64) -> Option<()> {
        for key in keys {
            if self.positions.get(key.as_slice()).is_none() {
                let key = Vec::from_slice(self.alloc, key.as_slice()).ok()?;
                let _none = self.positions.insert(key, position).ok()?;
            }
        }
        Some(())
    }

    /// Whether these are the keys, with their positions; no key is among them twice.
    pub(crate) fn are(&self, pairs: &[(Word, u64)]) -> bool {
        pairs.len() == self.positions.len()
            && pairs.iter().all(|(key, position)| self.positions.get(key.as_slice())
                == Some(position))
    }

    /// Watches none.
    pub(crate) fn clear(&mut self) {
        self.positions = BTreeMap::new(self.alloc);
    }
}
