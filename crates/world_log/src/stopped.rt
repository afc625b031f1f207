//! Why a world stopped.

/// An event found no memory, or the epochs came to their end. The world was given up.
#[derive(Clone, Copy, Debug, PartialEq, Eq)]
pub struct Stopped;
