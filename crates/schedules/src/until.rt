//! When a run ends.

/// When a run ends.
#[derive(Clone, Copy, Debug, PartialEq, Eq)]
pub enum Until {
    /// With the schedule's last event.
    Done,
    /// When each client rests: events of calls are done behind the schedule's, as
    /// [`World::finish`](world::World::finish) does them.
    Rest,
}
