//! What a thread of the background hears and says beside the stripes: whether anybody is served, how long it rests, and
//! whether the cleaner is behind.

ghost use Rattle.std.specs.Prelude.{◌≡◌, ◌∷◌, List};
ghost use Rattle.upkeep.specs.declared.calls.Call.{Call};

/// What a thread of the background hears and says beside the stripes.
pub trait Surroundings {
    // The calls that were made so far, with their answers, the newest first.
    ghost calls: { Self → List Call };

    /// Whether no connection is accepted any more, and none is served.
    fn is_over(&mut self) -> bool
        ensures { calls self.new ≡ Call.IsOver result ∷ calls self.old };

    /// Whether no connection is served.
    fn is_idle(&mut self) -> bool
        ensures { calls self.new ≡ Call.IsIdle result ∷ calls self.old };

    /// Rests for so many milliseconds.
    fn rest(&mut self, milliseconds: u64)
        ensures { calls self.new ≡ Call.Rest milliseconds ∷ calls self.old };

    /// Says whether the cleaner is behind those who write.
    fn tell_behind(&mut self, is_behind: bool)
        ensures { calls self.new ≡ Call.TellBehind is_behind ∷ calls self.old };
}
