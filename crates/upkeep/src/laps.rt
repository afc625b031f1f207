//! When the cleaner works at a stripe.

ghost use Rattle.std.specs.Prelude.{◌≡◌, ◌≤◌, ◌<◌, ◌+◌, ◌*◌, ◌-◌, true, false, min, nat_lt};

/// How many steps a place takes from its page to its release: unlinked, retired, drained, released.
const STEPS_EACH: usize = 4;
/// A lap that gave back no more than this part of the places that were used is in vain.
const GAIN_PART: usize = 32;
/// After how many looks the cleaner tries a full stripe again, at first and at most. Looks are a rest apart where no other
/// stripe has work.
const LOOKS_MIN: usize = 10;

const LOOKS_MAX: usize = 1_000;
/// Those who write wait for a lap where fewer places than this part of all are left, or just so many.
const LEFT_PART: usize = 8;
/// The most steps of a short lap, which begins where a deletion has opened a page: one page that is gained is room for the next.
const SHORT_STEPS: usize = 64;

/// What is seen of a stripe.
#[derive(Clone, Copy, Debug, PartialEq, Eq)]
pub struct Seen {
    /// How many of its places are used.
    pub used: usize,
    /// How many places it has.
    pub places: usize,
    /// Whether a deletion has opened the page that is left for it.
    pub opened: bool,
}

/// What the cleaner does after a look at a stripe where no step of a lap is left.
#[derive(Clone, Copy, Debug, PartialEq, Eq)]
pub enum Choice {
    /// A whole lap: the last one was not in vain, or there was none.
    Next,
    /// A short lap: a deletion has opened the page that is left for it since the last look.
    Short,
    /// A whole lap: more places are used than after the one in vain, by more than a thirty-second of all.
    Grown,
    /// A whole lap: the stripe is full, and the cleaner has waited for as many looks as it had patience for.
    Tried,
    /// No lap.
    Wait,
}

/// The cleaner's laps over the places of a stripe. A lap has as many steps as it takes to come by each used place once. Where
/// one was in vain, since nearly all that it copied still lives, the cleaner leaves the stripe alone until more places are
/// used. A full stripe, where keys may be overwritten or deleted meanwhile, it tries again after a while. Where a deletion has
/// opened the page that is left for it, a short lap begins at once, so that the next one finds a page too; where that gave no
/// page back, a whole one follows soon.
#[derive(Clone, Copy, Debug, Drop)]
pub struct Laps {
    /// The steps that are left of this lap.
    left: usize,
    /// The places that were used when it began; 0 where there is none.
    began: usize,
    /// The places that were used when the last one ended in vain; 0 where it did not.
    vain: usize,
    /// How often the cleaner has looked since.
    looks: usize,
    /// After how many looks it tries a full stripe again.
    patience: usize,
    /// Whether a deletion had opened the page that is left for it, at the last look.
    opened: bool,
    /// Whether the last lap began for that, with a few steps.
    short: bool,
    /// Whether those who write wait for the cleaner here.
    pub(crate) behind: bool,
    ghost bounded: { left ≤ 4 * began },
    ghost patient: { patience ≤ 1000 },
    ghost looking: { looks ≤ 1000 },
}

impl Laps {
    ghost use Rattle.upkeep.specs.Laps.{IsAfter, IsNewLaps, SameLap, begins_by, choice_by, is_behind_by, is_gain, is_short_lap, patience_by, patience_next, steps_by, vain_by};

    /// No lap has begun.
    pub fn new() -> Laps
        ensures { IsNewLaps result }
    {
        Laps {
            left: 0,
            began: 0,
            vain: 0,
            looks: 0,
            patience: LOOKS_MIN,
            opened: false,
            short: false,
            behind: false,
        }
    }

    /// Whether the lap goes on: it has a step left, which is taken.
    pub fn goes_on(&mut self) -> bool
        ensures answer { result ≡ nat_lt 0 self.old.left }
        ensures taken { self.new.left ≡ self.old.left - 1 }
        ensures over { result ≡ false → self.new ≡ self.old }
        ensures same { SameLap self.old self.new }
    {
        if self.left == 0 {
            return false;
        }
        self.left -= 1;
        true
    }

    /// Ends the lap before its last step, since a step met a fault.
    pub fn stop(&mut self)
        ensures stopped { self.new.left ≡ 0 }
        ensures same { SameLap self.old self.new }
    {
        self.left = 0;
    }

    /// Notes whether those who write wait for the cleaner here: where a lap has steps left, and few places of the stripe are.
    pub fn note_behind(&mut self, used: usize, places: usize)
        ensures left { self.new.left ≡ self.old.left }
        ensures same { SameLap self.old self.new }
        ensures behind { self.new.behind ≡ is_behind_by self.old.left used places }
    {
        self.behind = self.left > 0 && used >= places - places / LEFT_PART;
    }

    /// Notes that nobody waits for the cleaner here.
    pub fn note_level(&mut self)
        ensures left { self.new.left ≡ self.old.left }
        ensures same { SameLap self.old self.new }
        ensures behind { self.new.behind ≡ false }
    {
        self.behind = false;
    }

    /// Whether those who write wait for the cleaner here.
    pub fn is_behind(&self) -> bool
        ensures { result ≡ self.now.behind }
    {
        self.behind
    }

    /// Whether a new lap begins after this look, whose first step is taken. The last one has ended.
    pub fn begins(&mut self, seen: &Seen) -> bool
        requires over { self.old.left ≡ 0 }
        ensures answer { result ≡ begins_by (choice_by self.old seen.now) seen.now.used }
        ensures after { IsAfter self.old seen.now (choice_by self.old seen.now) self.new }
        ensures none { result ≡ false → self.new.left ≡ 0 }
        // A full stripe is tried again after as many looks as there is patience for, which is 1,000 at most.
        ensures soon { result ≡ false → 0 < seen.now.used → seen.now.places ≤ seen.now.used → self.new.looks < self.new.patience }
        ensures counted { result ≡ false → 0 < seen.now.used → self.new.looks ≡ min (self.old.looks + 1) 1000 }
    {
        let choice = self.choice(seen);
        let patience = self.patience_after(seen);
        let vain = self.vain_after(seen.used);
        if choice == Choice::Wait {
            self.wait(seen, vain, patience);
            return false;
        }
        self.set_out(seen, choice, patience);
        seen.used > 0
    }

    /// No lap begins.
    fn wait(&mut self, seen: &Seen, vain: usize, patience: usize)
        requires over { self.old.left ≡ 0 }
        requires patience { patience ≤ 1000 }
        ensures left { self.new.left ≡ 0 }
        ensures began { self.new.began ≡ 0 }
        ensures vain { self.new.vain ≡ vain }
        ensures looks { self.new.looks ≡ min (self.old.looks + 1) 1000 }
        ensures patience { self.new.patience ≡ patience }
        ensures opened { self.new.opened ≡ seen.now.opened }
        ensures short { self.new.short ≡ self.old.short }
        ensures behind { self.new.behind ≡ self.old.behind }
    {
        *self = Laps {
            left: 0,
            began: 0,
            vain,
            looks: (self.looks + 1).min(LOOKS_MAX),
            patience,
            opened: seen.opened,
            short: self.short,
            behind: self.behind,
        };
    }

    /// A lap begins, and its first step is taken.
    fn set_out(&mut self, seen: &Seen, choice: Choice, patience: usize)
        requires patience { patience ≤ 1000 }
        ensures left { self.new.left ≡ steps_by choice seen.now.used - 1 }
        ensures began { self.new.began ≡ seen.now.used }
        ensures vain { self.new.vain ≡ 0 }
        ensures looks { self.new.looks ≡ 0 }
        ensures patience { self.new.patience ≡ patience_next choice patience }
        ensures opened { self.new.opened ≡ seen.now.opened }
        ensures short { self.new.short ≡ is_short_lap choice }
        ensures behind { self.new.behind ≡ self.old.behind }
    {
        *self = Laps {
            left: choice.steps(seen.used).saturating_sub(1),
            began: seen.used,
            vain: 0,
            looks: 0,
            patience: choice.patience(patience),
            opened: seen.opened,
            short: choice.is_short(),
            behind: self.behind,
        };
    }

    /// The choice after this look.
    fn choice(&self, seen: &Seen) -> Choice
        ensures { result ≡ choice_by self.now seen.now }
    {
        let vain = self.vain_after(seen.used);
        if vain == 0 {
            return Choice::Next;
        }
        if seen.opened && !self.opened {
            return Choice::Short;
        }
        if seen.used > vain.saturating_add(seen.places / GAIN_PART) {
            return Choice::Grown;
        }
        if seen.used >= seen.places && self.looks + 1 >= self.patience_after(seen) {
            return Choice::Tried;
        }
        Choice::Wait
    }

    /// The places that were used when the last lap ended in vain, which ends with so many used if it has not; 0 where it was not
    /// in vain.
    fn vain_after(&self, used: usize) -> usize
        ensures { result ≡ vain_by self.now used }
    {
        if self.began == 0 {
            return self.vain;
        }
        if self.has_gained(used) { 0 } else { used }
    }

    /// Whether the lap that ends with so many places used was not in vain.
    fn has_gained(&self, used: usize) -> bool
        ensures { result ≡ is_gain self.now.began used }
    {
        self.began.saturating_sub(used) > self.began / GAIN_PART
    }

    /// After how many looks a full stripe is tried again, once the last lap has ended.
    fn patience_after(&self, seen: &Seen) -> usize
        ensures value { result ≡ patience_by self.now seen.now }
        ensures bound { result ≤ 1000 }
    {
        if self.began == 0 {
            return self.patience;
        }
        if self.has_gained(seen.used) || (self.short && seen.opened) {
            return LOOKS_MIN;
        }
        self.patience
    }
}

impl Choice {
    ghost use Rattle.upkeep.specs.Laps.{is_short_lap, patience_next, steps_by};

    /// How many steps a lap has that begins so, with so many places used.
    fn steps(self, used: usize) -> usize
        ensures value { result ≡ steps_by self used }
        ensures bound { result ≤ 4 * used }
    {
        let steps = used.saturating_mul(STEPS_EACH);
        match self {
            Choice::Next | Choice::Grown | Choice::Tried => steps,
            Choice::Short => steps.min(SHORT_STEPS),
            Choice::Wait => 0,
        }
    }

    /// After how many looks a full stripe is tried again, once a lap has begun so.
    fn patience(self, patience: usize) -> usize
        requires { patience ≤ 1000 }
        ensures value { result ≡ patience_next self patience }
        ensures bound { result ≤ 1000 }
    {
        match self {
            Choice::Next | Choice::Short | Choice::Grown | Choice::Wait => patience,
            Choice::Tried => (patience * 2).min(LOOKS_MAX),
        }
    }

    /// Whether it is a short lap.
    fn is_short(self) -> bool
        ensures { result ≡ is_short_lap self }
    {
        match self {
            Choice::Short => true,
            Choice::Next | Choice::Grown | Choice::Tried | Choice::Wait => false,
        }
    }
}
