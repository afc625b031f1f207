//! The rule of the epochs, and its steps by name.

use crate::view::View;
use atomic_table::{Join, Play, Split, TableRule};

/// The rule of the epochs' table, whose key is the number of seats.
pub struct SafeEpochs;

impl TableRule<u8, View, u64> for SafeEpochs {
    ghost use Rattle.epoch.specs.Rule.{Ruled};
    ghost use Rattle.epoch.specs.Plays.{unmet};

    ghost holds = { λ seats. Ruled seats };

    ghost first = { λ seats. unmet seats };
}

/// A seat sets its own word.
pub(crate) struct SetOwn;

impl Play<u8, View> for SetOwn {
    ghost use Rattle.epoch.specs.Plays.{Sets};

    ghost then = { Sets };
}

/// A seat validates its stay by a load of the epoch word.
pub(crate) struct Validate;

impl Play<u8, View> for Validate {
    ghost use Rattle.epoch.specs.Plays.{Validates};

    ghost then = { Validates };
}

/// A seat clears its own word.
pub(crate) struct ClearOwn;

impl Play<u8, View> for ClearOwn {
    ghost use Rattle.epoch.specs.Plays.{Clears};

    ghost then = { Clears };
}

/// A look at the epoch word by a seat that may not add to it.
pub(crate) struct Arm;

impl Play<u8, View> for Arm {
    ghost use Rattle.epoch.specs.Plays.{Arms};

    ghost then = { Arms };
}

/// A seat advances the epoch.
pub(crate) struct Advance;

impl Play<u8, View> for Advance {
    ghost use Rattle.epoch.specs.Plays.{Advances};

    ghost then = { Advances };
}

/// A scan reads the epoch word.
pub(crate) struct Begin;

impl Play<u8, View> for Begin {
    ghost use Rattle.epoch.specs.Plays.{Begins};

    ghost then = { Begins };
}

/// A scan reads the word of the next seat.
pub(crate) struct Pass;

impl Play<u8, View> for Pass {
    ghost use Rattle.epoch.specs.Plays.{Passes};

    ghost then = { Passes };
}

/// A look by a seat that knows of a scan.
pub(crate) struct Compare;

impl Play<u8, View> for Compare {
    ghost use Rattle.epoch.specs.Plays.{Compares};

    ghost then = { Compares };
}

/// The first seat stays, and a new one stands for the others.
pub(crate) struct Deal;

impl Split<View> for Deal {
    ghost use Rattle.std.specs.Prelude.{◌+◌, ◌-◌};
    ghost use Rattle.epoch.specs.Plays.{standing};

    ghost left = { λ v. standing v.first 1 };

    ghost right = { λ v. standing (v.first + 1) (v.count - 1) };
}

/// A token of what the seat knows, which stands for no seat.
pub(crate) struct Tell;

impl Split<View> for Tell {
    ghost use Rattle.epoch.specs.Plays.{token};

    ghost left = { λ v. v };

    ghost right = { token };
}

/// A seat learns what a token knows of a scan.
pub(crate) struct Learn;

impl Join<View> for Learn {
    ghost use Rattle.epoch.specs.Plays.{learning, standing};

    ghost both = { learning };

    ghost spent = { standing 0 0 };
}
