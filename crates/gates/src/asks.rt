//! What a call asks of the shared store.

use words::command::{Command, Keys};
use words::history::Commands;

/// What is asked of the store: a command is run, keys are watched, or a transaction is run.
pub trait Asks {
    ghost use Rattle.words.specs.Session.{Asked};

    /// What is asked.
    ghost asked: { Self → Asked };
}

impl Asks for Command {
    ghost use Rattle.words.specs.Session.{Run};

    ghost asked = { λ command. Run command };
}

impl Asks for Keys {
    ghost use Rattle.words.specs.Session.{Watch};

    ghost asked = { λ keys. Watch keys };
}

impl Asks for Commands {
    ghost use Rattle.words.specs.Session.{Exec};

    ghost asked = { λ commands. Exec commands };
}
