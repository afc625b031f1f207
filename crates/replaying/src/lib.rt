//! What the program `replay` does: it reads its command line, runs the schedule that this names, prints
//! what each client was told, and says how it ended.
#![tactic(auto)]

mod command_line;
mod ending;
mod program;
#[cfg(test)]
mod tests;

pub use command_line::{Asked, asked_by};
pub use program::{answer, run};
