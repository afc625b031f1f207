//! `replay`: runs a schedule of the simulated world, and prints what each client was told. `replay --help`
//! tells its command line.
#![tactic(auto)]

use std::process::ExitCode;

fn main(rt: HostRuntime) -> ExitCode {
    replaying::run(&rt)
}
