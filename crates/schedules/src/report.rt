//! What a run is reported as: what each client was told, and how many entries the history has.

ghost use Rattle.std.specs.Prelude.{◌≡◌, ◌++◌, IfOk, OnOk};
ghost use Rattle.world.specs.Tables.{state_of};
ghost use Rattle.schedules.specs.Reports.{client_line, entries_line, report_of};

use crate::spelling::{add_bytes, add_number};
use std::alloc::Global;
use words::word::OutOfMemory;
use world::World;

/// The report of a world.
pub(crate) fn report_of(alloc: Global, world: &World) -> Result<Vec<u8>, OutOfMemory>
    ensures { IfOk result (λ report. report.items ≡ report_of (state_of world.now)) }
{
    let mut report = Vec::new(alloc);
    for client in 0..world.clients() {
        add_client(alloc, &mut report, client, world.output(client))?;
    }
    add_entries(&mut report, world.history().len())?;
    Ok(report)
}

/// Adds the line of a client to a report.
fn add_client(
    alloc: Global,
    report: &mut Vec<u8>,
    client: usize,
    output: &[u8],
) -> Result<(), OutOfMemory>
    ensures { OnOk result (report.new.items ≡ report.old.items ++ client_line client output.now) }
{
    add_number(report, client)?;
    report.push(b':')?;
    add_bytes(alloc, report, output)?;
    Ok(report.push(b'\n')?)
}

/// Adds the line of the history to a report.
fn add_entries(report: &mut Vec<u8>, count: usize) -> Result<(), OutOfMemory>
    ensures { OnOk result (report.new.items ≡ report.old.items ++ entries_line count) }
{
    report.extend_from_slice(b"entries ")?;
    add_number(report, count)?;
    Ok(report.push(b'\n')?)
}
