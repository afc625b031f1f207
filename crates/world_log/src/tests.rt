//! Pages that leave their frames and are read back, and places that are released.

ghost use Rattle.std.specs.Prelude.{IfOk, OnOk};
ghost use Rattle.world_log.specs.WorldLogs.{IsWorldLog};

use super::*;
use crate::laws::reads_change_no_place;
use device::{Device, Shows};
use hybrid::laws::growth_adds_up;
use hybrid::{Lookup, Purpose, Staged};
use records::{KEY_BYTES_MAX, Page};
use std::alloc::Global;
use std::process::Abort;
use std::sync::Arc;
use std::test::Fail;
use words::hash::Hashed;
use words::limits::{Limits, VALUE_BYTES_MAX, WEIGHT_OF_KEY};
use words::word::Word;

/// A log of one stripe with 12 frames, nothing in it.
fn new_log(alloc: Global) -> Result<WorldLog, Stopped>
    ensures { IfOk result IsWorldLog }
{
    match Limits::new(1, 16, 12, 64, 1) {
        Some(limits) => WorldLog::new(alloc, &limits),
        None => Err(Stopped),
    }
}

/// Gives a key of stripe 0 a value.
fn set(log: &mut WorldLog, key: &Word, value: &Word) -> Result<(), Stopped>
    requires log { IsWorldLog log.old }
    ensures log { OnOk result (IsWorldLog log.new) }
{
    growth_adds_up();
    if log.stripes.lanes.is_empty() || key.len() > KEY_BYTES_MAX || value.len() > VALUE_BYTES_MAX {
        return Err(Stopped);
    }
    let lane = &mut log.stripes.lanes[0];
    let weight = WEIGHT_OF_KEY + key.len() + value.len();
    let Ok(()) = lane.shard.reserve(weight, Purpose::Clean, &mut log.device) else {
        return Err(Stopped);
    };
    lane.shard.set(&Hashed::new(key), value);
    Ok(())
}

/// Reads the page of a receipt.
fn read(
    log: &mut WorldLog,
    receipt: WorldReceipt,
    staged: &mut Staged<WorldReceipt>,
) -> Result<(), Stopped>
    requires log { IsWorldLog log.old }
    ensures log { OnOk result (IsWorldLog log.new) }
{
    reads_change_no_place();
    match staged.read(receipt, &mut log.device) {
        Ok(()) => Ok(()),
        Err(_) => Err(Stopped),
    }
}

/// What a lookup of a key of stripe 0 comes to.
#[derive(Drop)]
enum Seen {
    /// Whether the key has the value that was asked for.
    Value(bool),
    /// The receipt of a page that is wanted.
    Away(WorldReceipt),
}

/// Looks a key of stripe 0 up.
fn look(
    log: &WorldLog,
    key: &Word,
    value: &[u8],
    staged: &Staged<WorldReceipt>,
) -> Result<Seen, Stopped> {
    let Some(lane) = log.stripes.lanes.first() else {
        return Err(Stopped);
    };
    let key = Hashed::new(key);
    let number = match lane.shard.find(&key, staged) {
        Lookup::Found(found) => return Ok(Seen::Value(found == value)),
        Lookup::Absent => return Ok(Seen::Value(false)),
        Lookup::Cold(number, _) => number,
    };
    match lane.shard.receipt(number) {
        Some(receipt) => match receipt.again() {
            Ok(receipt) => Ok(Seen::Away(receipt)),
            Err(_) => Err(Stopped),
        },
        None => Err(Stopped),
    }
}

/// Whether a key of stripe 0 has a value, and how many pages were read for that: 8 at most.
fn holds(
    log: &mut WorldLog,
    alloc: Global,
    key: &Word,
    value: &[u8],
) -> Result<(bool, u64), Stopped>
    requires log { IsWorldLog log.old }
    ensures log { OnOk result (IsWorldLog log.new) }
{
    let mut staged = Staged::new(alloc);
    for count in 0..8 {
        match look(log, key, value, &staged)? {
            Seen::Value(holds) => return Ok((holds, count)),
            Seen::Away(receipt) => read(log, receipt, &mut staged)?,
        }
    }
    Err(Stopped)
}

/// Gives the keys of these numbers values of 32,766 bytes, each of which takes a page.
fn fill(log: &mut WorldLog, alloc: Global, from: u8, to: u8) -> Result<(), Stopped>
    requires log { IsWorldLog log.old }
    ensures log { OnOk result (IsWorldLog log.new) }
{
    for number in from..to {
        let Ok(key) = Word::from_slice(alloc, &[number]) else {
            return Err(Stopped);
        };
        let Ok(value) = Word::from_slice(alloc, &[number; 32_766]) else {
            return Err(Stopped);
        };
        set(log, &key, &value)?;
    }
    Ok(())
}

/// The oldest sealed page of stripe 0 goes to the device, and leaves its frame.
fn flush(log: &mut WorldLog, alloc: Global) -> Result<(), Stopped>
    requires log { IsWorldLog log.old }
    ensures log { OnOk result (IsWorldLog log.new) }
{
    log.copy(alloc, 0)?;
    log.write(0)?;
    log.install(0);
    log.evict(0);
    Ok(())
}

#[test]
fn a_page_that_left_its_frame_is_read_back(rt: HostRuntime) -> Result<(), Fail> {
    let alloc = rt.alloc();
    assert_eq!(rt; reads_of_the_first_key(alloc), Ok((0, 1)));
    Ok(())
}

/// How many pages are read for the first key, before its page goes and after.
fn reads_of_the_first_key(alloc: Global) -> Result<(u64, u64), Stopped> {
    let mut log = new_log(alloc)?;
    fill(&mut log, alloc, 0, 6)?;
    let Ok(key) = Word::from_slice(alloc, &[0]) else {
        return Err(Stopped);
    };
    let before = reads(&mut log, alloc, &key)?;
    flush(&mut log, alloc)?;
    let after = reads(&mut log, alloc, &key)?;
    Ok((before, after))
}

/// How many pages are read for it, where it has its value.
fn reads(log: &mut WorldLog, alloc: Global, key: &Word) -> Result<u64, Stopped>
    requires log { IsWorldLog log.old }
    ensures log { OnOk result (IsWorldLog log.new) }
{
    match holds(log, alloc, key, &[0; 32_766])? {
        (true, count) => Ok(count),
        (false, _) => Err(Stopped),
    }
}

#[test]
fn a_released_place_shows_its_page(rt: HostRuntime) -> Result<(), Fail> {
    let alloc = rt.alloc();
    let mut device = WorldDevice::new(alloc);
    let (five, nine) = (Page::new(alloc, 5)?, Page::new(alloc, 9)?);
    let Ok(receipt) = device.put(&five) else {
        return Err(Fail::from("no memory"));
    };
    let mut page = Page::new(alloc, 0)?;
    assert!(rt; device.read(&receipt, &mut page).is_ok());
    assert!(rt; page == five);
    device.show(0, Arc::new(alloc, nine.try_clone(alloc)?)?);
    assert!(rt; device.read(&receipt, &mut page).is_ok());
    assert!(rt; page == nine);
    Ok(())
}
