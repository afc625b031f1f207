//! A store whose old pages lie in a file, over a socket: what is read where the file is whole, where it is cut short,
//! written over or replaced meanwhile, and where its disk is full.

use crate::client::{PING, PONG, answers, connect, reads, sends, with_file, with_openings};
use crate::full::{FullDisk, openings_on};
use crate::pages::{COUNT, FIRST, get_is_answered, has, has_all, options, stores_all, thirty_sets};
use device::FileDevice;
use server::ServerFault;
use std::alloc::Global;
use std::fs;
use std::fs::{File, Files, OpenFile};
use std::net::{Net, TcpStream};
use std::os::unix::fs::FileExt;
use std::sync::Wait;
use words::limits::PLACES_DEFAULT;

/// What is said where a page cannot be read or written.
const DEVICE_FAULT: &[u8] = b"-IOERR device fault\r\n";

/// The bytes of a page.
const PAGE: u64 = 65_536;

/// A key of the second page that was filled.
const OLD: u32 = FIRST + 80;

/// The key that was stored last. Its page has a frame.
const LAST: u32 = FIRST + COUNT - 1;

/// Whether all keys are stored and read.
fn stores_and_reads_all<R>(rt: &R, port: u16) -> Option<bool>
where
    R: AllocGlobal + Net<Stream = TcpStream>,
{
    let stream = connect(rt, port)?;
    let told = stores_all(rt.alloc(), &stream)? && has_all(rt.alloc(), &stream)?;
    drop(stream);
    Some(told)
}

/// How long a file is.
fn length_of<R: Files<File = File>>(rt: &R, path: &str) -> Option<u64> {
    Some(fs::metadata(rt, path).ok()?.len())
}

/// 3,000 values of 1,000 bytes take 48 pages, of which 12 have frames. The others lie in the file, and each value is
/// read as it was stored.
#[test]
fn a_store_larger_than_its_frames_lies_in_a_file(rt: HostRuntime) {
    let path = "larger.pages";
    let outcome = with_file(
        &rt,
        options(PLACES_DEFAULT, 1, 1),
        path,
        stores_and_reads_all,
    );
    assert!(rt; outcome.is_well(1));
    assert!(rt; length_of(&rt, path).is_some_and(|length| length >= 36 * PAGE));
    assert!(rt; fs::remove_file(&rt, path).is_ok());
    drop(outcome);
}

/// What is done to the file of a server that runs.
#[derive(Clone, Copy)]
enum Change {
    /// It is cut to 100 bytes.
    Cut,
    /// Each byte is written over.
    WrittenOver,
    /// It is removed, and another one has its path.
    Replaced,
}

/// Cuts a file to so many bytes.
fn cut<R: Files<File = File>>(rt: &R, path: &str, length: u64) -> Option<()> {
    let file = fs::OpenOptions::new().write(true).open(rt, path).ok()?;
    file.set_len(length).ok()
}

/// Writes over so many pages of a file.
fn write_over<R: Files<File = File>>(rt: &R, path: &str, pages: u32) -> Option<()> {
    let file = fs::OpenOptions::new().write(true).open(rt, path).ok()?;
    for place in 0..pages {
        file.write_all_at(&[255; 65_536], u64::from(place) * PAGE)
            .ok()?;
    }
    Some(())
}

/// Removes a file, and makes another one of its path.
fn replace<R: Files<File = File>>(rt: &R, path: &str) -> Option<()> {
    fs::remove_file(rt, path).ok()?;
    let mut options = fs::OpenOptions::new();
    let file = options.write(true).create(true).open(rt, path).ok()?;
    file.write_all_at(b"another", 0).ok()
}

impl Change {
    /// Does so to the file at this path.
    fn is_made<R: Files<File = File>>(self, rt: &R, path: &str) -> Option<()> {
        match self {
            Change::Cut => cut(rt, path, 100),
            Change::WrittenOver => write_over(rt, path, 64),
            Change::Replaced => replace(rt, path),
        }
    }

    /// Whether this client is answered by what is due of a value that lies in the file.
    fn shows(self, alloc: Global, stream: &TcpStream) -> Option<bool> {
        match self {
            Change::Cut | Change::WrittenOver => {
                get_is_answered(alloc, stream, OLD, DEVICE_FAULT)
            }
            Change::Replaced => has(alloc, stream, OLD),
        }
    }
}

/// Whether a client reads a value before the file of the server is changed, and what is due after it. Its connection
/// goes on, and values whose pages have frames are read.
fn reads_before_and_after<R>(rt: &R, port: u16, path: &str, change: Change) -> Option<bool>
where
    R: AllocGlobal + Files<File = File> + Net<Stream = TcpStream>,
{
    let stream = connect(rt, port)?;
    let alloc = rt.alloc();
    let before = stores_all(alloc, &stream)? && has(alloc, &stream, OLD)?;
    change.is_made(rt, path)?;
    let after = change.shows(alloc, &stream)? && change.shows(alloc, &stream)?;
    let told = before && after && answers(&stream, PING, PONG) && has(alloc, &stream, LAST)?;
    drop(stream);
    Some(told)
}

/// A page that cannot be read is told as a fault of the device. The server has its file open, so that another one of
/// the same path is nothing to it.
#[test]
fn a_file_that_is_changed_meanwhile(rt: HostRuntime) {
    let path = "changed.pages";
    for change in [Change::Cut, Change::WrittenOver, Change::Replaced] {
        let outcome = with_file(
            &rt,
            options(PLACES_DEFAULT, 1, 1),
            path,
            |rt, port| reads_before_and_after(rt, port, path, change),
        );
        assert!(rt; outcome.is_well(1));
        assert!(rt; fs::remove_file(&rt, path).is_ok());
    }
}

/// How many of thirty SETs are done, where those after the first that is not are answered by a fault of the device.
/// `None` where another reply comes.
fn done_of_thirty(stream: &TcpStream) -> Option<u32> {
    let mut done = 0u32;
    let mut faults = 0u32;
    for _ in 0..30 {
        let reply = reply_of(stream)?;
        if reply && faults == 0 {
            done = done.saturating_add(1);
        } else if reply {
            return None;
        } else {
            faults = faults.saturating_add(1);
        }
    }
    Some(done)
}

/// Whether the next reply is that of a SET that is done. `None` where it is no fault of the device either.
fn reply_of(stream: &TcpStream) -> Option<bool> {
    let is_done = reads(stream, b"+");
    let rest: &[u8] = if is_done {
        b"OK\r\n"
    } else {
        b"IOERR device fault\r\n"
    };
    if reads(stream, rest) {
        Some(is_done)
    } else {
        None
    }
}

/// How many of thirty pieces of thirty SETs are done.
fn done_of_thirty_pieces(alloc: Global, stream: &TcpStream) -> Option<u32> {
    let mut done = 0u32;
    for piece in 0..30 {
        let sets = thirty_sets(alloc, FIRST + piece * 30).ok()?;
        if !sends(stream, &sets) {
            return None;
        }
        done = done.saturating_add(done_of_thirty(stream)?);
    }
    Some(done)
}

/// Whether a client of a server whose disk is full is answered so: what has room in the frames is stored and read, and
/// what would need another page is a fault of the device, and is missing.
fn fills_the_frames<R>(rt: &R, port: u16) -> Option<bool>
where
    R: AllocGlobal + Net<Stream = TcpStream>,
{
    let stream = connect(rt, port)?;
    let alloc = rt.alloc();
    let done = done_of_thirty_pieces(alloc, &stream)?;
    let key = FIRST.checked_add(done)?;
    let stored = has(alloc, &stream, FIRST)? && has(alloc, &stream, key.checked_sub(1)?)?;
    let missing = get_is_answered(alloc, &stream, key, b"$-1\r\n")?;
    drop(stream);
    Some(done == 756 && stored && missing)
}

/// The frames hold 12 pages of 63 values. No page can be written.
#[test]
fn a_full_disk_is_told_of_each_write_that_needs_a_page(rt: HostRuntime) {
    let disk = FullDisk { rt: &rt };
    let options = options(PLACES_DEFAULT, 1, 1).expect(&rt, "options");
    let Ok(openings) = openings_on(&disk, rt.alloc(), &options) else {
        panic!(rt; "no openings");
    };
    let outcome = with_openings(&rt, &options, openings, fills_the_frames);
    assert!(rt; outcome.is_well(1));
    drop(outcome);
}

/// Paths of which no file can be made: in a folder that there is not, of a folder, and none.
const PATHS: &[&str] = &["no/such/folder/pages", ".", ""];

/// Why a server stops whose device is to lie in the file at this path.
fn fault_of<R: AllocGlobal + Files<File = File> + Wait>(rt: &R, path: &str) -> Option<ServerFault> {
    let fault = FileDevice::openings(rt, rt.alloc(), path, 1).err()?;
    Some(ServerFault::from(fault))
}

#[test]
fn a_path_of_which_no_file_can_be_made(rt: HostRuntime) {
    for &path in PATHS {
        assert!(rt;
            fault_of(&rt, path) == Some(ServerFault::CannotOpenDevice),
            "{path}"
        );
    }
}
