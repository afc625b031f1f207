//! What stands at the path of a file of pages, before and after it is made anew.

use crate::file::{is_written, length_of, opened, remove_of_length};
use device::{FileDevice, OpenFault};
use records::PAGE_SIZE;
use std::alloc::Global;
use std::fs::{File, Files, OpenFile};
use std::os::unix::fs::{FileExt, MetadataExt, symlink};
use std::os::unix::net::UnixListener;
use std::process::Abort;
use std::sync::Wait;
use std::{fs, io};

/// What stands in a file that is not to be changed.
const KEPT: &[u8] = b"of another";

/// Whether a file has exactly these bytes.
fn has<R: Files + Alloc>(rt: &R, path: &str, bytes: &[u8]) -> bool {
    match fs::read(rt, path) {
        Ok(found) => found.as_slice() == bytes,
        Err(_) => false,
    }
}

/// Writes a file that is not to be changed.
fn keep<R: Abort + Files>(rt: &R, path: &str) {
    fs::write(rt, path, KEPT).expect(rt, "a file written");
}

/// That file is as it was, and is removed.
fn is_kept<R: Abort + Alloc + Files>(rt: &R, path: &str) {
    assert!(rt; has(rt, path, KEPT));
    remove(rt, path);
}

/// Removes a file.
fn remove<R: Abort + Files>(rt: &R, path: &str) {
    fs::remove_file(rt, path).expect(rt, "the file removed");
}

/// A page is written to the file at a path, which is made anew.
fn makes_anew<R: Abort + Wait + Files<File = File>>(rt: &R, alloc: Global, path: &str) {
    assert!(rt; is_written(rt, rt, alloc, path));
}

/// Whether a file itself stands at a path, and no link to one.
fn is_file<R: Files>(rt: &R, path: &str) -> bool {
    match fs::symlink_metadata(rt, path) {
        Ok(found) => found.is_file(),
        Err(_) => false,
    }
}

/// The permissions of what stands at a path.
fn mode_of<R: Files>(rt: &R, path: &str) -> Option<u32> {
    match fs::metadata(rt, path) {
        Ok(found) => Some(found.mode() & 0o777),
        Err(_) => None,
    }
}

/// A link at the path is taken away, and what it leads to stays as it is.
#[test]
fn a_link_is_not_followed(rt: HostRuntime) {
    let (path, other) = ("link.pages", "linked.other");
    keep(&rt, other);
    symlink(&rt, other, path).expect(&rt, "a link made");
    makes_anew(&rt, rt.alloc(), path);
    is_kept(&rt, other);
    assert!(rt; is_file(&rt, path));
    remove_of_length(&rt, path, PAGE_SIZE as u64);
}

/// A link to nothing is taken away, and nothing is made where it leads to.
#[test]
fn a_link_to_nothing_is_not_followed(rt: HostRuntime) {
    let (path, other) = ("dangling.pages", "dangling.other");
    symlink(&rt, other, path).expect(&rt, "a link made");
    makes_anew(&rt, rt.alloc(), path);
    assert!(rt; is_file(&rt, path) && length_of(&rt, other).is_none());
    remove(&rt, path);
}

/// Another name of the same file keeps its bytes.
#[test]
fn a_file_of_two_names_keeps_the_other(rt: HostRuntime) {
    let (path, other) = ("named.pages", "named.other");
    keep(&rt, other);
    rt.hard_link(other, path).expect(&rt, "a second name");
    makes_anew(&rt, rt.alloc(), path);
    is_kept(&rt, other);
    remove_of_length(&rt, path, PAGE_SIZE as u64);
}

/// How long the file is that a handle has, and its first byte, once the file at its path is made anew.
fn old_after<R: Abort + Wait + Files<File = File>>(rt: &R, alloc: Global, path: &str) -> (u64, u8) {
    keep(rt, path);
    let old = File::open(rt, path).expect(rt, "the file opened");
    let device = opened(rt, rt, alloc, path);
    let mut first = [0; 1];
    old.read_exact_at(&mut first, 0).expect(rt, "a byte read");
    let length = old.metadata().expect(rt, "the file").len();
    drop(device);
    drop(old);
    (length, first[0])
}

/// Whoever has the old file open keeps it, as another server on the same path does.
#[test]
fn a_file_is_left_to_who_has_it_open(rt: HostRuntime) {
    let path = "old.pages";
    assert!(rt; old_after(&rt, rt.alloc(), path) == (10, b'o'));
    remove_of_length(&rt, path, 0);
}

/// What was for all to read is taken away, and the new file is for its owner alone.
#[test]
fn a_file_is_for_its_owner_alone(rt: HostRuntime) {
    let path = "private.pages";
    keep(&rt, path);
    makes_anew(&rt, rt.alloc(), path);
    assert!(rt; mode_of(&rt, path).is_some_and(|mode| mode & 0o177 == 0));
    remove(&rt, path);
}

/// Whether there are no openings of what is at a path, since it cannot be opened.
fn is_refused<R: Wait + Files<File = File>>(rt: &R, alloc: Global, path: &str) -> bool {
    FileDevice::openings(rt, alloc, path, 1).err() == Some(OpenFault::CannotOpen)
}

#[test]
fn a_folder_is_refused_and_stays(rt: HostRuntime) {
    let path = "folder.pages";
    fs::create_dir(&rt, path).expect(&rt, "a folder made");
    assert!(rt; is_refused(&rt, rt.alloc(), path));
    assert!(rt;
        fs::metadata(&rt, path)
            .expect(&rt, "what stands there")
            .is_dir()
    );
    fs::remove_dir(&rt, path).expect(&rt, "the folder removed");
}

/// A socket is neither a file nor a link.
#[test]
fn a_socket_is_refused_and_stays(rt: HostRuntime) {
    let path = "socket.pages";
    let listener = UnixListener::bind(&rt, path).expect(&rt, "a socket");
    assert!(rt; is_refused(&rt, rt.alloc(), path));
    assert!(rt; length_of(&rt, path).is_some());
    drop(listener);
    remove(&rt, path);
}

/// Paths at which nothing can stand: below a folder that is missing, below a file, and none.
#[test]
fn a_path_at_which_nothing_can_stand_is_refused(rt: HostRuntime) {
    let file = "below.pages";
    keep(&rt, file);
    for path in [
        "no/such/folder/pages",
        "below.pages/pages",
        "below.pages/",
        "",
        ".",
        "/",
    ] {
        assert!(rt; is_refused(&rt, rt.alloc(), path), "{path}");
    }
    is_kept(&rt, file);
}
