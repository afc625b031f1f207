//! A disk that is full.

ghost use Rattle.std.specs.Prelude.{◌≡◌, ◌+◌, IfOk, vec_len};
ghost use Rattle.engine.specs.declared.TheConstants.{BACKGROUND_PASSES};

use device::{FileDevice, OpenFault};
use options::Options;
use server::opening_count;
use std::alloc::{Allocator, Global};
use std::fs::{File, Files, Metadata, OpenOptions};
use std::io;
use std::sync::Wait;

/// A runtime whose files lie on a full disk: what is opened is `/dev/full`, which takes no byte. All else is as in the other
/// runtime.
#[derive(Drop)]
pub(crate) struct FullDisk<'a, R> {
    pub(crate) rt: &'a R,
}

impl<'a, R: Wait> Wait for FullDisk<'a, R> {}

impl<'a, R: Files<File = File>> Files for FullDisk<'a, R> {
    type File = File;

    type Dir = R::Dir;

    fn open_file(&self, _how: &OpenOptions, _path: &str) -> io::Result<File> {
        let mut options = OpenOptions::new();
        options.read(true).write(true).open(self.rt, "/dev/full")
    }

    fn open_dir(&self, path: &str) -> io::Result<R::Dir> {
        self.rt.open_dir(path)
    }

    fn metadata(&self, path: &str) -> io::Result<Metadata> {
        self.rt.metadata(path)
    }

    fn symlink_metadata(&self, path: &str) -> io::Result<Metadata> {
        self.rt.symlink_metadata(path)
    }

    fn copy(&self, from: &str, to: &str) -> io::Result<u64> {
        self.rt.copy(from, to)
    }

    fn rename(&self, from: &str, to: &str) -> io::Result<()> {
        self.rt.rename(from, to)
    }

    fn remove_file(&self, path: &str) -> io::Result<()> {
        self.rt.remove_file(path)
    }

    fn create_dir(&self, path: &str) -> io::Result<()> {
        self.rt.create_dir(path)
    }

    fn remove_dir(&self, path: &str) -> io::Result<()> {
        self.rt.remove_dir(path)
    }

    fn remove_dir_all<B: Allocator>(&self, alloc: B, path: &str) -> io::Result<()> {
        self.rt.remove_dir_all(alloc, path)
    }
}

/// So many openings of a device on a full disk as a server with these options wants.
pub(crate) fn openings_on<'a, R: Files<File = File> + Wait>(
    disk: &'a FullDisk<'a, R>,
    alloc: Global,
    options: &Options,
) -> Result<Vec<FileDevice<'a, FullDisk<'a, R>>>, OpenFault>
    ensures { IfOk result (λ openings. vec_len openings ≡ options.now.workers + BACKGROUND_PASSES) }
{
    FileDevice::openings(disk, alloc, "on_a_full_disk.pages", opening_count(options))
}
