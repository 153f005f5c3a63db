ghost use Rattle.std.specs.Prelude.{◌≡◌, ◌+◌, ◌^◌, ◌<◌, ◌≤◌, length, IfOk, IsErr, MatchResult, Ok};
ghost use Rattle.mx_outside.specs.Disk.{CountsFaults};

use mx_outside::{Disk, Failed};
use std::fs::{File, OpenFile, OpenOptions, TryLockError};
use std::io;
use std::os::fd::AsRawFd;
use std::os::unix::fs::FileExt;
use std::path::Path;

/// As many bytes as no file has.
const END_OF_FILES: u64 = 1 << 63;

/// A file of the system as a disk: it counts its errors, and tells nothing of its content. A file
/// that couldn't be opened fails each call.
#[derive(Drop)]
pub struct FileDisk<F> {
    file: Option<F>,
    faults: u64,
}

impl FileDisk<File> {
    /// Opens the file to read and write it, and makes it where it isn't there. It is locked where
    /// the system offers that, so that no second server writes it. What an earlier process wrote is
    /// synced, and so is the file's name in its folder.
    pub fn open(rt: &HostRuntime, path: &str) -> FileDisk<File> {
        FileDisk::of(open_locked(rt, path))
    }

    /// Opens the file to read it alone. None is made, and none locked.
    pub fn open_to_read(rt: &HostRuntime, path: &str) -> FileDisk<File> {
        FileDisk::of(open_regular(rt, path, OpenOptions::new().read(true)))
    }
}

impl<F> FileDisk<F> {
    fn of(opened: io::Result<F>) -> FileDisk<F> {
        FileDisk {
            file: opened.ok(),
            faults: 0,
        }
    }

    /// Counts an error of the system.
    fn count<T>(&mut self, answer: io::Result<T>) -> Result<T, Failed>
        ensures value { MatchResult answer (λ value. result ≡ Ok value) (λ _. IsErr result) }
        ensures counts { CountsFaults result self.old.faults self.new.faults }
    {
        match answer {
            Ok(value) => Ok(value),
            Err(_) => {
                self.faults = self.faults.saturating_add(1);
                Err(Failed)
            }
        }
    }
}

/// Opens a regular file, locks it, and leaves nothing of it to sync.
fn open_locked(rt: &HostRuntime, path: &str) -> io::Result<File> {
    let file = open_regular(
        rt,
        path,
        OpenOptions::new().read(true).write(true).create(true),
    )?;
    if let Err(TryLockError::WouldBlock) = file.try_lock() {
        return Err(io::ErrorKind::WouldBlock.into());
    }
    file.sync_all()?;
    File::open(rt, folder_of(path))?.sync_all()?;
    Ok(file)
}

/// Opens a file, and no folder or device.
fn open_regular(rt: &HostRuntime, path: &str, options: &OpenOptions) -> io::Result<File> {
    let file = options.open(rt, path)?;
    if !file.metadata()?.is_file() {
        return Err(io::ErrorKind::Unsupported.into());
    }
    // What is meant for a standard stream that was closed must not land in the file.
    if file.as_raw_fd() <= 2 {
        return file.try_clone();
    }
    Ok(file)
}

/// The folder in which a path names a file.
fn folder_of(path: &str) -> &str {
    match Path::new(path).parent() {
        Some(folder) if !folder.as_str().is_empty() => folder.as_str(),
        _ => ".",
    }
}

/// The call that a file that couldn't be opened fails.
fn not_open() -> io::Error {
    io::ErrorKind::NotFound.into()
}

impl<F: FileExt + OpenFile> Disk for FileDisk<F> {
    ghost use Rattle.std.specs.Prelude.{None};
    ghost use Rattle.mx_outside.specs.Budget.{no_budget};

    ghost seen = { λ _. None };

    // Nothing is told, so any image may be left.
    ghost may_leave = { λ _ _. Unit {0} };

    ghost moment = { λ _. 0 };

    ghost left_since = { λ _ _ _. Unit {0} };

    ghost faults = { λ disk. disk.faults };

    ghost budget = { λ _. no_budget };

    ghost same_disk = { λ _ _. Unit {0} };

    fn len(&mut self) -> Result<u64, Failed> {
        let length = match &self.file {
            Some(file) => length_of(file),
            None => Err(not_open()),
        };
        self.count(length)
    }

    fn read(&mut self, at: u64, into: &mut [u8]) -> Result<(), Failed> {
        let done = match &self.file {
            Some(file) => file.read_exact_at(into, at),
            None => Err(not_open()),
        };
        self.count(done)
    }

    fn write_at(&mut self, at: u64, piece: &[u8]) -> Result<(), Failed> {
        let done = match &self.file {
            Some(file) => write_within(file, at, piece),
            None => Err(not_open()),
        };
        self.count(done)
    }

    fn cut(&mut self, to: u64) -> Result<(), Failed> {
        let done = match &self.file {
            Some(file) => file.set_len(to),
            None => Err(not_open()),
        };
        self.count(done)
    }

    fn sync(&mut self) -> Result<(), Failed> {
        let done = match &self.file {
            Some(file) => file.sync_all(),
            None => Err(not_open()),
        };
        self.count(done)
    }

    ghost counts_now = { λ _ _ _ _ _. tt };

    ghost only_now = { λ _ _ _. tt };

    ghost same_disk_now = { λ _. tt };

    ghost same_disk_then = { λ _ _ _ _ _. tt };
}

fn length_of<F: OpenFile>(file: &F) -> io::Result<u64>
    ensures { IfOk result (λ n. n < 2 ^ 63) }
{
    let length = file.metadata()?.len();
    if length >= END_OF_FILES {
        return Err(io::ErrorKind::FileTooLarge.into());
    }
    Ok(length)
}

/// Writes the whole piece, unless the file would get longer than any may be.
fn write_within<F: FileExt>(file: &F, at: u64, piece: &[u8]) -> io::Result<()>
    ensures { 2 ^ 63 ≤ at + length piece.now → IsErr result }
{
    if piece.len() as u64 >= END_OF_FILES.saturating_sub(at) {
        return Err(io::ErrorKind::FileTooLarge.into());
    }
    file.write_all_at(piece, at)
}
