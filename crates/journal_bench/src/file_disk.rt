ghost use Rattle.std.specs.Prelude.{◌≤◌};
ghost use Rattle.mx_outside.specs.Told.{Rose};
ghost use Rattle.mx_outside.specs.Disk.{CountsFaults};

use mx_outside::{Disk, Failed};
use std::fs::{File, OpenFile};
use std::io;
use std::os::unix::fs::FileExt;

/// A real file. Contracts learn nothing of its bytes, and it counts its faults.
#[derive(Drop)]
pub struct FileDisk {
    file: File,
    faults: u64,
}

impl FileDisk {
    pub fn new(file: File) -> FileDisk {
        FileDisk { file, faults: 0 }
    }

    fn fail(&mut self) -> Failed
        ensures count { self.old.faults ≤ self.new.faults }
        ensures rose { Rose self.old.faults self.new.faults }
    {
        self.faults = self.faults.saturating_add(1);
        Failed
    }

    fn answer<T: Drop>(&mut self, done: io::Result<T>) -> Result<T, Failed>
        ensures { CountsFaults result self.old.faults self.new.faults }
    {
        match done {
            Ok(value) => Ok(value),
            Err(_) => Err(self.fail()),
        }
    }
}

impl Disk for FileDisk {
    ghost use Rattle.std.specs.Prelude.{None};
    ghost use Rattle.mx_outside.specs.Budget.{no_budget};

    ghost seen = { λ _. None };

    ghost may_leave = { λ _ _. ⊥ };

    ghost moment = { λ _. 0 };

    ghost left_since = { λ _ _ _. ⊥ };

    ghost faults = { λ d. d.faults };

    ghost budget = { λ _. no_budget };

    ghost same_disk = { λ _ _. Unit {0} };

    fn len(&mut self) -> Result<u64, Failed> {
        let length = self.file.metadata().map(|metadata| metadata.len());
        let length = self.answer(length)?;
        if length >= 1 << 63 {
            return Err(self.fail());
        }
        Ok(length)
    }

    fn read(&mut self, at: u64, into: &mut [u8]) -> Result<(), Failed> {
        let done = self.file.read_exact_at(into, at);
        self.answer(done)
    }

    fn write_at(&mut self, at: u64, piece: &[u8]) -> Result<(), Failed> {
        let end = at.checked_add(piece.len() as u64);
        if end.is_none_or(|end| end >= 1 << 63) {
            return Err(self.fail());
        }
        let done = self.file.write_all_at(piece, at);
        self.answer(done)
    }

    fn cut(&mut self, to: u64) -> Result<(), Failed> {
        let done = self.file.set_len(to);
        self.answer(done)
    }

    fn sync(&mut self) -> Result<(), Failed> {
        let done = self.file.sync_all();
        self.answer(done)
    }

    ghost counts_now = { λ _ _ _ _ no. no };

    ghost only_now = { λ _ _ no. no };

    ghost same_disk_now = { λ _. tt };

    ghost same_disk_then = { λ _ _ _ _ _. tt };
}
