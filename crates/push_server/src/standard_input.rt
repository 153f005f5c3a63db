ghost use Rattle.std.specs.Prelude.{length};
ghost use Rattle.mx_outside.specs.Outside.{IsGiven};

use mx_outside::{Got, Source};
use std::io;
use std::io::Read;

/// A reader of the system as a source: it counts its errors, and tells nothing of its bytes.
#[derive(Drop)]
pub struct StandardInput<R> {
    reader: R,
    faults: u64,
}

impl<R: Read> StandardInput<R> {
    pub fn new(reader: R) -> StandardInput<R> {
        StandardInput { reader, faults: 0 }
    }
}

impl<R: Read> Source for StandardInput<R> {
    ghost use Rattle.std.specs.Prelude.{None, false};

    ghost left = { λ _. None };

    ghost faults = { λ input. input.faults };

    ghost never_fails = { λ _. false };

    fn read(&mut self, into: &mut [u8]) -> Got {
        let got = read_some(&mut self.reader, into);
        if let Got::Failed = got {
            self.faults = self.faults.saturating_add(1);
        }
        got
    }
}

/// Reads once, and again where a signal came in between.
fn read_some<R: Read>(reader: &mut R, into: &mut [u8]) -> Got
    ensures { IsGiven result (length into.old) }
{
    for _ in 0..u64::MAX {
        match reader.read(into) {
            Ok(0) => return Got::End,
            Ok(count) => return Got::Bytes(count),
            Err(error) if error.kind() == io::ErrorKind::Interrupted => {}
            Err(_) => return Got::Failed,
        }
    }
    Got::Failed
}
