ghost use Rattle.std.specs.Prelude.{◌≡◌, ◌<◌, length};

use crate::source::{Got, Source};
use std::marker::Model;

/// A source of one byte, many times, which holds no buffer. It takes no memory, and never
/// fails.
#[derive(Clone, Copy, Debug)]
pub struct RepeatSource {
    byte: u8,
    times: u64,
}

impl Model for RepeatSource {
    ghost use Rattle.mx_outside.specs.RepeatSource.{Repeated};

    ghost Value = { Repeated };

    ghost view = { λ s. record { byte = s.byte; times = s.times } };

    ghost inverse = { λ s. record { byte = s.byte; times = s.times } };
}

impl RepeatSource {
    /// A source of `byte`, `times` times.
    pub fn new(byte: u8, times: u64) -> RepeatSource
        ensures { result ≡ record { byte = byte; times = times } }
    {
        RepeatSource { byte, times }
    }
}

impl Source for RepeatSource {
    ghost use Rattle.std.specs.Prelude.{Some, true};
    ghost use Rattle.mx_outside.specs.Outside.{IsGiven, GivesBytes};
    ghost use Rattle.mx_outside.specs.RepeatSource.{repeats, GivesRepeats};

    ghost left = { λ s. Some (repeats s) };

    ghost faults = { λ _. 0 };

    ghost never_fails = { λ _. true };

    #[tactic(auto, using(crate::proofs::Repeats::next_repeats), unfolding(crate::specs::RepeatSource::repeats))]
    fn read(&mut self, into: &mut [u8]) -> Got
        requires { 0 < length into.old }
        ensures given { IsGiven result (length into.old) }
        ensures next { GivesBytes result into.new (repeats self.old) (repeats self.new) }
        ensures repeats { GivesRepeats result self.old self.new (length into.old) }
    {
        let count = into.len().min(self.times as usize);
        if count == 0 {
            return Got::End;
        }
        into[..count].fill(self.byte);
        self.times -= count as u64;
        Got::Bytes(count)
    }
}
