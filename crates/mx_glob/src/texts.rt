ghost use Rattle.std.specs.Prelude.{◌≡◌, OnOk};
ghost use Rattle.mx_json.specs.Folded.{folded};

use crate::recent::Recent;
use crate::slot::Slot;
use mx_json::{Folded, OutOfMemory};
use std::alloc::Global;
use std::marker::Model;

/// The most bytes of a short text.
const MOST_SHORT_BYTES: usize = 4096;

/// The texts that patterns were tried on last, with their foldings: some short ones, and of the
/// longer ones the last alone.
#[derive(Drop)]
pub(crate) struct Texts {
    recent: Recent,
    long: Slot,
    is_long: bool,
}

// Contracts see the folding of the text that was asked for last.
impl Model for Texts {
    ghost use Rattle.std.specs.Prelude.{List, ℕ, if◌then◌else◌};

    ghost Value = { List ℕ };

    ghost view = { λ t. if t.is_long then t.long.folding else t.recent.front.folding };
}

impl Texts {
    pub(crate) fn new(alloc: Global) -> Result<Texts, OutOfMemory> {
        Ok(Texts {
            recent: Recent::new(alloc)?,
            long: Slot::new(alloc),
            is_long: false,
        })
    }

    /// Asks for the folding of a text.
    pub(crate) fn ask(&mut self, text: &str) -> Result<(), OutOfMemory>
        ensures { OnOk result (self.new ≡ folded text.now) }
    {
        self.is_long = text.len() > MOST_SHORT_BYTES;
        if self.is_long {
            self.long.take(text)
        } else {
            self.recent.ask(text)
        }
    }

    /// The folding of the text that was asked for last.
    pub(crate) fn folding(&self) -> &Folded
        ensures { result.now ≡ self.now }
    {
        if self.is_long {
            self.long.folding()
        } else {
            self.recent.front().folding()
        }
    }
}
