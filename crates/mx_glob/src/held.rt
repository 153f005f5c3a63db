ghost use Rattle.std.specs.Prelude.{◌≡◌, ◌≤◌, length, take, OnOk};
ghost use Rattle.std.specs.Vec.{vec_len};
ghost use Rattle.mx_json.specs.Folded.{RisesAtMost};
ghost use Rattle.mx_glob.specs.declared.held.TheConstants.{MOST_CHARACTERS};

use mx_json::{Folded, Meter, OutOfMemory};
use std::alloc::Global;

/// How many characters the folding of a pattern of 1,024 bytes has at most: a character of one byte
/// folds to one, and any other has two bytes at least and folds to three at most.
pub(crate) const MOST_CHARACTERS: usize = 1536;

/// Room in which a pattern or a name is held while it is matched, and for the falls of a segment of
/// it, with room for every glob.
#[derive(Drop)]
pub(crate) struct Held {
    pub(crate) characters: Vec<char>,
    pub(crate) falls: Vec<usize>,
    ghost room: { MOST_CHARACTERS ≤ vec_len characters },
    ghost fall_room: { vec_len characters ≤ vec_len falls },
}

impl Held {
    pub(crate) fn new(alloc: Global) -> Result<Held, OutOfMemory> {
        let characters = vec![in alloc; '*'; MOST_CHARACTERS]?;
        let falls = vec![in alloc; 0; MOST_CHARACTERS]?;
        Ok(Held { characters, falls })
    }

    /// Has room for so many characters from then on.
    pub(crate) fn make_room(&mut self, len: usize) -> Result<(), OutOfMemory>
        ensures { OnOk result (len ≤ vec_len self.new.characters) }
    {
        while self.characters.len() < len {
            self.falls.push(0)?;
            self.characters.push('*')?;
        }
        Ok(())
    }

    /// Holds the pattern's characters, each of which it reads once.
    pub(crate) fn hold(&mut self, pattern: &Folded, meter: &mut Meter)
        requires { length pattern.now ≤ vec_len self.old.characters }
        ensures held { take (length pattern.now) self.new.characters.items ≡ pattern.now }
        ensures same_room { vec_len self.new.characters ≡ vec_len self.old.characters }
        ensures reads { RisesAtMost (length pattern.now) meter.old meter.new }
    {
        hold(self.characters.as_mut_slice(), pattern, meter);
    }
}

/// Writes the characters of a text to the front of some room, each of which it reads once.
pub(crate) fn hold(room: &mut [char], text: &Folded, meter: &mut Meter)
    requires { length text.now ≤ length room.old }
    ensures held { take (length text.now) room.new ≡ text.now }
    ensures same_room { length room.new ≡ length room.old }
    ensures reads { RisesAtMost (length text.now) meter.old meter.new }
{
    for k in 0..text.len() {
        if let Some(character) = text.at(k, meter) {
            room[k] = character;
        }
    }
}
