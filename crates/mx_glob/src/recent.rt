ghost use Rattle.std.specs.Prelude.{◌≡◌, ◌<◌, IfOk, IfSome, IsSomeAnd, OnOk, slice_get, vec_len};
ghost use Rattle.mx_json.specs.Folded.{folded};
ghost use Rattle.mx_glob.specs.declared.recent.TheConstants.{MOST_OTHERS};

use crate::slot::Slot;
use mx_json::OutOfMemory;
use std::alloc::Global;
use std::mem;

/// How many texts are kept beside the one that was asked for last.
const MOST_OTHERS: usize = 7;

/// The texts that were asked for last, with their foldings. A text that isn't among them takes the
/// place of the one that was put aside first.
#[derive(Drop)]
pub(crate) struct Recent {
    front: Slot,
    others: Vec<Slot>,
    // Where the text at the front is put aside.
    next: usize,
    ghost room: { vec_len others ≡ MOST_OTHERS },
    ghost within: { next < MOST_OTHERS },
}

impl Recent {
    pub(crate) fn new(alloc: Global) -> Result<Recent, OutOfMemory> {
        Ok(Recent {
            front: Slot::new(alloc),
            others: empty_slots(alloc)?,
            next: 0,
        })
    }

    /// Brings a text to the front.
    pub(crate) fn ask(&mut self, text: &str) -> Result<(), OutOfMemory>
        ensures { OnOk result (self.new.front.folding ≡ folded text.now) }
    {
        if self.front.has(text) {
            return Ok(());
        }
        match place_of(self.others.as_slice(), text) {
            Some(place) => {
                mem::swap(&mut self.front, &mut self.others[place]);
                Ok(())
            }
            None => self.take(text),
        }
    }

    /// Puts the text at the front aside, and takes this one.
    fn take(&mut self, text: &str) -> Result<(), OutOfMemory>
        ensures { OnOk result (self.new.front.folding ≡ folded text.now) }
    {
        mem::swap(&mut self.front, &mut self.others[self.next]);
        self.next = (self.next + 1) % MOST_OTHERS;
        self.front.take(text)
    }

    /// The text at the front.
    pub(crate) fn front(&self) -> &Slot
        ensures { result.now ≡ self.now.front }
    {
        &self.front
    }
}

fn empty_slots(alloc: Global) -> Result<Vec<Slot>, OutOfMemory>
    ensures { IfOk result (λ slots. vec_len slots ≡ MOST_OTHERS) }
{
    let mut slots = Vec::with_capacity(alloc, MOST_OTHERS)?;
    while slots.len() < MOST_OTHERS {
        slots.push(Slot::new(alloc))?;
    }
    Ok(slots)
}

/// The place of the slot that has the text.
fn place_of(slots: &[Slot], text: &str) -> Option<usize>
    ensures { IfSome result
        (λ place. IsSomeAnd (slice_get slots.now place) (λ slot. slot.folding ≡ folded text.now)) }
{
    for (place, slot) in slots.iter().enumerate() {
        if slot.has(text) {
            return Some(place);
        }
    }
    None
}
