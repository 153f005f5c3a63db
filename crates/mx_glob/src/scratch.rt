use crate::held::Held;
use crate::slot::Slot;
use crate::texts::Texts;
use mx_json::OutOfMemory;
use std::alloc::Global;

/// What matching works in: room for every glob, and the texts that were matched last with their
/// foldings, so that a text that is asked about again isn't folded again. It keeps eight texts of
/// at most 4,096 bytes, the last longer one, and the last name.
#[derive(Drop)]
pub struct Scratch {
    pub(crate) held: Held,
    pub(crate) texts: Texts,
    pub(crate) name: Slot,
}

impl Scratch {
    /// A scratch with room for every glob, and with no text yet.
    ///
    /// # Errors
    ///
    /// `OutOfMemory` alone.
    pub fn new(alloc: Global) -> Result<Scratch, OutOfMemory> {
        Ok(Scratch {
            held: Held::new(alloc)?,
            texts: Texts::new(alloc)?,
            name: Slot::new(alloc),
        })
    }
}
