ghost use Rattle.std.specs.Prelude.{◌≡◌, IfOk};

use mx_json::{EventId, OutOfMemory};
use std::alloc::Global;
use std::hash::{Hash, Hasher};

/// A thread of a room (Client-Server API, 'Threading').
#[derive(Debug, Drop)]
pub enum ThreadKey {
    /// The main timeline: what is in no thread of its own.
    Main,
    /// The thread whose root is the event with this id.
    Root(EventId),
}

impl ThreadKey {
    /// An equal key of its own.
    ///
    /// # Errors
    ///
    /// `OutOfMemory` where the allocator has none.
    pub fn copied(&self, alloc: Global) -> Result<ThreadKey, OutOfMemory>
        ensures { IfOk result (λ key. key ≡ self.now) }
    {
        match self {
            ThreadKey::Main => Ok(ThreadKey::Main),
            ThreadKey::Root(id) => Ok(ThreadKey::Root(id.copied(alloc)?)),
        }
    }
}

impl PartialEq for ThreadKey {
    ghost use Rattle.std.specs.Cmp.{partial_equiv_from_equiv};
    ghost use Rattle.mx_rows.specs.Threads.{same_thread, same_thread-equiv};

    ghost eq = { same_thread };

    ghost laws = { partial_equiv_from_equiv same_thread-equiv };

    fn eq(&self, other: &ThreadKey) -> bool {
        match (self, other) {
            (ThreadKey::Main, ThreadKey::Main) => true,
            (ThreadKey::Root(id), ThreadKey::Root(other)) => id == other,
            _ => false,
        }
    }
}

impl Eq for ThreadKey {
    ghost use Rattle.mx_rows.specs.Threads.{same_thread-equiv};

    ghost laws = { same_thread-equiv };
}

impl Hash for ThreadKey {
    ghost use Rattle.mx_rows.specs.Threads.{hash_input, hash_input-same};

    ghost hash_input = { hash_input };

    ghost respects_eq = { hash_input-same };

    fn hash<H: Hasher>(&self, state: &mut H) {
        match self {
            ThreadKey::Main => state.write_u8(0),
            ThreadKey::Root(id) => id.hash(state),
        }
    }
}
