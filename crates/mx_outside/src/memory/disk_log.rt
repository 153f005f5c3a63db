ghost use Rattle.std.specs.Prelude.{◌≡◌, ◌∷◌, [], length, IsOk, OnOk, IfOk};
ghost use Rattle.mx_outside.specs.Budget.{Covers};
ghost use Rattle.mx_outside.specs.Changes.Change.{written, cut_to, synced};

use std::alloc::{AllocError, Global};
use std::marker::Model;

/// A call that changed a disk in memory. The bytes of a write stand beside it.
#[derive(Clone, Copy)]
enum Logged {
    Written { at: usize, count: usize },
    Cut(usize),
    Synced,
}

/// The calls that changed a disk in memory, and the bytes that they wrote.
#[derive(Drop)]
pub(crate) struct DiskLog {
    calls: Vec<Logged>,
    bytes: Vec<u8>,
}

impl Model for DiskLog {
    ghost use Rattle.std.specs.Prelude.{◌≡◌, [], length, vec_capacity};
    ghost use Rattle.mx_outside.specs.DiskLog.{Log, changes_after, logged_bytes};

    ghost Value = { Log };

    ghost view = { λ l. record {
      changes = changes_after [] l.calls.items l.bytes.items;
      byte_capacity = vec_capacity l.bytes;
      call_capacity = vec_capacity l.calls;
    } };

    ghost invariant = { λ l. length l.bytes.items ≡ logged_bytes l.calls.items };
}

impl DiskLog {
    ghost use Rattle.mx_outside.specs.DiskLog.{log_budget, KeepsLogCapacity};

    /// No change yet, with memory for so many written bytes and calls.
    pub fn new(alloc: Global, bytes: usize, calls: usize) -> Result<DiskLog, AllocError>
        ensures { IfOk result (λ log.
            log ≡ record { changes = []; byte_capacity = bytes; call_capacity = calls }) }
    {
        Ok(DiskLog {
            bytes: Vec::with_capacity(alloc, bytes)?,
            calls: Vec::with_capacity(alloc, calls)?,
        })
    }

    /// Takes memory for one more change that writes so many bytes.
    pub fn reserve(&mut self, count: usize) -> Result<(), AllocError>
        ensures changes { self.new.changes ≡ self.old.changes }
        ensures keeps { KeepsLogCapacity self.old self.new }
        ensures reserved { OnOk result (Covers (log_budget self.new) count) }
        ensures within { Covers (log_budget self.old) count → IsOk result }
    {
        self.calls.reserve(1)?;
        self.bytes.reserve(count)?;
        Ok(())
    }

    /// A piece was written, and there is memory for it.
    pub fn push_written(&mut self, at: usize, piece: &[u8])
        requires { Covers (log_budget self.old) (length piece.now) }
        ensures changes { self.new.changes ≡ written at piece.now ∷ self.old.changes }
        ensures keeps { KeepsLogCapacity self.old self.new }
    {
        match self.bytes.extend_from_slice(piece) {
            Ok(()) => {}
            Err(_) => unreachable!(),
        }
        self.calls.push_reserved(Logged::Written {
            at,
            count: piece.len(),
        });
    }

    /// The disk was cut, and there is memory for the call.
    pub fn push_cut(&mut self, to: usize)
        requires { Covers (log_budget self.old) 0 }
        ensures changes { self.new.changes ≡ cut_to to ∷ self.old.changes }
        ensures keeps { KeepsLogCapacity self.old self.new }
    {
        self.calls.push_reserved(Logged::Cut(to));
    }

    /// The disk was synced, and there is memory for the call.
    pub fn push_synced(&mut self)
        requires { Covers (log_budget self.old) 0 }
        ensures changes { self.new.changes ≡ synced ∷ self.old.changes }
        ensures keeps { KeepsLogCapacity self.old self.new }
    {
        self.calls.push_reserved(Logged::Synced);
    }
}
