ghost use Rattle.std.specs.Prelude.{◌≡◌, ◌<◌, [], ◌∷◌, length, IfOk, IsOk, MatchResult};
ghost use Rattle.mx_outside.specs.Budget.{Covers};

use crate::sink::{Put, Sink};
use mx_json::OutOfMemory;
use std::alloc::{AllocError, Global};
use std::marker::Model;

/// A sink that keeps what it took. It takes each piece whole.
#[derive(Drop)]
pub struct VecSink {
    taken: Vec<u8>,
    sizes: Vec<usize>,
    faults: u64,
}

impl Model for VecSink {
    ghost use Rattle.std.specs.Prelude.{vec_capacity};
    ghost use Rattle.mx_outside.specs.VecSink.{Kept};

    ghost Value = { Kept };

    ghost view = { λ s. record {
      taken = s.taken.items;
      sizes = s.sizes.items;
      byte_capacity = vec_capacity s.taken;
      call_capacity = vec_capacity s.sizes;
      faults = s.faults;
    } };
}

impl VecSink {
    ghost use Rattle.mx_outside.specs.VecSink.{budget_of, KeepsCapacity, Keeps};

    /// A sink with memory for so many bytes and calls. Calls within these take no memory and
    /// never fail.
    pub fn new(alloc: Global, bytes: usize, calls: usize) -> Result<VecSink, OutOfMemory>
        ensures { IfOk result (λ sink. sink ≡ record {
          taken = [];
          sizes = [];
          byte_capacity = bytes;
          call_capacity = calls;
          faults = 0;
        }) }
    {
        Ok(VecSink {
            taken: Vec::with_capacity(alloc, bytes)?,
            sizes: Vec::with_capacity(alloc, calls)?,
            faults: 0,
        })
    }

    /// The bytes that it took.
    pub fn taken(&self) -> &[u8]
        ensures { result.now ≡ self.now.taken }
    {
        &self.taken
    }

    /// The size in bytes of the piece that each call took.
    pub fn sizes(&self) -> &[usize]
        ensures { result.now ≡ self.now.sizes }
    {
        &self.sizes
    }

    fn keep(&mut self, piece: &[u8]) -> Result<(), AllocError>
        ensures capacity { KeepsCapacity self.old self.new }
        ensures within { Covers (budget_of self.old) (length piece.now) → IsOk result }
        ensures keeps { MatchResult result
            (λ _. Keeps self.old self.new piece.now (length piece.now ∷ []) self.old.faults)
            (λ _. Keeps self.old self.new [] [] self.old.faults) }
    {
        self.sizes.reserve(1)?;
        self.taken.extend_from_slice(piece)?;
        self.sizes.push_reserved(piece.len());
        Ok(())
    }
}

impl Sink for VecSink {
    ghost use Rattle.std.specs.Prelude.{Some, ◌≤◌};
    ghost use Rattle.mx_outside.specs.Told.{WhereTold, Rose};
    ghost use Rattle.mx_outside.specs.Outside.{IsMoved, Takes};
    ghost use Rattle.mx_outside.specs.VecSink.{budget_of, KeepsCapacity, KeepsPiece};

    ghost taken = { λ s. Some s.taken };

    ghost faults = { λ s. s.faults };

    ghost budget = { budget_of };

    /// Past its memory it grows, and fails where it finds no memory.
    fn write(&mut self, piece: &[u8]) -> Put
        requires { 0 < length piece.now }
        ensures capacity { KeepsCapacity self.old self.new }
        ensures within { Covers (budget_of self.old) (length piece.now)
            → result ≡ Put.Moved (length piece.now) }
        ensures keeps { KeepsPiece result piece.now self.old self.new }
        ensures count { self.old.faults ≤ self.new.faults }
    {
        if self.keep(piece).is_err() {
            self.faults = self.faults.saturating_add(1);
            return Put::Failed;
        }
        Put::Moved(piece.len())
    }
}
