ghost use Rattle.std.specs.Prelude.{◌≡◌, ◌<◌, ◌≤◌, length, drop};
ghost use Rattle.mx_outside.specs.BytesSource.{wanted};

use crate::source::{Got, Source};
use std::marker::Model;

/// A source of given bytes, in pieces of stated sizes. It takes no memory, and never fails.
#[derive(Drop)]
pub struct BytesSource {
    bytes: Vec<u8>,
    given: usize,
    sizes: Vec<usize>,
    pieces: usize,
}

impl Model for BytesSource {
    ghost use Rattle.std.specs.Prelude.{◌≤◌, vec_len, drop};
    ghost use Rattle.mx_outside.specs.BytesSource.{Pieces};

    ghost Value = { Pieces };

    ghost view = { λ s. record {
      left = drop s.given s.bytes.items;
      sizes = drop s.pieces s.sizes.items;
    } };

    ghost invariant = { λ s. (s.given ≤ vec_len s.bytes) × (s.pieces ≤ vec_len s.sizes) };
}

impl BytesSource {
    /// A source of `bytes`, whose pieces have `sizes`, each cut to the buffer and to what is
    /// left. A size of 0 counts as 1. Past the last size a piece has as many bytes as fit.
    pub fn new(bytes: Vec<u8>, sizes: Vec<usize>) -> BytesSource
        ensures { result ≡ record { left = bytes.items; sizes = sizes.items } }
    {
        BytesSource {
            bytes,
            given: 0,
            sizes,
            pieces: 0,
        }
    }
}

impl Source for BytesSource {
    ghost use Rattle.std.specs.Prelude.{Some, true};
    ghost use Rattle.mx_outside.specs.Outside.{IsGiven, GivesBytes};
    ghost use Rattle.mx_outside.specs.BytesSource.{GivesPiece};

    ghost left = { λ s. Some s.left };

    ghost faults = { λ _. 0 };

    ghost never_fails = { λ _. true };

    fn read(&mut self, into: &mut [u8]) -> Got
        requires { 0 < length into.old }
        ensures given { IsGiven result (length into.old) }
        ensures next { GivesBytes result into.new self.old.left self.new.left }
        ensures piece { GivesPiece result self.old self.new (length into.old) }
    {
        let left = self.bytes.len() - self.given;
        if left == 0 {
            return Got::End;
        }
        let wanted = next_size(&self.sizes, &mut self.pieces, into.len());
        let count = wanted.min(into.len()).min(left);
        let end = self.given + count;
        into[..count].copy_from_slice(&self.bytes[self.given..end]);
        self.given = end;
        Got::Bytes(count)
    }
}

/// How many bytes the next piece is to have, by the size that is stated next, which this uses
/// up.
#[tactic(auto, using(crate::proofs::Pieces::next_size_is))]
fn next_size(sizes: &[usize], pieces: &mut usize, capacity: usize) -> usize
    requires { pieces.old ≤ length sizes.now }
    ensures wanted { result ≡ wanted (drop pieces.old sizes.now) capacity }
    ensures used { drop pieces.new sizes.now ≡ drop 1 (drop pieces.old sizes.now) }
    ensures within { pieces.new ≤ length sizes.now }
{
    if *pieces == sizes.len() {
        return capacity;
    }
    let size = sizes[*pieces];
    *pieces += 1;
    size.max(1)
}
