ghost use Rattle.std.specs.Prelude.{◌≡◌, ◌+◌, ◌<◌, ◌≤◌, ◌∷◌, [], ℕ, List, Bool, false, length};
ghost use Rattle.std.specs.Prelude.{vec_len, vec_capacity};
ghost use Rattle.mx_wire.specs.Reading.Reading.{Got};
ghost use Rattle.mx_wire.specs.Blocks.{next_in_block};
ghost use Rattle.mx_wire.specs.Reply.{Outcome, ReadsFrom, body_of};
ghost use Rattle.mx_wire.specs.Reader.{Resumes, Takes, is_settled, outcome_of};
ghost use Rattle.mx_wire.specs.Found.{found_of};

use crate::coding::{Coding, after_byte, at_size_line, is_over, is_within};
use crate::head::{Framing, Meaning, read_meaning};
use crate::line::{InLine, ends_empty, ends_full, place_after};

/// Where in a reply one stands.
#[derive(Clone, Copy, Debug, PartialEq, Eq)]
pub(crate) enum Stage {
    /// In a block, behind a line that isn't empty or not, at this place of a line.
    Block(bool, InLine),
    /// In a body up to the end of the link.
    ToEnd,
    /// In a body whose length is told.
    Body(Coding),
}

/// What the bytes that were taken hold.
#[derive(Clone, Copy, Debug, PartialEq, Eq)]
pub(crate) enum Found {
    /// A whole reply with this status.
    Whole(u16),
    /// What no further bytes make a reply.
    NotReply,
    /// Neither yet.
    Unfinished,
}

/// Reads a reply byte by byte.
#[derive(Drop)]
pub(crate) struct Reader {
    pub(crate) stage: Stage,
    pub(crate) status: u16,
    /// The block so far, and then the body so far.
    pub(crate) held: Vec<u8>,
}

/// At the start of a body of this framing.
#[tactic(auto, unfolding(crate::specs::Bodies::counted))]
fn body_stage(framing: Framing) -> Stage
    ensures { (status : ℕ) (ended : Bool) (u : List ℕ) (o : Outcome)
        → Resumes result status [] ended u o → o ≡ body_of status framing ended u }
{
    match framing {
        Framing::Nothing => Stage::Body(Coding::Complete),
        Framing::Counted(0) => Stage::Body(Coding::Complete),
        Framing::Counted(count) => Stage::Body(Coding::Counted(count - 1)),
        Framing::Chunked => Stage::Body(at_size_line()),
        Framing::ToEnd => Stage::ToEnd,
    }
}

/// Where one stands in a block behind this byte; `None` where it ends the block.
fn next_in_block(behind: bool, place: InLine, byte: u8) -> Option<(bool, InLine)>
    ensures { result ≡ next_in_block behind place byte }
{
    if behind && ends_empty(place, byte) {
        None
    } else {
        Some((behind || ends_full(place, byte), place_after(place, byte)))
    }
}

impl Reader {
    /// Nothing is read any more.
    pub fn is_settled(&self) -> bool
        ensures { result ≡ is_settled self.now.stage }
    {
        match self.stage {
            Stage::Body(coding) => is_over(coding),
            Stage::Block(_, _) | Stage::ToEnd => false,
        }
    }

    /// What the bytes that were taken hold, where the link ended or not.
    pub fn found(&self, ended: bool) -> Found
        ensures { result ≡ found_of
            (outcome_of self.now.stage self.now.status self.now.held.items ended) }
    {
        match self.stage {
            Stage::Body(Coding::Complete) => Found::Whole(self.status),
            Stage::Body(Coding::Broken) => Found::NotReply,
            Stage::ToEnd if ended => Found::Whole(self.status),
            _ => Found::Unfinished,
        }
    }

    /// Takes a piece, up to the byte that settles the reply.
    pub fn feed(&mut self, piece: &[u8])
        requires { vec_len self.old.held + length piece.now ≤ vec_capacity self.old.held }
        ensures takes { Takes self.old.stage self.old.status self.old.held.items piece.now
            self.new.stage self.new.status self.new.held.items }
        ensures len { vec_len self.new.held ≤ vec_len self.old.held + length piece.now }
        ensures capacity { vec_capacity self.new.held ≡ vec_capacity self.old.held }
    {
        for byte in piece {
            if self.is_settled() {
                return;
            }
            self.step(*byte);
        }
    }

    /// Takes a byte.
    fn step(&mut self, byte: u8)
        requires open { is_settled self.old.stage ≡ false }
        requires room { vec_len self.old.held < vec_capacity self.old.held }
        ensures takes { Takes self.old.stage self.old.status self.old.held.items (byte ∷ [])
            self.new.stage self.new.status self.new.held.items }
        ensures len { vec_len self.new.held ≤ vec_len self.old.held + 1 }
        ensures capacity { vec_capacity self.new.held ≡ vec_capacity self.old.held }
    {
        match self.stage {
            Stage::Block(behind, place) => self.step_block(behind, place, byte),
            Stage::ToEnd => self.held.push_reserved(byte),
            Stage::Body(coding) => {
                if is_within(coding) {
                    self.held.push_reserved(byte);
                }
                self.stage = Stage::Body(after_byte(coding, byte));
            }
        }
    }

    /// Takes a byte of a block.
    fn step_block(&mut self, behind: bool, place: InLine, byte: u8)
        requires stage { self.old.stage ≡ Stage.Block behind place }
        requires room { vec_len self.old.held < vec_capacity self.old.held }
        ensures takes { Takes self.old.stage self.old.status self.old.held.items (byte ∷ [])
            self.new.stage self.new.status self.new.held.items }
        ensures len { vec_len self.new.held ≤ vec_len self.old.held + 1 }
        ensures capacity { vec_capacity self.new.held ≡ vec_capacity self.old.held }
    {
        self.held.push_reserved(byte);
        match next_in_block(behind, place, byte) {
            Some((behind, place)) => self.stage = Stage::Block(behind, place),
            None => self.take_block(),
        }
    }

    /// Takes the block that is held.
    fn take_block(&mut self)
        ensures takes { (ended : Bool) (u : List ℕ) (o : Outcome)
            → Resumes self.new.stage self.new.status self.new.held.items ended u o
            → ReadsFrom ended (Got self.old.held.items u) o }
        ensures len { vec_len self.new.held ≡ 0 }
        ensures capacity { vec_capacity self.new.held ≡ vec_capacity self.old.held }
    {
        let meaning = read_meaning(&self.held);
        self.held.clear();
        match meaning {
            Meaning::Refuse => self.stage = Stage::Body(Coding::Broken),
            Meaning::Interim => self.stage = Stage::Block(false, InLine::Start),
            Meaning::Final(status, framing) => {
                self.status = status;
                self.stage = body_stage(framing);
            }
        }
    }
}
