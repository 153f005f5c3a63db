ghost use Rattle.std.specs.Prelude.{◌≡◌, ◌+◌, ◌<◌, ◌≤◌, [], false, length, IfOk, MatchResult};
ghost use Rattle.mx_outside.specs.Link.{IsSent, IsReceived};
ghost use Rattle.mx_outside.specs.Script.{next_of, next_bytes};
ghost use Rattle.mx_outside.specs.ScriptLink.{place_for, OpensPlace, LetsSend, SendsPlace};
ghost use Rattle.mx_outside.specs.ScriptLink.{ReceivesPlace, ClosesPlace};

use crate::link::{Received, Sent};
use crate::memory::script::{LinkStep, Script};
use std::alloc::{AllocError, Global};
use std::marker::Model;

/// One exchange of a [`ScriptLink`](crate::ScriptLink): what its log has for it, and its script.
#[derive(Drop)]
pub(crate) struct Opened {
    address: Vec<u8>,
    sent: Vec<u8>,
    received: Vec<u8>,
    moves: u64,
    unopened: bool,
    failed: bool,
    ended: bool,
    closed: bool,
    script: Script,
}

impl Model for Opened {
    ghost use Rattle.std.specs.Prelude.{◌≤◌, ◌+◌, length, vec_capacity};
    ghost use Rattle.mx_outside.specs.ScriptLink.{Place};

    ghost Value = { Place };

    ghost view = { λ o. record {
      entry = record {
        address = o.address.items;
        sent = o.sent.items;
        received = o.received.items;
        moves = o.moves;
        unopened = o.unopened;
        failed = o.failed;
        ended = o.ended;
        closed = o.closed;
      };
      play = o.script;
      address_room = vec_capacity o.address;
      sent_room = vec_capacity o.sent;
      received_room = vec_capacity o.received;
    } };

    ghost invariant = { λ o. o.moves ≤ length o.sent.items + length o.received.items };
}

impl Opened {
    ghost use Rattle.mx_outside.specs.Link.{fresh};

    /// An exchange to come, with memory for so many bytes of each kind.
    pub fn new(alloc: Global, script: Script, room: usize) -> Result<Opened, AllocError>
        ensures { IfOk result (λ opened. opened ≡ place_for room script) }
    {
        Ok(Opened {
            address: Vec::with_capacity(alloc, room)?,
            sent: Vec::with_capacity(alloc, room)?,
            received: Vec::with_capacity(alloc, room)?,
            moves: 0,
            unopened: false,
            failed: false,
            ended: false,
            closed: false,
            script,
        })
    }

    /// Opens it, or fails as its script says, and answers whether it failed.
    pub fn open(&mut self, address: &str) -> Result<bool, AllocError>
        requires { self.old.entry ≡ fresh [] false }
        ensures { MatchResult result
            (λ fails. (fails ≡ self.old.play.fails)
            × OpensPlace address.now self.old self.new)
            (λ _. (self.new ≡ self.old) × (self.old.address_room < length address.now)) }
    {
        self.address.reserve(address.len())?;
        match self.address.extend_from_slice(address.as_bytes()) {
            Ok(()) => {}
            Err(_) => unreachable!(),
        }
        self.unopened = self.script.fails();
        self.failed = self.unopened;
        Ok(self.unopened)
    }

    /// Sends as the script says.
    pub fn send(&mut self, piece: &[u8]) -> Sent
        requires { 0 < length piece.now }
        ensures sent { IsSent result (length piece.now) }
        ensures script { SendsPlace result piece.now self.old self.new }
    {
        match self.script.next() {
            Some(LinkStep::Wait) => {
                self.script.use_up();
                Sent::NotYet
            }
            Some(LinkStep::Fail) => {
                self.script.use_up();
                self.failed = true;
                Sent::Failed
            }
            _ => self.take(piece),
        }
    }

    /// Takes the piece whole.
    fn take(&mut self, piece: &[u8]) -> Sent
        requires some { 0 < length piece.now }
        requires lets { LetsSend (next_of self.old.play.steps) }
        ensures sent { IsSent result (length piece.now) }
        ensures script { SendsPlace result piece.now self.old self.new }
    {
        if self.sent.extend_from_slice(piece).is_err() {
            self.failed = true;
            return Sent::Failed;
        }
        self.moves += 1;
        Sent::Moved(piece.len())
    }

    /// Receives as the script says.
    pub fn recv(&mut self, into: &mut [u8]) -> Received
        requires { 0 < length into.old }
        ensures received { IsReceived result (length into.old) }
        ensures script { ReceivesPlace result into.new self.old self.new }
    {
        match self.script.next() {
            None => Received::NotYet,
            Some(LinkStep::Wait) => {
                self.script.use_up();
                Received::NotYet
            }
            Some(LinkStep::End) => {
                self.script.use_up();
                self.ended = true;
                Received::End
            }
            Some(LinkStep::Fail) => {
                self.script.use_up();
                self.failed = true;
                Received::Failed
            }
            Some(LinkStep::Bytes(_)) => self.give(into),
        }
    }

    /// Gives as many of the bytes that come next as fit.
    fn give(&mut self, into: &mut [u8]) -> Received
        requires room { 0 < length into.old }
        requires some { 0 < length (next_bytes self.old.play.steps) }
        ensures received { IsReceived result (length into.old) }
        ensures script { ReceivesPlace result into.new self.old self.new }
    {
        let next = self.script.next_bytes();
        let count = next.len().min(into.len());
        let piece = &next[..count];
        if self.received.extend_from_slice(piece).is_err() {
            self.failed = true;
            return Received::Failed;
        }
        into[..count].copy_from_slice(piece);
        self.script.use_bytes(count);
        self.moves += 1;
        Received::Bytes(count)
    }

    /// Closes it.
    pub fn close(&mut self)
        ensures { ClosesPlace self.old self.new }
    {
        self.closed = true;
    }
}
