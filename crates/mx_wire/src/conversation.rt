ghost use Rattle.std.specs.Prelude.{◌≡◌, ◌≢◌, ◌+◌, ◌-◌, ◌<◌, ◌≤◌, ◌↔◌, IfSome, IfOk, true, false};
ghost use Rattle.std.specs.Prelude.{length};
ghost use Rattle.mx_outside.specs.Told.{Rose};
ghost use Rattle.mx_outside.specs.Link.{IsOpen};
ghost use Rattle.mx_wire.specs.Found.{found_of};
ghost use Rattle.mx_wire.specs.Reply.{Outcome};
ghost use Rattle.mx_wire.specs.Standing.{Polls, Heard, IsHeard, standing_first, longest_wait};
ghost use Rattle.mx_wire.specs.Standing.{greatest_reply, after_bytes, after_end, is_done};
ghost use Rattle.mx_wire.specs.Standing.Call.{gets, ends};

use crate::coding::Coding;
use crate::line::InLine;
use crate::reader::{Found, Reader, Stage};
use crate::turn::{Cause, Ending, Turn};
use mx_json::OutOfMemory;
use mx_outside::{Link, Received, Sent};
use std::alloc::Global;
use std::marker::Model;

/// The most bytes that a reply may have.
const GREATEST_REPLY: usize = 65_536;

/// An exchange is late from so many milliseconds on after its opening.
const LONGEST_WAIT: u64 = 60_000;

/// What one exchange with a gateway has come to: how much of the request was sent, and what was
/// read of the reply.
#[derive(Drop)]
pub(crate) struct Conversation {
    opened_at: u64,
    number: u64,
    request: Vec<u8>,
    sent: usize,
    received: Vec<u8>,
    reader: Reader,
    done: bool,
}

impl Model for Conversation {
    ghost use Rattle.std.specs.Prelude.{◌≡◌, ◌<◌, ◌≤◌, false, vec_len, vec_capacity};
    ghost use Rattle.mx_wire.specs.Standing.{Standing, greatest_reply};
    ghost use Rattle.mx_wire.specs.Reader.{HasTaken};

    ghost Value = { Standing };

    ghost view = { λ e. record {
      opened_at = e.opened_at;
      number = e.number;
      request = e.request.items;
      sent = e.sent;
      received = e.received.items;
      body = e.reader.held.items;
      done = e.done;
    } };

    ghost invariant = { λ e. (e.sent ≤ vec_len e.request)
        × (vec_len e.received ≤ greatest_reply)
        × (greatest_reply ≤ vec_capacity e.received)
        × (greatest_reply ≤ vec_capacity e.reader.held)
        × (vec_len e.reader.held ≤ vec_len e.received)
        × HasTaken e.received.items e.reader.stage e.reader.status e.reader.held.items
        × (e.done ≡ false → vec_len e.received < greatest_reply) };
}

impl Conversation {
    /// Nothing was sent yet. It takes the memory for the reply.
    pub fn new(
        alloc: Global,
        number: u64,
        request: Vec<u8>,
        opened_at: u64,
    ) -> Result<Conversation, OutOfMemory>
        ensures { IfOk result (λ conversation.
            conversation ≡ standing_first number request.items opened_at) }
    {
        Ok(Conversation {
            opened_at,
            number,
            request,
            sent: 0,
            received: Vec::with_capacity(alloc, GREATEST_REPLY)?,
            reader: Reader {
                stage: Stage::Block(false, InLine::Start),
                status: 0,
                held: Vec::with_capacity(alloc, GREATEST_REPLY)?,
            },
            done: false,
        })
    }

    /// The body of the reply, once one ended the exchange.
    pub fn body(&self) -> &[u8]
        ensures { result.now ≡ self.now.body }
    {
        &self.reader.held
    }

    /// Goes on by one call of the link at most, at this moment; what is received goes by way of the
    /// window.
    pub fn poll<L: Link>(&mut self, link: &mut L, window: &mut [u8], now: u64) -> Turn
        requires going { self.old.done ≡ false }
        requires open { IfSome (L.log link.old) (λ log. IsOpen log self.old.number) }
        requires moment { self.old.opened_at ≤ now }
        requires window { 0 < length window.old }
        ensures polls { Polls (L.log link.old) (L.log link.new) self.old self.new result }
        ensures open { IfSome (L.log link.new) (λ log. IsOpen log self.new.number) }
        ensures late { (result ≡ Turn.Done (Ending.Failed Cause.Late))
            ↔ (longest_wait ≤ now - self.old.opened_at) }
        ensures faults { L.faults link.old ≤ L.faults link.new }
        ensures waits { L.waits link.old ≤ L.waits link.new }
        ensures failed { result ≡ Turn.Done (Ending.Failed Cause.Link)
            → Rose (L.faults link.old) (L.faults link.new) }
        ensures steady { result ≢ Turn.Done (Ending.Failed Cause.Link)
            → L.faults link.new ≡ L.faults link.old }
        ensures waited { result ≡ Turn.NotYet → Rose (L.waits link.old) (L.waits link.new) }
        ensures moved { result ≢ Turn.NotYet → L.waits link.new ≡ L.waits link.old }
    {
        if now - self.opened_at >= LONGEST_WAIT {
            self.done = true;
            return Turn::Done(Ending::Failed(Cause::Late));
        }
        if self.sent < self.request.len() {
            self.send(link)
        } else {
            self.receive(link, window)
        }
    }

    /// Sends the rest of the request.
    fn send<L: Link>(&mut self, link: &mut L) -> Turn
        requires going { self.old.done ≡ false }
        requires open { IfSome (L.log link.old) (λ log. IsOpen log self.old.number) }
        requires rest { self.old.sent < length self.old.request }
        ensures polls { Polls (L.log link.old) (L.log link.new) self.old self.new result }
        ensures timely { result ≢ Turn.Done (Ending.Failed Cause.Late) }
        ensures faults { L.faults link.old ≤ L.faults link.new }
        ensures waits { L.waits link.old ≤ L.waits link.new }
        ensures failed { result ≡ Turn.Done (Ending.Failed Cause.Link)
            → Rose (L.faults link.old) (L.faults link.new) }
        ensures steady { result ≢ Turn.Done (Ending.Failed Cause.Link)
            → L.faults link.new ≡ L.faults link.old }
        ensures waited { result ≡ Turn.NotYet → Rose (L.waits link.old) (L.waits link.new) }
        ensures moved { result ≢ Turn.NotYet → L.waits link.new ≡ L.waits link.old }
    {
        match link.send(self.number, &self.request[self.sent..]) {
            Sent::Moved(count) => {
                self.sent += count;
                Turn::Moved
            }
            Sent::NotYet => Turn::NotYet,
            Sent::Failed => {
                self.done = true;
                Turn::Done(Ending::Failed(Cause::Link))
            }
        }
    }

    /// Receives some of the reply.
    fn receive<L: Link>(&mut self, link: &mut L, window: &mut [u8]) -> Turn
        requires going { self.old.done ≡ false }
        requires open { IfSome (L.log link.old) (λ log. IsOpen log self.old.number) }
        requires sent { self.old.sent ≡ length self.old.request }
        requires window { 0 < length window.old }
        ensures polls { Polls (L.log link.old) (L.log link.new) self.old self.new result }
        ensures timely { result ≢ Turn.Done (Ending.Failed Cause.Late) }
        ensures faults { L.faults link.old ≤ L.faults link.new }
        ensures waits { L.waits link.old ≤ L.waits link.new }
        ensures failed { result ≡ Turn.Done (Ending.Failed Cause.Link)
            → Rose (L.faults link.old) (L.faults link.new) }
        ensures steady { result ≢ Turn.Done (Ending.Failed Cause.Link)
            → L.faults link.new ≡ L.faults link.old }
        ensures waited { result ≡ Turn.NotYet → Rose (L.waits link.old) (L.waits link.new) }
        ensures moved { result ≢ Turn.NotYet → L.waits link.new ≡ L.waits link.old }
    {
        let room = window.len().min(GREATEST_REPLY - self.received.len());
        self.receive_into(link, &mut window[..room])
    }

    /// Receives some of the reply by way of this buffer.
    fn receive_into<L: Link>(&mut self, link: &mut L, into: &mut [u8]) -> Turn
        requires going { self.old.done ≡ false }
        requires open { IfSome (L.log link.old) (λ log. IsOpen log self.old.number) }
        requires sent { self.old.sent ≡ length self.old.request }
        requires some { 0 < length into.old }
        requires room { length self.old.received + length into.old ≤ greatest_reply }
        ensures polls { Polls (L.log link.old) (L.log link.new) self.old self.new result }
        ensures timely { result ≢ Turn.Done (Ending.Failed Cause.Late) }
        ensures faults { L.faults link.old ≤ L.faults link.new }
        ensures waits { L.waits link.old ≤ L.waits link.new }
        ensures failed { result ≡ Turn.Done (Ending.Failed Cause.Link)
            → Rose (L.faults link.old) (L.faults link.new) }
        ensures steady { result ≢ Turn.Done (Ending.Failed Cause.Link)
            → L.faults link.new ≡ L.faults link.old }
        ensures waited { result ≡ Turn.NotYet → Rose (L.waits link.old) (L.waits link.new) }
        ensures moved { result ≢ Turn.NotYet → L.waits link.new ≡ L.waits link.old }
    {
        match link.recv(self.number, into) {
            Received::Bytes(count) => self.take(&into[..count]),
            Received::NotYet => Turn::NotYet,
            Received::End => self.end(),
            Received::Failed => {
                self.done = true;
                Turn::Done(Ending::Failed(Cause::Link))
            }
        }
    }

    /// Takes bytes of the reply.
    fn take(&mut self, piece: &[u8]) -> Turn
        requires room { length self.old.received + length piece.now ≤ greatest_reply }
        ensures heard { Heard (gets piece.now) self.old self.new result }
        ensures tells { IsHeard result }
    {
        match self.received.extend_from_slice(piece) {
            Ok(()) => {}
            Err(_) => unreachable!(),
        }
        self.reader.feed(piece);
        let turn = after_bytes(self.reader.found(false), self.received.len());
        self.done = is_done(turn);
        turn
    }

    /// Comes to the link's end.
    fn end(&mut self) -> Turn
        ensures heard { Heard ends self.old self.new result }
        ensures tells { IsHeard result }
    {
        self.done = true;
        after_end(self.reader.found(true))
    }
}

/// The answer after bytes were received, by what all of them hold and how many they are.
fn after_bytes(found: Found, count: usize) -> Turn
    ensures answer { (o : Outcome) → found ≡ found_of o → result ≡ after_bytes count o }
    ensures tells { IsHeard result }
{
    match found {
        Found::Whole(status) => Turn::Done(Ending::Reply(status)),
        Found::NotReply => Turn::Done(Ending::Failed(Cause::NotReply)),
        Found::Unfinished if count == GREATEST_REPLY => {
            Turn::Done(Ending::Failed(Cause::TooLong))
        }
        Found::Unfinished => Turn::Moved,
    }
}

/// The answer at the link's end, by what the bytes received hold.
fn after_end(found: Found) -> Turn
    ensures answer { (o : Outcome) → found ≡ found_of o → result ≡ after_end o }
    ensures tells { IsHeard result }
    ensures done { is_done result ≡ true }
{
    match found {
        Found::Whole(status) => Turn::Done(Ending::Reply(status)),
        Found::NotReply => Turn::Done(Ending::Failed(Cause::NotReply)),
        Found::Unfinished => Turn::Done(Ending::Failed(Cause::Early)),
    }
}

/// Whether the answer ends the exchange.
fn is_done(turn: Turn) -> bool
    ensures { result ≡ is_done turn }
{
    matches!(turn, Turn::Done(_))
}
