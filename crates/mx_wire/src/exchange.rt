ghost use Rattle.std.specs.Prelude.{◌≡◌, ◌≢◌, ◌-◌, ◌≤◌, ◌↔◌, IfSome, IfOk, false};
ghost use Rattle.mx_outside.specs.Told.{Rose};
ghost use Rattle.mx_outside.specs.Link.{IsOpen};
ghost use Rattle.mx_wire.specs.Standing.{Polls, standing_first, longest_wait};

use crate::conversation::Conversation;
use crate::turn::{Cause, Ending, Turn};
use mx_json::OutOfMemory;
use mx_outside::Link;
use std::alloc::Global;
use std::marker::Model;

/// How many bytes are received at once at most.
const WINDOW: usize = 4096;

/// One exchange with a gateway: a request that is sent whole, and then its reply, by RFC 9112 in
/// our profile.
#[derive(Drop)]
pub struct Exchange {
    conversation: Conversation,
    // What is received goes by way of it, so that no poll has to clear one.
    window: Vec<u8>,
}

impl Model for Exchange {
    ghost use Rattle.std.specs.Prelude.{◌<◌, vec_len};
    ghost use Rattle.mx_wire.specs.Standing.{Standing};

    ghost Value = { Standing };

    ghost view = { λ e. e.conversation };

    ghost invariant = { λ e. 0 < vec_len e.window };
}

impl Exchange {
    /// An exchange that was opened under this number at this moment, in milliseconds, and is to
    /// send this request. It takes the memory for the reply.
    ///
    /// # Errors
    ///
    /// `OutOfMemory` where there is no memory for the reply.
    pub fn new(
        alloc: Global,
        number: u64,
        request: Vec<u8>,
        opened_at: u64,
    ) -> Result<Exchange, OutOfMemory>
        ensures { IfOk result (λ exchange.
            exchange ≡ standing_first number request.items opened_at) }
    {
        Ok(Exchange {
            conversation: Conversation::new(alloc, number, request, opened_at)?,
            window: vec![in alloc; 0; WINDOW]?,
        })
    }

    /// The body of the reply, once one ended the exchange.
    pub fn body(&self) -> &[u8]
        ensures { result.now ≡ self.now.body }
    {
        self.conversation.body()
    }

    /// Goes on with the exchange by one call of the link at most, at the moment `now` in
    /// milliseconds, which isn't before its opening. The exchange isn't done, and it was opened on
    /// this link and isn't closed. No memory is taken.
    ///
    /// `Late` comes where 60,000 milliseconds went by, before anything else is tried. Else the rest
    /// of the request is sent, and once all of it was, the reply is received.
    pub fn poll<L: Link>(&mut self, link: &mut L, now: u64) -> Turn
        requires going { self.old.done ≡ false }
        requires open { IfSome (L.log link.old) (λ log. IsOpen log self.old.number) }
        requires moment { self.old.opened_at ≤ now }
        ensures polls { Polls (L.log link.old) (L.log link.new) self.old self.new result }
        ensures open { IfSome (L.log link.new) (λ log. IsOpen log self.new.number) }
        ensures late { (result ≡ Turn.Done (Ending.Failed Cause.Late))
            ↔ (longest_wait ≤ now - self.old.opened_at) }
        ensures faults { L.faults link.old ≤ L.faults link.new }
        ensures waits { L.waits link.old ≤ L.waits link.new }
        ensures failed { result ≡ Turn.Done (Ending.Failed Cause.Link)
            → Rose (L.faults link.old) (L.faults link.new) }
        ensures steady { result ≢ Turn.Done (Ending.Failed Cause.Link)
            → L.faults link.new ≡ L.faults link.old }
        ensures waited { result ≡ Turn.NotYet → Rose (L.waits link.old) (L.waits link.new) }
        ensures moved { result ≢ Turn.NotYet → L.waits link.new ≡ L.waits link.old }
    {
        self.conversation.poll(link, &mut self.window, now)
    }
}
