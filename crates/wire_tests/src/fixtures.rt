//! Links and exchanges that tests are made of. What can't be made ends the test.
ghost use Rattle.std.specs.Prelude.{◌≡◌, ◌≤◌, false, IfSome};
ghost use Rattle.mx_outside.specs.Link.{IsOpen};
ghost use Rattle.mx_outside.specs.ScriptLink.{log_of};

use mx_outside::{Link, LinkStep, Opening, Script, ScriptLink};
use mx_wire::{Ending, Exchange, Turn};
use std::alloc::Global;
use std::process::Abort;

/// The request that is sent.
pub(crate) const REQUEST: &[u8] = b"POST /_matrix/push/v1/notify HTTP/1.1\r\n\r\n";

/// A link whose one exchange gives these bytes in these steps.
pub(crate) fn link_of(
    rt: &impl Abort,
    alloc: Global,
    bytes: Vec<u8>,
    steps: Vec<LinkStep>,
) -> ScriptLink {
    let mut scripts = Vec::new(alloc);
    if scripts.push(Script::new(bytes, steps)).is_err() {
        rt.panic("a script");
    }
    ScriptLink::new(alloc, scripts, 70_000, 1).expect(rt, "a link")
}

/// Opens the next exchange of the link, and answers its number.
#[tactic(auto, using(mx_wire::proofs::Opened::opened_is_open))]
pub(crate) fn open(rt: &impl Abort, link: &mut ScriptLink) -> u64
    ensures { IsOpen (log_of link.new) result }
{
    match link.open("push.example") {
        Opening::Opened(number) => number,
        Opening::Failed | Opening::OutOfMemory => rt.panic("not opened"),
    }
}

/// An exchange of this number that was opened at the moment 1000 and sends the request.
pub(crate) fn exchange(rt: &impl Abort, alloc: Global, number: u64) -> Exchange
    ensures number { result.number ≡ number }
    ensures moment { result.opened_at ≡ 1000 }
    ensures going { result.done ≡ false }
{
    let request = Vec::from_slice(alloc, REQUEST).expect(rt, "a request");
    Exchange::new(alloc, number, request, 1000).expect(rt, "an exchange")
}

/// Polls so often at this moment, or until the exchange ends.
pub(crate) fn drive<L: Link>(
    exchange: &mut Exchange,
    link: &mut L,
    now: u64,
    polls: u64,
) -> Option<Ending>
    requires going { exchange.old.done ≡ false }
    requires open { IfSome (L.log link.old) (λ log. IsOpen log exchange.old.number) }
    requires moment { exchange.old.opened_at ≤ now }
{
    for _ in 0..polls {
        match exchange.poll(link, now) {
            Turn::Moved | Turn::NotYet => {}
            Turn::Done(ending) => return Some(ending),
        }
    }
    None
}
