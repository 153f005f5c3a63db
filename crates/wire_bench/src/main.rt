//! Replies of 65,536 bytes that `bench/` measures. A line of the input is how many bytes come at
//! once; what is printed is how many polls the exchange took.
#![tactic(auto)]

ghost use Rattle.std.specs.Prelude.{◌≡◌, false, IfOk};
ghost use Rattle.mx_outside.specs.Link.{IsOpen};
ghost use Rattle.mx_outside.specs.ScriptLink.{log_of};

use anyhow::{Context, Result, bail};
use mx_outside::{Link, LinkStep, Opening, Script, ScriptLink};
use mx_wire::{Ending, Exchange, Turn};
use std::alloc::Global;

/// How long a reply is.
const LENGTH: usize = 65_536;

/// What stands before its body.
const HEAD: &[u8] = b"HTTP/1.1 200 OK\r\nContent-Length: 65494\r\n\r\n";

fn main(rt: HostRuntime) -> Result<()> {
    for line in rt.lines(rt.alloc()) {
        let size = line?.as_str().parse::<usize>().context("a size")?;
        println!(rt; "{}", polls_of(rt.alloc(), size)?)?;
    }
    Ok(())
}

/// How many polls the exchange takes whose reply comes in pieces of this size.
fn polls_of(alloc: Global, size: usize) -> Result<u64> {
    let mut link = link_of(alloc, size)?;
    let number = open(&mut link)?;
    let mut exchange = Exchange::new(alloc, number, Vec::new(alloc), 0)?;
    poll_all(&mut exchange, &mut link)
}

/// A link that gives the reply in pieces of this size.
fn link_of(alloc: Global, size: usize) -> Result<ScriptLink> {
    let mut bytes = Vec::with_capacity(alloc, LENGTH)?;
    bytes.extend_from_slice(HEAD)?;
    for _ in HEAD.len()..LENGTH {
        bytes.push(b'b')?;
    }
    let mut steps = Vec::new(alloc);
    if size == 0 {
        bail!("a piece of no bytes");
    }
    for _ in 0..LENGTH / size + 1 {
        steps.push(LinkStep::Bytes(size))?;
    }
    let mut scripts = Vec::new(alloc);
    if scripts.push(Script::new(bytes, steps)).is_err() {
        bail!("no memory");
    }
    Ok(ScriptLink::new(alloc, scripts, LENGTH, 1)?)
}

/// Opens the exchange.
#[tactic(auto, using(mx_wire::proofs::Opened::opened_is_open))]
fn open(link: &mut ScriptLink) -> Result<u64>
    ensures { IfOk result (IsOpen (log_of link.new)) }
{
    match link.open("push.example") {
        Opening::Opened(number) => Ok(number),
        Opening::Failed | Opening::OutOfMemory => bail!("not opened"),
    }
}

/// Polls to the end of the exchange.
fn poll_all(exchange: &mut Exchange, link: &mut ScriptLink) -> Result<u64>
    requires going { exchange.old.done ≡ false }
    requires open { IsOpen (log_of link.old) exchange.old.number }
    requires moment { exchange.old.opened_at ≡ 0 }
{
    for polls in 1..200_000 {
        match exchange.poll(link, 0) {
            Turn::Moved | Turn::NotYet => {}
            Turn::Done(Ending::Reply(200)) => return Ok(polls),
            Turn::Done(_) => bail!("no reply"),
        }
    }
    bail!("no end")
}
