//! A link that sends one byte at a time.
ghost use Rattle.std.specs.Prelude.{◌≡◌, ◌<◌, length};
ghost use Rattle.mx_outside.specs.Link.{IsOpen};
ghost use Rattle.mx_outside.specs.ScriptLink.{log_of};

use mx_outside::{Link, Opening, Received, ScriptLink, Sent};

/// A link in memory that sends one byte of each piece.
#[derive(Drop)]
pub(crate) struct OneByteLink {
    pub(crate) link: ScriptLink,
}

impl Link for OneByteLink {
    ghost use Rattle.std.specs.Prelude.{Some};

    ghost log = { λ l. Some (log_of l.link) };

    ghost faults = { λ l. l.link.faults };

    ghost waits = { λ l. l.link.waits };

    fn open(&mut self, address: &str) -> Opening {
        self.link.open(address)
    }

    #[tactic(auto, using(crate::proofs::OneByte::sends_front))]
    fn send(&mut self, exchange: u64, piece: &[u8]) -> Sent {
        self.link.send(exchange, &piece[..1])
    }

    fn recv(&mut self, exchange: u64, into: &mut [u8]) -> Received {
        self.link.recv(exchange, into)
    }

    fn close(&mut self, exchange: u64) {
        self.link.close(exchange)
    }
}
