ghost use Rattle.std.specs.Prelude.{◌≡◌, ◌≢◌, ◌<◌, ◌≤◌, ℕ, List, Option, length, IfSome};
ghost use Rattle.mx_outside.specs.Told.{WhereTold, Rose};

/// What a call of `open` of a [`Link`] answers.
#[derive(Clone, Copy, Debug, PartialEq, Eq)]
pub enum Opening {
    /// The exchange of this number was opened. Calls of `open` are counted from 1, those that
    /// failed too.
    Opened(u64),
    /// The link failed. The call counts all the same.
    Failed,
    /// The allocator had no memory. The call doesn't count.
    OutOfMemory,
}

/// What a call of `send` of a [`Link`] answers.
#[derive(Clone, Copy, Debug, PartialEq, Eq)]
pub enum Sent {
    /// So many bytes, at least one, were sent from the front of the piece.
    Moved(usize),
    /// No byte can be sent now.
    NotYet,
    /// The link failed, and sent no byte.
    Failed,
}

/// What a call of `recv` of a [`Link`] answers.
#[derive(Clone, Copy, Debug, PartialEq, Eq)]
pub enum Received {
    /// So many bytes, at least one, now stand at the front of the buffer.
    Bytes(usize),
    /// No byte has come yet.
    NotYet,
    /// The other side ended, and no bytes are left.
    End,
    /// The link failed, and gave no byte.
    Failed,
}

/// What exchanges bytes with another machine, in exchanges that are numbered from 1.
///
/// An exchange that is named was opened and isn't closed. The count of faults rises in a call that
/// fails and in no other, and the count of waits in a call that answers `NotYet` and in no other.
pub trait Link {
    ghost use Rattle.mx_outside.specs.Link.{Entry, IsOpen, Changes, Opens, IsSent, Sends};
    ghost use Rattle.mx_outside.specs.Link.{IsReceived, Receives, with_closed};

    // An entry for each call of `open`, where it tells them.
    ghost log: { Self → Option (List Entry) };

    // How often it failed, as far as it counts.
    ghost faults: { Self → ℕ };

    // How often it answered that nothing can be moved yet, as far as it counts.
    ghost waits: { Self → ℕ };

    /// Opens an exchange with `address`, a host and perhaps `:` and a port.
    fn open(&mut self, address: &str) -> Opening
        ensures log { WhereTold (log self.old) (log self.new) (Opens result address.now) }
        ensures count { faults self.old ≤ faults self.new }
        ensures failed { result ≡ Opening.Failed → Rose (faults self.old) (faults self.new) }
        ensures steady { result ≢ Opening.Failed → faults self.new ≡ faults self.old }
        ensures waits { waits self.new ≡ waits self.old };

    /// Sends the first bytes of `piece`, which isn't empty, as many as it likes but at least one,
    /// and answers how many.
    fn send(&mut self, exchange: u64, piece: &[u8]) -> Sent
        requires open { IfSome (log self.old) (λ log. IsOpen log exchange) }
        requires some { 0 < length piece.now }
        ensures sent { IsSent result (length piece.now) }
        ensures log { WhereTold (log self.old) (log self.new)
            (Sends result exchange piece.now) }
        ensures count { faults self.old ≤ faults self.new }
        ensures failed { result ≡ Sent.Failed → Rose (faults self.old) (faults self.new) }
        ensures steady { result ≢ Sent.Failed → faults self.new ≡ faults self.old }
        ensures waits { waits self.old ≤ waits self.new }
        ensures waited { result ≡ Sent.NotYet → Rose (waits self.old) (waits self.new) }
        ensures moved { result ≢ Sent.NotYet → waits self.new ≡ waits self.old };

    /// Puts the next bytes that came at the front of `into`, which isn't empty, as many as it
    /// likes but at least one, and answers how many.
    fn recv(&mut self, exchange: u64, into: &mut [u8]) -> Received
        requires open { IfSome (log self.old) (λ log. IsOpen log exchange) }
        requires some { 0 < length into.old }
        ensures received { IsReceived result (length into.old) }
        ensures log { WhereTold (log self.old) (log self.new)
            (Receives result exchange into.new) }
        ensures count { faults self.old ≤ faults self.new }
        ensures failed { result ≡ Received.Failed → Rose (faults self.old) (faults self.new) }
        ensures steady { result ≢ Received.Failed → faults self.new ≡ faults self.old }
        ensures waits { waits self.old ≤ waits self.new }
        ensures waited { result ≡ Received.NotYet → Rose (waits self.old) (waits self.new) }
        ensures moved { result ≢ Received.NotYet → waits self.new ≡ waits self.old };

    /// Closes the exchange. Neither count changes.
    fn close(&mut self, exchange: u64)
        requires { IfSome (log self.old) (λ log. IsOpen log exchange) }
        ensures log { WhereTold (log self.old) (log self.new) (Changes exchange with_closed) }
        ensures faults { faults self.new ≡ faults self.old }
        ensures waits { waits self.new ≡ waits self.old };
}

impl<L: Link> Link for &mut L {
    ghost log = { λ l. L.log l.now };

    ghost faults = { λ l. L.faults l.now };

    ghost waits = { λ l. L.waits l.now };

    fn open(&mut self, address: &str) -> Opening {
        (**self).open(address)
    }

    fn send(&mut self, exchange: u64, piece: &[u8]) -> Sent {
        (**self).send(exchange, piece)
    }

    fn recv(&mut self, exchange: u64, into: &mut [u8]) -> Received {
        (**self).recv(exchange, into)
    }

    fn close(&mut self, exchange: u64) {
        (**self).close(exchange)
    }
}
