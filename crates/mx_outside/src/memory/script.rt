ghost use Rattle.std.specs.Prelude.{◌≡◌, ◌<◌, ◌≤◌, ℕ, Some, false, true, [], length, drop};
ghost use Rattle.mx_outside.specs.Script.{unscripted, steps_of, next_of, step_for, next_bytes};
ghost use Rattle.mx_outside.specs.Script.{with_bytes};

use std::alloc::Global;
use std::marker::Model;

/// What comes next of the other side of an exchange.
#[derive(Clone, Copy, Debug, PartialEq, Eq)]
pub enum LinkStep {
    /// So many of the script's bytes, or as many as are left. None count as a wait.
    Bytes(usize),
    /// Nothing can be moved yet.
    Wait,
    /// The other side ends.
    End,
    /// The link fails.
    Fail,
}

/// How an exchange of a [`ScriptLink`](crate::ScriptLink) goes.
#[derive(Drop)]
pub struct Script {
    fails: bool,
    bytes: Vec<u8>,
    given: usize,
    steps: Vec<LinkStep>,
    used: usize,
}

impl Model for Script {
    ghost use Rattle.std.specs.Prelude.{◌≤◌, vec_len, drop};
    ghost use Rattle.mx_outside.specs.Script.{Play, steps_of};

    ghost Value = { Play };

    ghost view = { λ s. record {
      fails = s.fails;
      steps = steps_of (drop s.used s.steps.items) (drop s.given s.bytes.items);
    } };

    ghost invariant = { λ s. (s.used ≤ vec_len s.steps) × (s.given ≤ vec_len s.bytes) };
}

impl Script {
    /// An exchange that is opened and goes in these steps, to which `bytes` are given out one
    /// after another.
    pub fn new(bytes: Vec<u8>, steps: Vec<LinkStep>) -> Script
        ensures { result ≡ record { fails = false; steps = steps_of steps.items bytes.items } }
    {
        Script {
            fails: false,
            bytes,
            given: 0,
            steps,
            used: 0,
        }
    }

    /// An exchange whose opening fails.
    pub fn failing(alloc: Global) -> Script
        ensures { result ≡ record { fails = true; steps = [] } }
    {
        Script {
            fails: true,
            bytes: Vec::new(alloc),
            given: 0,
            steps: Vec::new(alloc),
            used: 0,
        }
    }

    /// An exchange that is opened, takes all that is sent and waits.
    pub(crate) fn unscripted(alloc: Global) -> Script
        ensures { result ≡ unscripted }
    {
        Script::new(Vec::new(alloc), Vec::new(alloc))
    }

    /// Whether the opening fails.
    pub(crate) fn fails(&self) -> bool
        ensures { result ≡ self.now.fails }
    {
        self.fails
    }

    /// What comes next, with the number of bytes that do; `None` past the last step.
    pub(crate) fn next(&self) -> Option<LinkStep>
        ensures next { result ≡ next_of self.now.steps }
        ensures some { (count : ℕ) → result ≡ Some (LinkStep.Bytes count)
            → 0 < length (next_bytes self.now.steps) }
    {
        if self.used == self.steps.len() {
            return None;
        }
        match self.steps[self.used] {
            LinkStep::Bytes(count) => Some(bytes_or_wait(count.min(self.bytes.len() - self.given))),
            step => Some(step),
        }
    }

    /// The bytes that come next, where bytes do.
    pub(crate) fn next_bytes(&self) -> &[u8]
        ensures { result.now ≡ next_bytes self.now.steps }
    {
        if self.used == self.steps.len() {
            return &[];
        }
        match self.steps[self.used] {
            LinkStep::Bytes(count) => {
                let left = &self.bytes[self.given..];
                &left[..count.min(left.len())]
            }
            _ => &[],
        }
    }

    /// Uses up the next step, which doesn't give bytes.
    pub(crate) fn use_up(&mut self)
        requires some { 0 < length self.old.steps }
        requires no_bytes { next_bytes self.old.steps ≡ [] }
        ensures { self.new ≡ record self.old { steps = drop 1 self.old.steps } }
    {
        self.used += 1;
    }

    /// Uses up so many of the bytes that come next.
    pub(crate) fn use_bytes(&mut self, count: usize)
        requires some { 0 < count }
        requires within { count ≤ length (next_bytes self.old.steps) }
        ensures { self.new ≡ record self.old {
          steps = with_bytes (drop count (next_bytes self.old.steps)) (drop 1 self.old.steps);
        } }
    {
        if let LinkStep::Bytes(planned) = self.steps[self.used] {
            let available = planned.min(self.bytes.len() - self.given);
            self.given += count;
            if count == available {
                self.used += 1;
            } else {
                self.steps[self.used] = LinkStep::Bytes(planned - count);
            }
        }
    }
}

/// So many bytes, or a wait where they are none.
fn bytes_or_wait(count: usize) -> LinkStep
    ensures { result ≡ step_for count }
{
    if count == 0 {
        LinkStep::Wait
    } else {
        LinkStep::Bytes(count)
    }
}
