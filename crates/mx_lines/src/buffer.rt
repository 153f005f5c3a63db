ghost use Rattle.std.specs.Prelude.{◌≡◌, ◌↔◌, ◌≤◌, ◌++◌, [], Some, IfOk, IsTrue, vec_len};
ghost use Rattle.std.specs.Prelude.{vec_capacity};
ghost use Rattle.std.specs.Borrow.{sem};
ghost use Rattle.mx_lines.specs.Buffers.{kept_in, Shows};
ghost use Rattle.mx_lines.specs.Cutting.{longest_line, kept_of, kept_with};

use crate::cut::{Cut, LONGEST_LINE};
use mx_json::OutOfMemory;
use std::alloc::Global;
use std::marker::Model;

/// What the bytes in a buffer are.
#[derive(Clone, Copy)]
enum Content {
    /// The line, as far as it came.
    Part,
    /// Of no use, since the line has too many.
    TooMuch,
    /// The line that was given last; no byte of the next one came.
    Given,
}

/// The bytes of one line, while they are at most `LONGEST_LINE`.
#[derive(Drop)]
pub(crate) struct LineBuffer {
    bytes: Vec<u8>,
    content: Content,
}

impl Model for LineBuffer {
    ghost use Rattle.std.specs.Prelude.{ℕ, List, Option, ◌≤◌, vec_len, vec_capacity};
    ghost use Rattle.mx_lines.specs.Buffers.{kept_in};
    ghost use Rattle.mx_lines.specs.Cutting.{longest_line};

    ghost Value = { Option (List ℕ) };

    ghost view = { λ b. kept_in b.content b.bytes.items };

    ghost invariant = { λ b. (vec_len b.bytes ≤ longest_line)
        × (longest_line ≤ vec_capacity b.bytes) };
}

impl LineBuffer {
    ghost use Rattle.mx_lines.specs.Resting.{KeepsNothing};
    ghost use Rattle.mx_lines.specs.Cutting.{IsShort};

    pub(crate) fn new(alloc: Global) -> Result<LineBuffer, OutOfMemory>
        ensures { IfOk result (λ buffer. buffer ≡ Some []) }
    {
        Ok(LineBuffer {
            bytes: Vec::with_capacity(alloc, LONGEST_LINE)?,
            content: Content::Part,
        })
    }

    /// Puts more bytes at the end, or drops all where they are too many.
    pub(crate) fn append(&mut self, more: &[u8])
        ensures { self.new ≡ kept_with self.old more.now }
    {
        match self.content {
            Content::Part => self.content = append_within(&mut self.bytes, more),
            Content::TooMuch => {}
            Content::Given => {
                self.bytes.clear();
                self.content = append_within(&mut self.bytes, more);
            }
        }
    }

    /// Whether no byte of the line came.
    pub(crate) fn is_empty(&self) -> bool
        ensures { IsTrue result ↔ (self.now ≡ Some []) }
    {
        match self.content {
            Content::Part => self.bytes.is_empty(),
            Content::TooMuch => false,
            Content::Given => true,
        }
    }

    /// Gives the line, so that the next one begins.
    pub(crate) fn give(&mut self) -> Cut<'_>
        ensures* after { sem 𝓛 (KeepsNothing self.entry) }
        ensures shows { Shows result self.old }
        ensures short { IsShort result }
    {
        match self.content {
            Content::Part => {
                self.content = Content::Given;
                Cut::Line(&self.bytes)
            }
            Content::TooMuch => {
                self.content = Content::Given;
                Cut::TooLong
            }
            Content::Given => Cut::Line(&[]),
        }
    }
}

/// Puts more bytes at the end, unless they are then too many for a line.
fn append_within(bytes: &mut Vec<u8>, more: &[u8]) -> Content
    requires fits { vec_len bytes.old ≤ longest_line }
    requires capacity { longest_line ≤ vec_capacity bytes.old }
    ensures fits { vec_len bytes.new ≤ longest_line }
    ensures capacity { longest_line ≤ vec_capacity bytes.new }
    ensures kept { kept_in result bytes.new.items ≡ kept_of (bytes.old.items ++ more.now) }
{
    if more.len() > LONGEST_LINE - bytes.len() {
        return Content::TooMuch;
    }
    bytes.extend_from_slice(more).unwrap();
    Content::Part
}
