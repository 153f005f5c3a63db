ghost use Rattle.std.specs.Prelude.{◌≡◌, ℕ, ◌<◌, ◌≤◌, false, List, [], ◌++◌, length, take, IfOk};
ghost use Rattle.std.specs.Borrow.{sem};

use crate::buffer::LineBuffer;
use crate::cut::Cut;
use memchr::memchr;
use mx_json::OutOfMemory;
use std::alloc::Global;
use std::marker::Model;

/// Cuts bytes that come in pieces into lines.
///
/// Feed it a piece, take what [`next`](LineCutter::next) gives, and feed the rest of the piece;
/// at the end of the bytes, [`finish`](LineCutter::finish) gives a last line without a line
/// feed. What comes before a line feed is the line as it stands, a CR too.
#[derive(Drop)]
pub struct LineCutter {
    line: LineBuffer,
    has_ended: bool,
}

impl Model for LineCutter {
    ghost use Rattle.mx_lines.specs.Cutting.{Held};

    ghost Value = { Held };

    ghost view = { λ c. record { kept = c.line; ended = c.has_ended } };
}

impl LineCutter {
    ghost use Rattle.mx_lines.specs.Cutting.{nothing_held, taken_count, after_feed, CutsNext};
    ghost use Rattle.mx_lines.specs.Cutting.{CutsLast, IsShort};
    ghost use Rattle.mx_lines.specs.Cutting.{HasGiven, IsNextLine, IsLastLine};
    ghost use Rattle.mx_lines.specs.Lines.{lines_of};
    ghost use Rattle.mx_lines.specs.Resting.{HoldsTheRest, HoldsNothing};

    /// A cutter that was fed nothing, with the memory of one longest line.
    pub fn new(alloc: Global) -> Result<LineCutter, OutOfMemory>
        ensures empty { IfOk result (λ cutter. cutter ≡ nothing_held) }
        ensures lines { IfOk result (λ cutter. HasGiven cutter (lines_of []) 0) }
    {
        Ok(LineCutter {
            line: LineBuffer::new(alloc)?,
            has_ended: false,
        })
    }

    /// Takes bytes from the front of the piece, and answers how many: up to and with the first
    /// line feed, or all where it has none. Takes none while an ended line waits for
    /// [`next`](LineCutter::next).
    pub fn feed(&mut self, piece: &[u8]) -> usize
        ensures takes { result ≡ taken_count self.old piece.now }
        ensures within { result ≤ length piece.now }
        ensures some { self.old.ended ≡ false → 0 < length piece.now → 0 < result }
        ensures holds { self.new ≡ after_feed self.old piece.now }
        ensures lines { (bytes : List ℕ) (count : ℕ) → HasGiven self.old (lines_of bytes) count
            → HasGiven self.new (lines_of (bytes ++ take result piece.now)) count }
    {
        if self.has_ended {
            return 0;
        }
        match memchr(b'\n', piece) {
            Some(end) => {
                self.line.append(&piece[..end]);
                self.has_ended = true;
                end + 1
            }
            None => {
                self.line.append(piece);
                piece.len()
            }
        }
    }

    /// The line that ended, `TooLong` where it has more than
    /// [`LONGEST_LINE`](crate::LONGEST_LINE) bytes; `More` where no line ended since the last
    /// one that was given.
    pub fn next(&mut self) -> Cut<'_>
        ensures* after { sem 𝓛 (HoldsTheRest self.entry result) }
        ensures cut { CutsNext result self.old }
        ensures short { IsShort result }
        ensures lines { (bytes : List ℕ) (count : ℕ) → HasGiven self.old (lines_of bytes) count
            → IsNextLine result (lines_of bytes).whole count }
    {
        if !self.has_ended {
            return Cut::More;
        }
        self.has_ended = false;
        self.line.give()
    }

    /// At the end of the bytes, the last line without its line feed, `TooLong` where it has more
    /// than [`LONGEST_LINE`](crate::LONGEST_LINE) bytes; `More` where it has none. The cutter
    /// then holds nothing.
    pub fn finish(&mut self) -> Cut<'_>
        requires { self.old.ended ≡ false }
        ensures* after { sem 𝓛 (HoldsNothing self.entry) }
        ensures cut { CutsLast result self.old }
        ensures short { IsShort result }
        ensures lines { (bytes : List ℕ) (count : ℕ) → HasGiven self.old (lines_of bytes) count
            → IsLastLine result (lines_of bytes).rest }
    {
        if self.line.is_empty() {
            Cut::More
        } else {
            self.line.give()
        }
    }
}
