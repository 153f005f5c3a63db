ghost use Rattle.std.specs.Prelude.{length};
ghost use Rattle.mx_outside.specs.Outside.{IsMoved};

use mx_outside::{Put, Sink};
use std::io;
use std::io::Write;

/// A writer of the system as a sink: it counts its errors, and tells nothing of its bytes.
#[derive(Drop)]
pub struct StandardOutput<W> {
    writer: W,
    faults: u64,
}

impl<W: Write> StandardOutput<W> {
    pub fn new(writer: W) -> StandardOutput<W> {
        StandardOutput { writer, faults: 0 }
    }
}

impl<W: Write> Sink for StandardOutput<W> {
    ghost use Rattle.std.specs.Prelude.{None};
    ghost use Rattle.mx_outside.specs.Budget.{no_budget};

    ghost taken = { λ _. None };

    ghost faults = { λ output. output.faults };

    ghost budget = { λ _. no_budget };

    fn write(&mut self, piece: &[u8]) -> Put {
        let put = write_some(&mut self.writer, piece);
        if let Put::Failed = put {
            self.faults = self.faults.saturating_add(1);
        }
        put
    }
}

/// Writes once, and again where a signal came in between. A writer that takes nothing fails.
fn write_some<W: Write>(writer: &mut W, piece: &[u8]) -> Put
    ensures { IsMoved result (length piece.now) }
{
    for _ in 0..u64::MAX {
        match writer.write(piece) {
            Ok(0) => return Put::Failed,
            Ok(count) => return Put::Moved(count),
            Err(error) if error.kind() == io::ErrorKind::Interrupted => {}
            Err(_) => return Put::Failed,
        }
    }
    Put::Failed
}
