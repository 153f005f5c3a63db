ghost use Rattle.std.specs.Prelude.{◌≡◌, ◌≤◌, OnOk, OnErr};
ghost use Rattle.mx_outside.specs.Told.{WhereTold, Rose};
ghost use Rattle.push_server.specs.Transfers.{WritesText};

use mx_outside::{Failed, Put, Sink};

/// Writes the whole text. What the sink didn't take is offered again.
pub fn write_all<K: Sink>(sink: &mut K, text: &[u8]) -> Result<(), Failed>
    ensures bytes { WhereTold (K.taken sink.old) (K.taken sink.new) (WritesText result text.now) }
    ensures count { K.faults sink.old ≤ K.faults sink.new }
    ensures steady { OnOk result (K.faults sink.new ≡ K.faults sink.old) }
    ensures fault { OnErr result (Rose (K.faults sink.old) (K.faults sink.new)) }
{
    let mut at = 0;
    while at < text.len() {
        match sink.write(&text[at..]) {
            Put::Moved(count) => at += count,
            Put::Failed => return Err(Failed),
        }
    }
    Ok(())
}
