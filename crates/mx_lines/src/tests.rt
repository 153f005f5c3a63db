ghost use Rattle.std.specs.Prelude.{◌≡◌, false};

use super::{Cut, LineCutter};
use mx_json::OutOfMemory;
use std::alloc::Global;
use std::test::Fail;

/// Bytes as runs of one byte each.
type Runs = &'static [(u8, usize)];

const LF: (u8, usize) = (b'\n', 1);

/// What stands for a line that is too long.
const LONG: (u8, usize) = (b'!', 1);

/// What ends a last line without a line feed.
const LAST: (u8, usize) = (b'$', 1);

fn bytes_of(alloc: Global, runs: Runs) -> Result<Vec<u8>, OutOfMemory> {
    let mut bytes = Vec::new(alloc);
    for (byte, count) in runs {
        for _ in 0..*count {
            bytes.push(*byte)?;
        }
    }
    Ok(bytes)
}

/// Writes a cut as its bytes and this end.
fn write_cut(cut: Cut, end: u8, out: &mut Vec<u8>) -> Result<(), OutOfMemory> {
    match cut {
        Cut::Line(line) => out.extend_from_slice(line)?,
        Cut::TooLong => out.push(LONG.0)?,
        Cut::More => return Ok(()),
    }
    out.push(end)?;
    Ok(())
}

fn cut_piece(cutter: &mut LineCutter, piece: &[u8], out: &mut Vec<u8>) -> Result<(), OutOfMemory>
    requires { cutter.old.ended ≡ false }
    ensures { cutter.new.ended ≡ false }
{
    let mut at = 0;
    while at < piece.len() {
        at += cutter.feed(&piece[at..]);
        write_cut(cutter.next(), LF.0, out)?;
    }
    Ok(())
}

/// The lines of these bytes, fed in pieces of this size.
fn cut_all(alloc: Global, bytes: &[u8], size: usize) -> Result<Vec<u8>, OutOfMemory> {
    let mut cutter = LineCutter::new(alloc)?;
    let mut out = Vec::new(alloc);
    for piece in bytes.chunks(size.max(1)) {
        cut_piece(&mut cutter, piece, &mut out)?;
    }
    write_cut(cutter.finish(), LAST.0, &mut out)?;
    Ok(out)
}

#[test]
fn lines_are_the_same_in_any_pieces(rt: HostRuntime) -> Result<(), Fail> {
    #[rattlefmt::skip]
    let cases: [(&str, Runs, Runs); 9] = [
        ("no bytes", &[], &[]),
        ("a last line", &[(b'a', 1), LF, (b'b', 2)], &[(b'a', 1), LF, (b'b', 2), LAST]),
        ("empty lines", &[LF, LF, (b'a', 1), LF, LF], &[LF, LF, (b'a', 1), LF, LF]),
        ("a CR", &[(b'a', 1), (b'\r', 1), LF], &[(b'a', 1), (b'\r', 1), LF]),
        ("a longest line", &[(b'a', 131_072), LF, (b'b', 3), LF], &[(b'a', 131_072), LF, (b'b', 3), LF]),
        ("a long line", &[(b'a', 131_073), LF, (b'b', 3), LF], &[LONG, LF, (b'b', 3), LF]),
        ("two long lines", &[(b'a', 131_073), LF, (b'b', 300_000), LF, LF], &[LONG, LF, LONG, LF, LF]),
        ("a longest last line", &[LF, (b'a', 131_072)], &[LF, (b'a', 131_072), LAST]),
        ("a long last line", &[(b'a', 1), LF, (b'b', 131_073)], &[(b'a', 1), LF, LONG, LAST]),
    ];
    for (name, input, lines) in cases {
        let bytes = bytes_of(rt.alloc(), input)?;
        let expected = bytes_of(rt.alloc(), lines)?;
        for size in [1, 65_536, 131_073] {
            let given = cut_all(rt.alloc(), &bytes, size)?;
            assert!(rt;
                given.as_slice() == expected.as_slice(),
                "{name}, in pieces of {size}"
            );
        }
    }
    Ok(())
}
