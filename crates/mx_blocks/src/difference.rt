ghost use Rattle.std.specs.Prelude.{◌≡◌, ◌<◌, ◌≤◌, ◌^◌, [], ◌∷◌, ◌++◌, drop, length, OnOk};
ghost use Rattle.mx_blocks.specs.Differences.{differences, IsPacked, IsFirstBelow};

use mx_json::OutOfMemory;

/// Appends a number in groups of seven bits, the lowest group first.
pub fn push_difference(out: &mut Vec<u8>, difference: u64) -> Result<(), OutOfMemory>
    requires { IsPacked out.old.items }
    ensures packed { OnOk result (IsPacked out.new.items) }
    ensures reads { OnOk result
        (differences out.new.items ≡ differences out.old.items ++ difference ∷ []) }
{
    let mut rest = difference;
    while rest >= 128 {
        out.push((rest % 128) as u8 + 128)?;
        rest /= 128;
    }
    out.push(rest as u8)?;
    Ok(())
}

/// The number that begins at the place, and the place behind it.
pub fn read_difference(bytes: &[u8], at: usize) -> (u64, usize)
    requires packed { IsPacked (drop at bytes.now) }
    requires some { at < length bytes.now }
    requires small { IsFirstBelow (2 ^ 64) (differences (drop at bytes.now)) }
    ensures within { result.1 ≤ length bytes.now }
    ensures later { at < result.1 }
    ensures packed { IsPacked (drop result.1 bytes.now) }
    ensures reads { differences (drop at bytes.now)
        ≡ result.0 ∷ differences (drop result.1 bytes.now) }
{
    let byte = bytes[at];
    if byte < 128 {
        return (u64::from(byte), at + 1);
    }
    let (higher, next) = read_difference(bytes, at + 1);
    (u64::from(byte - 128) + 128 * higher, next)
}
