ghost use Rattle.std.specs.Prelude.{◌+◌, ◌<◌, ◌^◌};
ghost use Rattle.mx_blocks.specs.Differences.{differences, IsPacked, positions, total};
ghost use Rattle.mx_blocks.specs.Walk.{IsSplit};

use crate::difference::read_difference;

/// Where a walk over the positions of a block stopped.
#[derive(Clone, Copy)]
pub struct Stop {
    /// How many positions it passed.
    pub passed: usize,
    /// The position after these, and 2^64 where there is none.
    pub next: u128,
}

/// Walks past the positions of a block that are at or below this one.
pub fn walk(first: u64, packed: &[u8], position: u64) -> Stop
    requires packed { IsPacked packed.now }
    requires small { first + total (differences packed.now) < 2 ^ 64 }
    ensures { IsSplit position result.passed result.next
        (positions first (differences packed.now)) }
{
    let mut last = first;
    let mut passed = 0;
    let mut at = 0;
    while last <= position {
        passed += 1;
        if at == packed.len() {
            return Stop {
                passed,
                next: 1 << 64,
            };
        }
        let (difference, behind) = read_difference(packed, at);
        last += difference;
        at = behind;
    }
    Stop {
        passed,
        next: u128::from(last),
    }
}
