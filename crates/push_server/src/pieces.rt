ghost use Rattle.std.specs.Prelude.{◌≡◌, ◌≢◌, ◌≤◌, ◌<◌, length, vec_len, IfOk};
ghost use Rattle.mx_outside.specs.Outside.{IsGiven, GivesBytes};
ghost use Rattle.mx_outside.specs.Told.{WhereTold, Rose};
ghost use Rattle.push_server.specs.Transfers.{largest_piece, IsPieceWithin};

use mx_json::OutOfMemory;
use mx_outside::{Got, Source};
use std::alloc::Global;

/// The most bytes that one read asks for.
const PIECE: usize = 65_536;

/// A buffer for one piece of the input.
pub fn piece_buffer(alloc: Global) -> Result<Vec<u8>, OutOfMemory>
    ensures some { IfOk result (λ buffer. 0 < vec_len buffer) }
    ensures small { IfOk result (λ buffer. vec_len buffer ≤ largest_piece) }
{
    Ok(Vec::from_elem(alloc, 0, PIECE)?)
}

/// Reads the next piece of the input:
/// at most as many bytes as are left of the limit, and at most 65,536.
pub fn read_piece<S: Source>(source: &mut S, buffer: &mut [u8], left_of_limit: u64) -> Got
    requires some { 0 < length buffer.old }
    requires small { length buffer.old ≤ largest_piece }
    requires below { 0 < left_of_limit }
    ensures given { IsGiven result (length buffer.new) }
    ensures within { IsPieceWithin result left_of_limit }
    ensures small { IsPieceWithin result largest_piece }
    ensures bytes { WhereTold (S.left source.old) (S.left source.new)
        (GivesBytes result buffer.new) }
    ensures count { S.faults source.old ≤ S.faults source.new }
    ensures fault { result ≡ Got.Failed → Rose (S.faults source.old) (S.faults source.new) }
    ensures steady { result ≢ Got.Failed → S.faults source.new ≡ S.faults source.old }
{
    let most = left_of_limit.min(buffer.len() as u64) as usize;
    source.read(&mut buffer[..most])
}
