//! Laws of what bytes hold, which make an ending of an exchange exact.
ghost use Rattle.mx_wire.specs.Laws.{OneOutcome, RefusesExactly, SettledStays};
ghost use Rattle.mx_wire.specs.Bodies.{size_line, crlf, trailer};
ghost use Rattle.mx_wire.specs.declared.line.InLine.TheVariants.{Start};
ghost use Rattle.mx_wire.specs.ChunkWords.{ChunksAreRead, ChunksAreSpelled};
ghost use Rattle.mx_wire.specs.Spelling.{BlocksAreRead, BlocksAreSpelled};

/// Bytes hold one thing at most: a whole reply, what no further bytes make one, or neither yet.
pub fn one_outcome()
    ensures { OneOutcome }
{}

/// A whole reply stays whole, with the same status and body, and what is no reply stays none,
/// whatever comes behind the bytes.
pub fn settled_stays()
    ensures { SettledStays }
{}

/// Blocks are read: each block, whatever comes behind it.
pub fn blocks_are_read()
    ensures { BlocksAreRead }
{}

/// Nothing else is read as a block: what is read as one is a block, and stands at the front.
pub fn blocks_are_spelled()
    ensures { BlocksAreSpelled }
{}

/// Bodies in chunks are read: each of them, whatever comes behind it.
pub fn chunks_are_read()
    ensures { ChunksAreRead }
{}

/// Nothing else is read as a body in chunks: what is read as one is one, and stands at the front.
pub fn chunks_are_spelled()
    ensures { ChunksAreSpelled }
{}

/// A size line, the CR LF behind a chunk and a trailer are refused exactly where no further bytes
/// make one.
pub fn refused_exactly()
    ensures size_line { RefusesExactly size_line }
    ensures crlf { RefusesExactly crlf }
    ensures trailer { RefusesExactly (trailer Start) }
{}
