//! The numbers of the format: a header, and records that are each a gate, a length and a payload.

/// The bytes that each journal begins with.
pub(crate) const HEADER: [u8; 16] = *b"MXPUSHJ1\x01\0\0\0\0\0\0\0";

/// The journal of no payload: the header and a closed gate.
pub(crate) const EMPTY_JOURNAL: [u8; 17] = *b"MXPUSHJ1\x01\0\0\0\0\0\0\0\0";

/// The gate of a record that counts.
pub(crate) const OPEN_GATE: u8 = 1;

/// The closed gate that is written.
pub(crate) const CLOSED_GATE: u8 = 0;

/// The most bytes that a payload has.
pub(crate) const PAYLOAD_LIMIT: u32 = 262_144;
