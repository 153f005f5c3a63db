mod about_journals;
mod edited;
mod edits;
mod files;
mod fixtures;
mod full;
mod journals;
mod receipts;
mod refusals;
mod rooms;
mod serving;
mod spellings;
mod watching;

use crate::writing::write_all;
use mx_outside::VecSink;
use std::alloc::Global;
use std::process::Abort;

#[test]
fn a_text_is_written_whole(rt: HostRuntime) {
    assert!(rt; are_written_whole(&rt, rt.alloc(), [b"abc", b"", b"de"], b"abcde"));
}

/// Whether these texts come out as these bytes, each in one call at the most.
fn are_written_whole(rt: &impl Abort, alloc: Global, texts: [&[u8]; 3], bytes: &[u8]) -> bool {
    let mut sink = VecSink::new(alloc, 8, 2).expect(rt, "a sink");
    for text in texts {
        if write_all(&mut sink, text).is_err() {
            return false;
        }
    }
    sink.taken() == bytes
}
