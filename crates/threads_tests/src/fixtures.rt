use mx_json::EventId;
use mx_rows::ThreadKey;
use std::alloc::Global;
use std::process::Abort;

/// The thread of this name: that of the root with this id, or the main one.
pub fn thread(rt: &impl Abort, alloc: Global, name: &str) -> ThreadKey {
    if name == "main" {
        return ThreadKey::Main;
    }
    ThreadKey::Root(event_id(rt, alloc, name))
}

pub fn event_id(rt: &impl Abort, alloc: Global, text: &str) -> EventId {
    EventId::read(alloc, text).expect(rt, text)
}

/// The name of a thread, as `thread` reads it.
pub fn name(thread: &ThreadKey) -> &str {
    match thread {
        ThreadKey::Main => "main",
        ThreadKey::Root(id) => id.as_text(),
    }
}
