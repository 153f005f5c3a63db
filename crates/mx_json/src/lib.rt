//! JSON as the rest of push_server sees it: identifiers, values, the reading of a text, paths into
//! a value, its canonical text, and folded texts whose reads are counted.
//!
//! A value is plain data: contracts see a text as its bytes and a list as a list, and `≡` of two
//! values says that their trees are equal.
#![tactic(auto)]

mod canonical;
mod compared;
mod event_id;
mod folded;
mod id;
mod member;
mod memory;
mod meter;
mod nesting;
mod path;
mod reading;
mod room_id;
mod text;
mod user_id;
mod value;
mod whole;

pub use event_id::{EventId, is_event_id};
pub use folded::Folded;
pub use id::IdError;
pub use memory::OutOfMemory;
pub use meter::Meter;
pub use path::Path;
pub use reading::JsonError;
pub use room_id::{RoomId, is_room_id};
pub use text::JsonText;
pub use user_id::{UserId, is_user_id};
pub use value::{Json, JsonList, JsonObject};
