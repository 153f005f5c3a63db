//! Values in memory that meet the traits of the outside, for tests and benches: what they give is
//! given to them, what they take can be read back, and where they fail is listed.

mod bytes_source;
mod disk_image;
mod disk_log;
mod failing;
mod failing_disk;
mod fill;
mod list_clock;
mod memory_disk;
mod opened;
mod repeat_source;
mod script;
mod script_link;
mod vec_sink;

pub use bytes_source::BytesSource;
pub use failing::{FailingSink, FailingSource};
pub use failing_disk::FailingDisk;
pub use fill::Fill;
pub use list_clock::ListClock;
pub use memory_disk::MemoryDisk;
pub use repeat_source::RepeatSource;
pub use script::{LinkStep, Script};
pub use script_link::ScriptLink;
pub use vec_sink::VecSink;
