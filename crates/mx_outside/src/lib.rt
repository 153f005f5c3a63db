//! What push_server stands on outside itself, as traits that say what may be relied on.
//!
//! A [`Source`] gives bytes and a [`Sink`] takes them. A [`Disk`] keeps bytes over a stop, a
//! [`Link`] exchanges bytes with other machines, and a [`Clock`] tells the time. Each optionally
//! tells to contracts what went through it, and all but the clock count their faults, so that a
//! call that answers `Failed` has a cause. A value of the real world tells nothing, and the values
//! in memory tell everything.
//!
//! The values in memory: [`BytesSource`] and [`RepeatSource`] give bytes, [`VecSink`] keeps them,
//! [`MemoryDisk`] keeps the images that a crash may leave (a [`Fill`] chooses one), [`ScriptLink`]
//! answers by a [`Script`] for each opening, and [`ListClock`] has its moments listed.
//! [`FailingSource`], [`FailingSink`] and [`FailingDisk`] wrap another value and fail in the calls
//! that are listed.
#![tactic(auto)]

mod clock;
mod disk;
mod fault;
mod link;
mod memory;
mod sink;
mod source;

pub use clock::Clock;
pub use disk::Disk;
pub use fault::Failed;
pub use link::{Link, Opening, Received, Sent};
pub use memory::{
    BytesSource, FailingDisk, FailingSink, FailingSource, Fill, LinkStep, ListClock, MemoryDisk,
    RepeatSource, Script, ScriptLink, VecSink,
};
pub use sink::{Put, Sink};
pub use source::{Got, Source};
