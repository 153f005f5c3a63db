//! The state of a room, as far as push rules ask for it: its members with their display names, its
//! power levels and its creator. And the rooms of one homeserver, each with its joined local users.
//!
//! A room is seen as what the list of its events says, the last event of each type and state key.
//! An event is prepared, which takes all memory, then applied, which can't fail; in between a view
//! shows the state after it. [`Rooms`] does so for events of any room.
#![tactic(auto)]

mod hosted;
mod local_members;
mod member;
mod plan;
mod room;
mod rooms;
mod rooms_plan;
mod view;

pub use plan::RoomPlan;
pub use room::Room;
pub use rooms::Rooms;
pub use rooms_plan::RoomsPlan;
pub use view::RoomView;
