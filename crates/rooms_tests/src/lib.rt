//! Tests of `mx_room` and `mx_judge`, over what they make public: one table of rooms, and one of
//! events that are judged in them.
#![tactic(auto)]

#[cfg(test)]
mod fixtures;
#[cfg(test)]
mod judged;
#[cfg(test)]
mod rooms;
