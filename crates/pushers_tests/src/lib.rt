//! Tests of `mx_pusher`, of the targets of `mx_wire` and of `mx_post`, over what they make public.
//! They stand here so that none of these crates is proved once more with its tests.
#![tactic(auto)]

#[cfg(test)]
mod answers;
#[cfg(test)]
mod posts;
#[cfg(test)]
mod pushers;
#[cfg(test)]
mod targets;
