//! Tests of `mx_outside` and `mx_journal`, over what they make public. They stand here so that
//! neither crate is proved once more with its tests.
#![tactic(auto)]

#[cfg(test)]
mod commits;
#[cfg(test)]
mod disks;
#[cfg(test)]
mod fixtures;
#[cfg(test)]
mod journals;
#[cfg(test)]
mod streams;
