//! Tests of `mx_rows` and `mx_thread`, over what they make public. They stand here so that neither
//! crate is proved once more with its tests.
#![tactic(auto)]

#[cfg(test)]
mod fixtures;
#[cfg(test)]
mod rows;
#[cfg(test)]
mod threads;
