//! Tests of `mx_blocks`, over what it makes public. They stand here so that it isn't proved once
//! more with its tests.
#![tactic(auto)]

#[cfg(test)]
mod blocks;
