//! Tests of `mx_store`, over what it makes public. They stand here so that it isn't proved once
//! more with its tests.
#![tactic(auto)]

#[cfg(test)]
mod counts;
#[cfg(test)]
mod fixtures;
#[cfg(test)]
mod images;
#[cfg(test)]
mod stops;
#[cfg(test)]
mod stores;
