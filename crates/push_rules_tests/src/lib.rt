//! Tests of the crates of the push rules, from `mx_json` to `mx_defaults`, over what they make
//! public. They stand here so that no crate is proved once more with its tests.
#![tactic(auto)]

#[cfg(test)]
mod conditions;
#[cfg(test)]
mod deciding;
#[cfg(test)]
mod events;
#[cfg(test)]
mod fixtures;
#[cfg(test)]
mod folding;
#[cfg(test)]
mod globs;
#[cfg(test)]
mod ids;
#[cfg(test)]
mod paths;
#[cfg(test)]
mod rules;
#[cfg(test)]
mod texts;
#[cfg(test)]
mod values;
