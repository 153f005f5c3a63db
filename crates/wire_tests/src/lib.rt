//! Tests of the exchange of `mx_wire` over the link in memory of `mx_outside`, over what they make
//! public. They stand here so that neither crate is proved once more with its tests.
#![tactic(auto)]

#[cfg(test)]
mod exchanges;
#[cfg(test)]
mod fixtures;
#[cfg(test)]
mod one_byte_link;
#[cfg(test)]
mod replies;
