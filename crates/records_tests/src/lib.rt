#![tactic(auto)]

#[cfg(test)]
mod long;
#[cfg(test)]
mod payloads;
