//! Tests of lowered code: from sources to instructions, and code that is not valid.
#![tactic(auto)]

#[cfg(test)]
mod broken;
#[cfg(test)]
mod listings;
pub mod lowered;
