//! Tests of views over both stores, beside those of the plain interpreter.
#![tactic(auto)]

#[cfg(test)]
mod calls;
#[cfg(test)]
mod chunks;
