//! Tests of `alter` with gates that hold chunks.
#![tactic(auto)]

#[cfg(test)]
mod gates;
