//! Tests of what a round is made of: the pending chunks, the verdicts, the book, and what is committed.
#![tactic(auto)]

#[cfg(test)]
mod commits;
#[cfg(test)]
mod lanes;
#[cfg(test)]
mod pieces;
#[cfg(test)]
mod plans;
#[cfg(test)]
mod rules;
#[cfg(test)]
mod verdicts;
