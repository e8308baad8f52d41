//! Tests of the whole front end: from sources to typed trees.
#![tactic(auto)]

#[cfg(test)]
mod bad_tokens;
#[cfg(test)]
mod causes;
#[cfg(test)]
mod choices;
#[cfg(test)]
mod programs;
