//! Tests of the front end as a whole, from sources to trees, and of its parts.
#![tactic(auto)]

#[cfg(test)]
mod cuts;
#[cfg(test)]
mod first_bad;
#[cfg(test)]
mod lexing;
#[cfg(test)]
mod read_back;
#[cfg(test)]
mod sources;
#[cfg(test)]
mod tests;
