//! Tests of stores, and of the values, sets and planes that stores and views are made of.
#![tactic(auto)]

#[cfg(test)]
mod map_store;
#[cfg(test)]
mod masks;
#[cfg(test)]
mod packed;
#[cfg(test)]
mod planes;
#[cfg(test)]
mod sets;
#[cfg(test)]
mod sizes;
#[cfg(test)]
mod words;
