//! Makes random calls of stores, sets and maps of addresses, and compares with those of the standard library. The first
//! word is how many sequences of each there are.
#![tactic(auto)]

mod maps;
mod numbers;
mod sets;
mod stores;

use al_heap::MapStore;
use al_pages::PageStore;
use anyhow::Error;
use numbers::Numbers;
use std::alloc::{AllocError, Global};
use std::env;

/// Whether one sequence of each kind agrees.
fn agree(alloc: Global, seed: u64) -> Result<bool, AllocError> {
    let mut numbers = Numbers::of(seed);
    Ok(
        stores::agree(alloc, &mut MapStore::new(alloc), &mut numbers)?
            && stores::agree(alloc, &mut PageStore::new(alloc), &mut numbers)?
            && sets::agree(alloc, &mut numbers)?
            && maps::agree(alloc, &mut numbers)?,
    )
}

fn main(rt: HostRuntime) -> Result<(), Error> {
    let many = match env::args(&rt)?.nth(1) {
        Some(word) => word.as_str().parse::<u64>().unwrap_or(0),
        None => 0,
    };
    let mut differ = 0u64;
    for seed in 0..many {
        if !agree(rt.alloc(), seed)? {
            println!(rt; "sequence {seed} differs")?;
            differ = differ.wrapping_add(1);
        }
    }
    println!(rt; "{many} sequences, {differ} differ")?;
    Ok(())
}
