//! Runs one sequence of loads and stores over views of a page store, to see what each costs.
#![tactic(auto)]

use al_core::{Addr, Ending, Kind, Obj, Val, View, ViewFault};
use al_heap::Store;
use al_pages::PageStore;
use al_snap::{Direct, Names, Snap};
use al_values::{PackedValue, Words};
use anyhow::Error;
use std::alloc::{AllocError, Global};
use std::env;

// The words of the two objects.
const WORDS: u32 = 4096;

// The loads and stores of a chunk, and how many chunks there are.
const STEPS: u32 = 4096;

const CHUNKS: u32 = 500;

// The chunks that do nothing.
const EMPTY: u32 = 100_000;

fn store(alloc: Global) -> Result<PageStore, AllocError> {
    let mut store = PageStore::new(alloc);
    for obj in [Obj::Global(0), Obj::Global(1)] {
        store.prepare(obj)?;
        store.add(obj, Words::zeros(alloc, WORDS)?);
    }
    Ok(store)
}

/// A fault as want of memory. No load or store of these programs traps.
fn memory(_fault: ViewFault) -> AllocError {
    AllocError
}

/// Adds words of the first object up in a word of the second: three accesses a step.
fn sums<V: View>(view: &mut V, chunk: u32) -> Result<(), ViewFault> {
    let to = Addr::Word(Obj::Global(1), chunk % WORDS);
    for i in 0..STEPS {
        let from = Addr::Word(Obj::Global(0), i.wrapping_mul(7) % WORDS);
        let (a, b) = (view.load(from, Kind::Int)?, view.load(to, Kind::Int)?);
        view.store(to, plus(a, b))?;
    }
    Ok(())
}

/// Copies words of the first object into the second, each plus one: two accesses a step.
fn copies<V: View>(view: &mut V, chunk: u32) -> Result<(), ViewFault> {
    for i in 0..STEPS {
        let k = i.wrapping_add(chunk) % WORDS;
        let v = view.load(Addr::Word(Obj::Global(0), k), Kind::Int)?;
        view.store(Addr::Word(Obj::Global(1), k), plus(v, Val::Int(1)))?;
    }
    Ok(())
}

fn plus(a: Val, b: Val) -> Val {
    match (a, b) {
        (Val::Int(a), Val::Int(b)) => Val::Int(a.wrapping_add(b)),
        _ => a,
    }
}

fn chunk<V: View>(view: &mut V, word: &str, chunk: u32) -> Result<(), AllocError> {
    if word.starts_with("sums") {
        sums(view, chunk).map_err(memory)
    } else {
        copies(view, chunk).map_err(memory)
    }
}

fn in_chunks(alloc: Global, word: &str) -> Result<u64, AllocError> {
    let store = store(alloc)?;
    let mut touched = 0u64;
    for c in 0..CHUNKS {
        let mut snap = Snap::begin(alloc, &store, Names::iteration(0, u64::from(c)), &[])?;
        chunk(&mut snap, word, c)?;
        let change = snap.into_change(Ending::Done, u64::from(STEPS));
        touched = touched.wrapping_add(change.touched.size() as u64);
    }
    Ok(touched)
}

fn directly(alloc: Global, word: &str) -> Result<u64, AllocError> {
    let mut direct = Direct::begin(alloc, store(alloc)?, Names::outer());
    for c in 0..CHUNKS {
        chunk(&mut direct, word, c)?;
    }
    let (store, _names, _printed) = direct.finish();
    Ok(u64::from(store.length(Obj::Global(1)).unwrap_or(0)))
}

fn empty(alloc: Global) -> Result<u64, AllocError> {
    let store = store(alloc)?;
    let mut steps = 0u64;
    for c in 0..EMPTY {
        let snap = Snap::begin(alloc, &store, Names::iteration(0, u64::from(c)), &[])?;
        steps = steps.wrapping_add(snap.into_change(Ending::Done, 1).steps);
    }
    Ok(steps)
}

/// For each word, what it says: `sums` or `copies`, 500 chunks of 4,096 steps on the store itself; `sums-chunks` or
/// `copies-chunks`, the same in chunks; `empty`, 100,000 chunks that do nothing. Another word counts as `copies`.
fn main(rt: HostRuntime) -> Result<(), Error> {
    for word in env::args(&rt)?.skip(1) {
        let word = word.as_str();
        let n = if word == "empty" {
            empty(rt.alloc())?
        } else if word.ends_with("chunks") {
            in_chunks(rt.alloc(), word)?
        } else {
            directly(rt.alloc(), word)?
        };
        println!(rt; "{word} {n}")?;
    }
    Ok(())
}
