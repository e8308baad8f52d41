ghost use Rattle.std.specs.Prelude.{◌≡◌, OnOk};
ghost use Rattle.std.specs.Prelude as prelude;
ghost use Rattle.std.specs.FinMap as map;
ghost use Rattle.al_core.specs.Memory.{value_at};
ghost use Rattle.al_core.specs.Chunk as chunk;
ghost use Rattle.al_core.specs.Applied as spec;

use crate::addresses::Addresses;
use crate::memory::Memory;
use crate::names::Names;
use crate::outcomes::Outcome;
use al_core::{Obj, Red, Val, red_apply};
use sqlite_items::Items;
use std::alloc::{AllocError, Global};

/// Lays the written words over a memory.
fn lay(
    alloc: Global,
    touched: &Addresses,
    from: &Memory,
    onto: &mut Memory,
) -> Result<(), AllocError>
    ensures { OnOk result (onto.new ≡ spec.with_writes (map.entries (chunk.writes_of from.now touched.now)) onto.old) }
{
    for a in touched.items(alloc)?.as_slice() {
        if let Some(v) = from.value_at(*a) {
            onto.put(*a, v)?;
        }
    }
    Ok(())
}

/// Adds the objects that were made and are still there.
fn add_made(alloc: Global, made: &Names, from: &Memory, onto: &mut Memory) -> Result<(), AllocError>
    ensures { OnOk result (onto.new ≡ spec.with_made (map.entries (chunk.made_objects from.now made.now)) onto.old) }
{
    for o in made.items(alloc)?.as_slice() {
        if let Some(words) = from.words(*o) {
            onto.add(*o, Items::from_slice(alloc, words.as_slice())?)?;
        }
    }
    Ok(())
}

/// Takes the freed objects out.
fn take_out(freed: &[Obj], onto: &mut Memory)
    ensures { onto.new ≡ spec.without_freed freed.now onto.old }
{
    for o in freed {
        onto.remove(*o);
    }
}

/// What a reduction gathered.
fn sum_of(v: Val) -> i64
    ensures { result ≡ chunk.sum_of v }
{
    match v {
        Val::Int(n) => n,
        Val::Ptr(_, _) => 0,
    }
}

/// A reduction variable becomes its old value joined with a number.
fn join(r: &Red, n: i64, onto: &mut Memory) -> Result<(), AllocError>
    ensures { OnOk result (onto.new ≡ spec.with_sum r.now n onto.old (value_at onto.old r.now.at)) }
{
    match onto.value_at(r.at) {
        Some(Val::Int(old)) => onto.put(r.at, Val::Int(red_apply(r.op, old, n))),
        _ => Ok(()),
    }
}

#[tactic(auto, using(crate::proofs::Committed::none_gathered))]
fn reduce(reds: &[Red], accumulators: &[Val], onto: &mut Memory) -> Result<(), AllocError>
    ensures { OnOk result (onto.new ≡ spec.with_sums reds.now (prelude.map chunk.sum_of accumulators.now) onto.old) }
{
    match (reds, accumulators) {
        ([r, reds @ ..], [v, accumulators @ ..]) => {
            join(r, sum_of(*v), onto)?;
            reduce(reds, accumulators, onto)
        }
        ([], _) => Ok(()),
        (_, []) => Ok(()),
    }
}

impl Outcome {
    /// Lays it over a memory.
    #[tactic(auto, unfolding(al_core::specs::Applied::applied))]
    pub fn apply(&self, alloc: Global, reds: &[Red], onto: &mut Memory) -> Result<(), AllocError>
        ensures { OnOk result (onto.new ≡ spec.applied reds.now onto.old self.now) }
    {
        lay(alloc, &self.accesses.touched, &self.memory, onto)?;
        add_made(alloc, &self.accesses.made, &self.memory, onto)?;
        take_out(self.accesses.freed.as_slice(), onto);
        reduce(reds, self.accesses.accumulators.as_slice(), onto)
    }
}
