ghost use Rattle.std.specs.Prelude.{◌≡◌, OnOk, OnErr};
ghost use Rattle.std.specs.Prelude as prelude;
ghost use Rattle.std.specs.FinMap as map;
ghost use Rattle.al_core.specs.Applied as spec;
ghost use Rattle.al_core.specs.Chunk.{Outcome, sum_of as sum_in};
ghost use Rattle.al_core.specs.Memory as memory;
ghost use Rattle.al_core.specs.Memory.{value_at};
ghost use Rattle.al_heap.specs.Stores.{KeepsReady, AreReady, objects_in};
ghost use Rattle.al_snap.specs.Changes.{IsOutcome};

use al_core::{Addr, Obj, Red, red_apply};
use al_heap::{Slots, Store};
use al_sets::AddrMap;
use al_snap::Change;
use al_values::PackedValue;
use std::alloc::AllocError;

/// The value at an address, where there is one.
fn value<S: Store>(store: &S, at: Addr) -> Option<PackedValue>
    ensures { result ≡ value_at (S.memory store.now) at }
{
    match at {
        Addr::Word(obj, w) => store.word(obj, w),
        Addr::Head(_) => None,
        Addr::Local(k) => store.local(k),
    }
}

/// Puts a value in place of the one at an address, where there is one.
fn put<S: Store>(store: &mut S, at: Addr, v: PackedValue)
    ensures memory { S.memory store.new ≡ memory.put (S.memory store.old) at v }
    ensures kept { KeepsReady (S.is_ready store.old) (S.is_ready store.new) }
{
    match at {
        Addr::Word(obj, w) => store.put_word(obj, w, v),
        Addr::Head(_) => {}
        Addr::Local(k) => store.put_local(k, v),
    }
}

/// Lays the written words over a store.
fn lay<S: Store>(store: &mut S, mut writes: AddrMap)
    ensures memory { S.memory store.new ≡ spec.with_writes (map.entries writes) (S.memory store.old) }
    ensures kept { KeepsReady (S.is_ready store.old) (S.is_ready store.new) }
{
    'writes: while let Some(write) = writes.pop() {
        put(store, write.0, write.1);
    }
}

/// Adds the objects that were made and are still there.
fn add_made<S: Store>(store: &mut S, mut made: Slots)
    requires { AreReady (S.is_ready store.old) made }
    ensures { S.memory store.new ≡ spec.with_made (map.entries (objects_in made)) (S.memory store.old) }
{
    'made: while let Some((obj, words)) = made.pop() {
        store.add(obj, words);
    }
}

/// Takes the freed objects out.
fn take_out<S: Store>(store: &mut S, freed: &[Obj])
    ensures { S.memory store.new ≡ spec.without_freed freed.now (S.memory store.old) }
{
    for obj in freed {
        store.remove(*obj);
    }
}

/// What a reduction gathered.
fn sum_of(v: PackedValue) -> i64
    ensures { result ≡ sum_in v }
{
    v.int().unwrap_or(0)
}

/// A reduction variable becomes its old value joined with a number.
fn join<S: Store>(store: &mut S, r: &Red, n: i64)
    ensures { S.memory store.new
        ≡ spec.with_sum r.now n (S.memory store.old) (value_at (S.memory store.old) r.now.at) }
{
    if let Some(v) = value(store, r.at) {
        if let Some(old) = v.int() {
            put(store, r.at, PackedValue::from_int(red_apply(r.op, old, n)));
        }
    }
}

/// Changes each reduction variable.
#[tactic(auto, using(crate::proofs::Taken::none_gathered))]
fn reduce<S: Store>(store: &mut S, reds: &[Red], accumulators: &[PackedValue])
    ensures { S.memory store.new
        ≡ spec.with_sums reds.now (prelude.map sum_in accumulators.now) (S.memory store.old) }
{
    match (reds, accumulators) {
        ([r, reds @ ..], [v, accumulators @ ..]) => {
            join(store, r, sum_of(*v));
            reduce(store, reds, accumulators);
        }
        ([], _) => {}
        (_, []) => {}
    }
}

/// Lays what a chunk did over a store. All memory is taken first: after an `Err` the store's memory is as before.
pub fn commit<S: Store>(store: &mut S, change: Change, reds: &[Red]) -> Result<(), AllocError>
    ensures ok { OnOk result
        ((o : Outcome) → IsOutcome change o → S.memory store.new ≡ spec.applied reds.now (S.memory store.old) o) }
    ensures err { OnErr result (S.memory store.new ≡ S.memory store.old) }
{
    change.made.prepare_in(store)?;
    lay(store, change.writes);
    add_made(store, change.made);
    take_out(store, change.freed.as_slice());
    reduce(store, reds, change.accumulators.as_slice());
    Ok(())
}
