//! What a chunk's change and an outcome of the plain interpreter have in common.
use al_code::Code;
use al_core::{Addr, Obj, Val};
use al_heap::Slots;
use al_plain::{Accesses, Addresses, Memory, Outcome};
use al_sets::{AddrMap, AddrSet};
use al_snap::Change;
use al_values::{PackedValue, Words};
use sqlite_items::Items;
use std::alloc::{AllocError, Global};

/// The head of an object and so many words.
fn push_object(all: &mut Items<Addr>, obj: Obj, words: u32) -> Result<(), AllocError> {
    all.push(Addr::Head(obj))?;
    for w in 0..words {
        all.push(Addr::Word(obj, w))?;
    }
    Ok(())
}

/// The addresses of the globals, of some locals, and of objects made outside loops, by the first iterations of all, and
/// by those of an execution.
pub fn addresses(alloc: Global, code: &Code, execution: u32) -> Result<Items<Addr>, AllocError> {
    let mut all = Items::new(alloc);
    let mut k = 0u32;
    for global in code.globals.as_slice() {
        push_object(&mut all, Obj::Global(k), global.words)?;
        k = k.wrapping_add(1);
    }
    for k in 0..8 {
        all.push(Addr::Local(k))?;
        push_object(&mut all, Obj::Serial(k), 3)?;
        push_object(&mut all, Obj::Iter(0, u64::from(k), 0), 3)?;
        push_object(&mut all, Obj::Iter(execution, u64::from(k), 0), 3)?;
    }
    Ok(all)
}

/// Some 128 of these addresses, from the first to the last.
pub fn sampled(alloc: Global, all: &[Addr]) -> Result<Items<Addr>, AllocError> {
    let step = all.len() / 128 + 1;
    let mut some = Items::new(alloc);
    for (k, at) in all.iter().enumerate() {
        if k % step == 0 {
            some.push(*at)?;
        }
    }
    Ok(some)
}

/// Whether a set has all addresses of the plain interpreter's, and of some others only those.
fn is_same_set(
    alloc: Global,
    set: &AddrSet,
    plain: &Addresses,
    others: &[Addr],
) -> Result<bool, AllocError> {
    let all = plain.items(alloc)?;
    Ok(
        all.as_slice().iter().all(|a| set.has(a))
            && others.iter().all(|a| set.has(a) == plain.contains(*a)),
    )
}

fn is_same_words(words: Option<&Words>, plain: Option<&Items<Val>>) -> bool {
    match (words, plain) {
        (Some(words), Some(plain)) => {
            let words = words.as_slice();
            words.len() == plain.len()
                && words
                    .iter()
                    .zip(plain.as_slice().iter())
                    .all(|(v, p)| v.unpack() == *p)
        }
        (None, None) => true,
        _ => false,
    }
}

/// The object of a word.
fn object(at: Addr) -> Option<Obj> {
    match at {
        Addr::Word(obj, _) => Some(obj),
        Addr::Head(_) | Addr::Local(_) => None,
    }
}

/// Whether each touched word is written with its value in the memory, unless it is a word of a freed object.
fn has_writes(writes: &AddrMap, touched: &[Addr], plain: &Accesses, memory: &Memory) -> bool {
    touched.iter().all(|at| {
        let value = writes.get(*at).map(|v: PackedValue| v.unpack());
        let is_gone = object(*at).is_some_and(|o| plain.freed.as_slice().contains(&o));
        is_gone || memory.value_at(*at) == value
    })
}

/// Whether each written word is touched.
fn has_no_other_writes(writes: &mut AddrMap, touched: &Addresses) -> bool {
    for _ in 0..100_000 {
        let Some((at, _)) = writes.pop() else {
            return true;
        };
        if !touched.contains(at) {
            return false;
        }
    }
    false
}

fn is_same_writes(
    alloc: Global,
    writes: &mut AddrMap,
    plain: &Accesses,
    memory: &Memory,
) -> Result<bool, AllocError> {
    let touched = plain.touched.items(alloc)?;
    Ok(
        has_writes(writes, touched.as_slice(), plain, memory)
            && has_no_other_writes(writes, &plain.touched),
    )
}

fn is_same_sums(sums: &Items<PackedValue>, plain: &Items<Val>) -> bool {
    sums.len() == plain.len()
        && sums
            .as_slice()
            .iter()
            .zip(plain.as_slice().iter())
            .all(|(v, p)| v.unpack() == *p)
}

fn is_same_object(made: &Slots, memory: &Memory, obj: Obj) -> bool {
    made.has(obj) && is_same_words(made.get(obj), memory.words(obj))
}

/// Whether the objects that a chunk made are those, with their words.
fn is_same_made(
    alloc: Global,
    made: &Slots,
    plain: &Accesses,
    memory: &Memory,
) -> Result<bool, AllocError> {
    let all = plain.made.items(alloc)?;
    Ok(
        all.as_slice()
            .iter()
            .all(|obj| is_same_object(made, memory, *obj)),
    )
}

/// Whether a change ends as an outcome, with the same bytes, freed objects and accumulators.
fn ends_alike(change: &Change, plain: &Outcome) -> bool {
    change.ending == plain.ending
        && u128::from(change.steps) == plain.steps
        && change.printed.as_slice() == plain.printed.as_slice()
        && change.freed.as_slice() == plain.accesses.freed.as_slice()
        && is_same_sums(&change.accumulators, &plain.accesses.accumulators)
}

/// Whether a change tells of an outcome. It takes the written values out.
pub fn is_same(
    alloc: Global,
    change: &mut Change,
    plain: &Outcome,
    others: &[Addr],
) -> Result<bool, AllocError> {
    let accesses = &plain.accesses;
    let reads = is_same_set(alloc, &change.reads, &accesses.reads, others)?;
    let touched = is_same_set(alloc, &change.touched, &accesses.touched, others)?;
    let made = is_same_made(alloc, &change.made, accesses, &plain.memory)?;
    let writes = is_same_writes(alloc, &mut change.writes, accesses, &plain.memory)?;
    Ok(ends_alike(change, plain) && reads && touched && made && writes)
}
