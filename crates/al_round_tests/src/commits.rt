//! What a chunk did, laid over a store.
use al_commit::commit;
use al_core::{Addr, Ending, Obj, Red, RedOp, Trap};
use al_heap::{MapStore, Slots, Store};
use al_sets::{AddrMap, AddrSet};
use al_snap::Change;
use al_values::{PackedValue, Words};
use sqlite_items::Items;
use std::alloc::{AllocError, Global};
use std::test::Fail;

fn nothing(alloc: Global) -> Change {
    Change {
        reads: AddrSet::new(alloc),
        touched: AddrSet::new(alloc),
        writes: AddrMap::new(alloc),
        made: Slots::new(alloc),
        freed: Items::new(alloc),
        accumulators: Items::new(alloc),
        printed: Items::new(alloc),
        ending: Ending::Done,
        steps: 0,
    }
}

fn number<S: Store>(store: &S, obj: Obj, w: u32) -> Option<i64> {
    store.word(obj, w)?.int()
}

/// A store with objects of two words and one local, all 0.
fn store_with(alloc: Global, objects: &[Obj]) -> Result<MapStore, AllocError> {
    let mut store = MapStore::new(alloc);
    for obj in objects {
        store.prepare(*obj)?;
        store.add(*obj, Words::zeros(alloc, 2)?);
    }
    let mut locals = Items::new(alloc);
    locals.push(PackedValue::zero())?;
    store.set_locals(locals);
    Ok(store)
}

#[test]
fn words_and_locals_are_laid_over(rt: HostRuntime) -> Result<(), Fail> {
    let obj = Obj::Global(0);
    let mut store = store_with(rt.alloc(), &[obj])?;
    let mut change = nothing(rt.alloc());
    change
        .writes
        .insert(Addr::Word(obj, 1), PackedValue::from_int(5))?;
    change
        .writes
        .insert(Addr::Local(0), PackedValue::from_int(6))?;
    commit(&mut store, change, &[])?;
    assert_eq!(rt; number(&store, obj, 0), Some(0));
    assert_eq!(rt; number(&store, obj, 1), Some(5));
    assert_eq!(rt; store.local(0).and_then(|v| v.int()), Some(6));
    Ok(())
}

#[test]
fn objects_come_and_go(rt: HostRuntime) -> Result<(), Fail> {
    let (old, new, short) = (Obj::Serial(0), Obj::Iter(0, 1, 0), Obj::Iter(0, 1, 1));
    let mut store = store_with(rt.alloc(), &[old])?;
    let mut change = nothing(rt.alloc());
    change
        .writes
        .insert(Addr::Word(old, 0), PackedValue::from_int(5))?;
    change.made.prepare(new)?;
    change.made.put(new, Words::zeros(rt.alloc(), 3)?);
    change.made.prepare(short)?;
    change.freed.push(old)?;
    commit(&mut store, change, &[])?;
    assert_eq!(rt; store.length(old), None);
    assert_eq!(rt; store.length(new), Some(3));
    assert_eq!(rt; store.length(short), None);
    Ok(())
}

#[test]
fn sums_are_joined(rt: HostRuntime) -> Result<(), Fail> {
    let obj = Obj::Global(0);
    let mut store = store_with(rt.alloc(), &[obj])?;
    let reds = [
        Red {
            op: RedOp::Add,
            at: Addr::Word(obj, 0),
        },
        Red {
            op: RedOp::BitXor,
            at: Addr::Local(0),
        },
    ];
    for n in [5, 7] {
        let mut change = nothing(rt.alloc());
        change.accumulators.push(PackedValue::from_int(n))?;
        change.accumulators.push(PackedValue::from_int(n))?;
        commit(&mut store, change, &reds)?;
    }
    assert_eq!(rt; number(&store, obj, 0), Some(12));
    assert_eq!(rt; store.local(0).and_then(|v| v.int()), Some(2));
    Ok(())
}

/// A store that becomes ready for so many names, and then finds no memory.
#[derive(Drop)]
struct Scarce {
    store: MapStore,
    left: u32,
}

impl Store for Scarce {
    ghost memory = { λ s. ⟦<MapStore as Store>⟧.memory s.store };

    ghost is_ready = { λ s. ⟦<MapStore as Store>⟧.is_ready s.store };

    fn length(&self, obj: Obj) -> Option<u32> {
        self.store.length(obj)
    }

    fn word(&self, obj: Obj, at: u32) -> Option<PackedValue> {
        self.store.word(obj, at)
    }

    fn local(&self, k: u32) -> Option<PackedValue> {
        self.store.local(k)
    }

    fn read(&self, obj: Obj, at: u32) -> Result<PackedValue, Trap> {
        self.store.read(obj, at)
    }

    fn page(&self, obj: Obj, number: u32) -> Option<&[PackedValue]> {
        self.store.page(obj, number)
    }

    fn prepare(&mut self, obj: Obj) -> Result<(), AllocError> {
        if self.left == 0 {
            return Err(AllocError);
        }
        self.left -= 1;
        self.store.prepare(obj)
    }

    fn put_word(&mut self, obj: Obj, at: u32, value: PackedValue) {
        self.store.put_word(obj, at, value);
    }

    fn overwrite(&mut self, obj: Obj, at: u32, value: PackedValue) -> Result<(), Trap> {
        self.store.overwrite(obj, at, value)
    }

    fn put_local(&mut self, k: u32, value: PackedValue) {
        self.store.put_local(k, value);
    }

    fn add(&mut self, obj: Obj, words: Words) {
        self.store.add(obj, words);
    }

    fn remove(&mut self, obj: Obj) {
        self.store.remove(obj);
    }

    fn set_locals(&mut self, locals: Items<PackedValue>) {
        self.store.set_locals(locals);
    }

    fn take_locals(&mut self) -> Items<PackedValue> {
        self.store.take_locals()
    }
}

/// Commits a chunk that wrote a word, made two objects and freed one, where memory is found for so many names.
fn scarcely(alloc: Global, left: u32) -> Result<(bool, Scarce), AllocError> {
    let mut store = Scarce {
        store: store_with(alloc, &[Obj::Global(0), Obj::Serial(0)])?,
        left,
    };
    let mut change = nothing(alloc);
    change
        .writes
        .insert(Addr::Word(Obj::Global(0), 1), PackedValue::from_int(5))?;
    for k in [0, 1] {
        let made = Obj::Iter(0, 0, k);
        change.made.prepare(made)?;
        change.made.put(made, Words::zeros(alloc, 1)?);
    }
    change.freed.push(Obj::Serial(0))?;
    let done = commit(&mut store, change, &[]).is_ok();
    Ok((done, store))
}

#[test]
fn without_memory_all_is_as_before(rt: HostRuntime) -> Result<(), Fail> {
    for left in [0, 1] {
        let (done, store) = scarcely(rt.alloc(), left)?;
        assert!(rt; !done);
        assert_eq!(rt; number(&store, Obj::Global(0), 1), Some(0));
        assert_eq!(rt; store.length(Obj::Serial(0)), Some(2));
        assert_eq!(rt; store.length(Obj::Iter(0, 0, 0)), None);
    }
    Ok(())
}

#[test]
fn with_memory_all_is_committed(rt: HostRuntime) -> Result<(), Fail> {
    let (done, store) = scarcely(rt.alloc(), 2)?;
    assert!(rt; done);
    assert_eq!(rt; number(&store, Obj::Global(0), 1), Some(5));
    assert_eq!(rt; store.length(Obj::Serial(0)), None);
    assert_eq!(rt; store.length(Obj::Iter(0, 0, 0)), Some(1));
    assert_eq!(rt; store.length(Obj::Iter(0, 0, 1)), Some(1));
    Ok(())
}
