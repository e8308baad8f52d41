//! A store over an ordered map.
use al_core::{Obj, Trap};
use al_heap::{MapStore, Store};
use al_values::{PackedValue, Words};
use sqlite_items::Items;
use std::test::Fail;

fn int(value: Option<PackedValue>) -> Option<i64> {
    value?.int()
}

#[test]
fn objects_come_and_go(rt: HostRuntime) -> Result<(), Fail> {
    let obj = Obj::Iter(1, 2, 3);
    let mut store = MapStore::new(rt.alloc());
    assert_eq!(rt; store.length(obj), None);
    store.prepare(obj)?;
    assert_eq!(rt; store.length(obj), None);
    store.add(obj, Words::zeros(rt.alloc(), 65)?);
    assert_eq!(rt; store.length(obj), Some(65));
    store.put_word(obj, 64, PackedValue::from_int(7));
    assert_eq!(rt; int(store.word(obj, 64)), Some(7));
    assert_eq!(rt; int(store.word(obj, 0)), Some(0));
    assert_eq!(rt; int(store.word(obj, 65)), None);
    assert_eq!(rt;
        store.overwrite(obj, 65, PackedValue::zero()),
        Err(Trap::Bounds)
    );
    assert_eq!(rt; store.overwrite(obj, 0, PackedValue::from_int(8)), Ok(()));
    assert_eq!(rt; int(store.read(obj, 0).ok()), Some(8));
    assert_eq!(rt; store.page(obj, 0).map(|page| page.len()), Some(64));
    assert_eq!(rt; store.page(obj, 1).map(|page| page.len()), Some(1));
    assert_eq!(rt; store.page(obj, 2).map(|page| page.len()), None);
    store.remove(obj);
    assert_eq!(rt; store.length(obj), None);
    assert_eq!(rt;
        store.overwrite(obj, 0, PackedValue::zero()),
        Err(Trap::Missing)
    );
    Ok(())
}

#[test]
fn locals_are_shared(rt: HostRuntime) -> Result<(), Fail> {
    let mut locals = Items::new(rt.alloc());
    locals.push(PackedValue::from_int(1))?;
    let mut store = MapStore::new(rt.alloc());
    store.set_locals(locals);
    store.put_local(0, PackedValue::from_int(2));
    store.put_local(1, PackedValue::from_int(3));
    assert_eq!(rt; int(store.local(0)), Some(2));
    assert_eq!(rt; int(store.local(1)), None);
    assert_eq!(rt; store.take_locals().len(), 1);
    assert_eq!(rt; int(store.local(0)), None);
    Ok(())
}
