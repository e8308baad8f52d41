//! Objects of many sizes, by their first and last words and pages.
use al_core::{Obj, Trap};
use al_heap::{MapStore, Store};
use al_pages::PageStore;
use al_values::{PackedValue, Words};
use std::alloc::AllocError;
use std::process::Abort;
use std::test::Fail;

fn int(value: Option<PackedValue>) -> Option<i64> {
    value?.int()
}

fn add_zeros<S: Store, R: AllocGlobal + Abort>(
    rt: &R,
    store: &mut S,
    obj: Obj,
    words: u32,
) -> Result<(), AllocError> {
    store.prepare(obj)?;
    store.add(obj, Words::zeros(rt.alloc(), words)?);
    Ok(())
}

/// The first and the last word of each page hold their own offsets, and every other word is 0.
fn pages_are_right<S: Store, R: AllocGlobal + Abort>(
    rt: &R,
    store: &mut S,
    obj: Obj,
    words: u32,
) -> Result<(), AllocError> {
    add_zeros(rt, store, obj, words)?;
    assert_eq!(rt; store.length(obj), Some(words));
    let pages = words.div_ceil(64);
    for page in 0..pages {
        let first = page.wrapping_mul(64);
        let last = first.wrapping_add(63).min(words.wrapping_sub(1));
        store.put_word(obj, first, PackedValue::from_int(i64::from(first)));
        assert_eq!(rt;
            store.overwrite(obj, last, PackedValue::from_int(i64::from(last))),
            Ok(())
        );
    }
    for page in 0..pages {
        let first = page.wrapping_mul(64);
        let last = first.wrapping_add(63).min(words.wrapping_sub(1));
        assert_eq!(rt; int(store.word(obj, first)), Some(i64::from(first)));
        assert_eq!(rt; int(store.read(obj, last).ok()), Some(i64::from(last)));
        let long = last.wrapping_sub(first).wrapping_add(1);
        assert_eq!(rt;
            store.page(obj, page).map(|words| words.len()),
            Some(long as usize)
        );
        if long > 2 {
            assert_eq!(rt; int(store.word(obj, first.wrapping_add(1))), Some(0));
        }
    }
    assert!(rt; store.page(obj, pages).is_none());
    assert_eq!(rt; int(store.word(obj, words)), None);
    assert_eq!(rt;
        store.overwrite(obj, words, PackedValue::zero()),
        Err(Trap::Bounds)
    );
    store.remove(obj);
    assert_eq!(rt; store.length(obj), None);
    assert_eq!(rt;
        store.overwrite(obj, 0, PackedValue::zero()),
        Err(Trap::Missing)
    );
    Ok(())
}

fn sizes_are_right<S: Store, R: AllocGlobal + Abort>(
    rt: &R,
    store: &mut S,
) -> Result<(), AllocError> {
    for words in [1, 63, 64, 65, 511, 512, 513] {
        for obj in [Obj::Global(3), Obj::Serial(0), Obj::Iter(2, 5, 1)] {
            pages_are_right(rt, store, obj, words)?;
        }
    }
    Ok(())
}

#[test]
fn objects_of_many_sizes_in_a_map(rt: HostRuntime) -> Result<(), Fail> {
    sizes_are_right(&rt, &mut MapStore::new(rt.alloc()))?;
    Ok(())
}

#[test]
fn objects_of_many_sizes_in_pages(rt: HostRuntime) -> Result<(), Fail> {
    let mut store = PageStore::new(rt.alloc());
    sizes_are_right(&rt, &mut store)?;
    pages_are_right(&rt, &mut store, Obj::Iter(0, 0, 0), 4_194_304)?;
    Ok(())
}
