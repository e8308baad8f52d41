//! Random sequences of calls of a store, beside a plain map.
use crate::numbers::Numbers;
use al_core::Obj;
use al_heap::Store;
use al_values::{PackedValue, Words};
use std::alloc::{AllocError, Global};
use std::collections::BTreeMap;

fn object(x: u64) -> Obj {
    let number = (x / 16 % 3) as u32;
    match x % 4 {
        0 => Obj::Global(number),
        1 => Obj::Serial(number),
        2 => Obj::Iter(number, 1, 1),
        _ => Obj::Iter(1, x / 64 % 3, number),
    }
}

fn int(value: Option<PackedValue>) -> Option<i64> {
    value?.int()
}

/// The words of an object in a plain map.
fn plain_word(plain: &BTreeMap<Obj, Vec<i64>>, obj: Obj, at: u32) -> Option<i64> {
    plain.get(&obj)?.get(at as usize).copied()
}

/// Makes one call on the store and does the same to the map.
fn step<S: Store>(
    alloc: Global,
    store: &mut S,
    plain: &mut BTreeMap<Obj, Vec<i64>>,
    x: u64,
) -> Result<(), AllocError> {
    let obj = object(x / 8);
    let at = (x / 1024 % 70) as u32;
    match x % 8 {
        0 => {
            store.prepare(obj)?;
            store.add(obj, Words::zeros(alloc, at)?);
            plain.insert(obj, vec![in alloc; 0; at as usize]?)?;
        }
        1 => {
            store.remove(obj);
            plain.remove(&obj);
        }
        2 => store.prepare(obj)?,
        _ => {
            let value = (x >> 40) as i64;
            store.put_word(obj, at, PackedValue::from_int(value));
            if let Some(words) = plain.get_mut(&obj) {
                if let Some(word) = words.get_mut(at as usize) {
                    *word = value;
                }
            }
        }
    }
    Ok(())
}

/// Whether a store of random calls is as a plain map is.
pub fn agree<S: Store>(
    alloc: Global,
    store: &mut S,
    numbers: &mut Numbers,
) -> Result<bool, AllocError> {
    let mut plain = BTreeMap::new(alloc);
    let mut well = true;
    for _ in 0..200 {
        step(alloc, store, &mut plain, numbers.next())?;
        let x = numbers.next();
        let obj = object(x);
        let at = (x / 1024 % 70) as u32;
        let long = plain.get(&obj).map(|words| words.len());
        well = well
            && int(store.word(obj, at)) == plain_word(&plain, obj, at)
            && store.length(obj).map(|words| words as usize) == long;
    }
    Ok(well)
}
