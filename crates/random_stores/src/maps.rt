//! Maps from random addresses to values, beside an ordered map.
use crate::numbers::Numbers;
use al_core::{Addr, Obj};
use al_sets::AddrMap;
use al_values::PackedValue;
use std::alloc::{AllocError, Global};
use std::collections::BTreeMap;

fn int(value: Option<PackedValue>) -> Option<i64> {
    value?.int()
}

fn address(x: u64) -> Addr {
    let obj = Obj::Iter((x / 16 % 2) as u32, 0, 0);
    match x % 4 {
        0 => Addr::Local((x / 64 % 600) as u32),
        _ => Addr::Word(obj, (x / 64 % 1100) as u32),
    }
}

/// Inserts so many values; whether each is found then, and before it what the plain map has.
fn fill(
    map: &mut AddrMap,
    plain: &mut BTreeMap<Addr, i64>,
    numbers: &mut Numbers,
    count: u64,
) -> Result<bool, AllocError> {
    let mut well = true;
    for _ in 0..count {
        let x = numbers.next();
        let (at, n) = (address(x), (x >> 40) as i64);
        well = well && int(map.get(at)) == plain.get(&at).copied();
        map.insert(at, PackedValue::from_int(n))?;
        plain.insert(at, n)?;
        well = well && int(map.get(at)) == Some(n);
    }
    Ok(well)
}

/// Whether a map has all that a plain one has.
fn has_all(map: &AddrMap, plain: &BTreeMap<Addr, i64>) -> bool {
    for (at, n) in plain {
        if int(map.get(*at)) != Some(*n) {
            return false;
        }
    }
    true
}

/// Takes all values out again; whether they are those of the plain map, and are then gone.
fn drain(map: &mut AddrMap, plain: &mut BTreeMap<Addr, i64>, count: u64) -> bool {
    let mut well = true;
    for _ in 0..count {
        let Some((at, v)) = map.pop() else {
            break;
        };
        well = well && plain.remove(&at) == v.int() && map.get(at).is_none();
    }
    well && plain.is_empty() && map.pop().is_none()
}

/// Whether a map of random addresses is as a plain one is.
pub fn agree(alloc: Global, numbers: &mut Numbers) -> Result<bool, AllocError> {
    let mut map = AddrMap::new(alloc);
    let mut plain = BTreeMap::new(alloc);
    let filled = fill(&mut map, &mut plain, numbers, 300)?;
    let has_all = has_all(&map, &plain);
    Ok(filled && has_all && drain(&mut map, &mut plain, 300))
}
