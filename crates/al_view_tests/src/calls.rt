//! The calls of a view, and the memory on which they are made.
use al_core::{Addr, Kind, Obj, Val, View, ViewFault};
use al_heap::Store;
use al_values::{PackedValue, Words};
use sqlite_items::Items;
use std::alloc::{AllocError, Global};

/// The objects of the memory, by name and number of words.
pub(crate) const OBJECTS: [(Obj, u32); 4] = [
    (Obj::Global(0), 1),
    (Obj::Global(1), 70),
    (Obj::Serial(0), 2),
    (Obj::Iter(0, 3, 1), 5),
];

/// A store with those objects, all 0, and two locals.
pub(crate) fn fill<S: Store>(alloc: Global, store: &mut S) -> Result<(), AllocError> {
    for (obj, words) in OBJECTS {
        store.prepare(obj)?;
        store.add(obj, Words::zeros(alloc, words)?);
    }
    let mut locals = Items::new(alloc);
    locals.push(PackedValue::from_int(4))?;
    locals.push(PackedValue::from_int(5))?;
    store.set_locals(locals);
    Ok(())
}

/// The next number of a sequence.
pub(crate) fn after(x: u64) -> u64 {
    let y = x ^ x.wrapping_shl(13);
    let z = y ^ (y >> 7);
    z ^ z.wrapping_shl(17)
}

/// One of the objects, or one that the chunk may make.
pub(crate) fn object(x: u64) -> Obj {
    match x % 7 {
        0 => Obj::Global(0),
        1 | 2 => Obj::Global(1),
        3 => Obj::Serial(0),
        4 => Obj::Iter(0, 3, 1),
        _ => Obj::Iter(1, 5, (x / 8 % 3) as u32),
    }
}

pub(crate) fn address(x: u64) -> Addr {
    match x % 8 {
        0 => Addr::Local((x / 8 % 3) as u32),
        1 => Addr::Head(object(x / 8)),
        _ => Addr::Word(object(x / 8), (x / 512 % 6) as u32),
    }
}

fn value(x: u64) -> Val {
    if x % 4 == 0 {
        Val::Ptr(object(x / 8), (x / 512 % 9) as u32)
    } else {
        Val::Int((x >> 50) as i64)
    }
}

fn kind(x: u64) -> Kind {
    if x % 3 == 0 { Kind::Ptr } else { Kind::Int }
}

/// What a call answered.
#[derive(Clone, Copy, Debug, PartialEq, Eq)]
pub(crate) enum Answer {
    Value(Val),
    Name(Obj),
    Nothing,
}

/// Makes one call of a view.
pub(crate) fn call<V: View>(view: &mut V, x: u64) -> Result<Answer, ViewFault> {
    let y = x / 16;
    match x % 16 {
        0 => Ok(Answer::Name(view.make((y % 4) as u32)?)),
        1 => {
            view.free(object(y), (y / 64 % 8 / 7) as u32)?;
            Ok(Answer::Nothing)
        }
        2 => {
            view.print(b"x")?;
            Ok(Answer::Nothing)
        }
        3..=8 => Ok(Answer::Value(view.load(address(y), kind(y / 64))?)),
        _ => {
            view.store(address(y), value(y / 4096))?;
            Ok(Answer::Nothing)
        }
    }
}
