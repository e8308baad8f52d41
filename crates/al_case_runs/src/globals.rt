//! The globals of a program at its start, in a store and as the plain interpreter keeps them.

use al_code::Code;
use al_core::{Obj, Val};
use al_heap::Store;
use al_plain::{Memory, Objects, zeros};
use al_values::{PackedValue, Words};
use sqlite_items::Items;
use std::alloc::{AllocError, Global};

/// Puts the globals of a program into a store.
pub fn put_globals<S: Store>(alloc: Global, code: &Code, store: &mut S) -> Result<(), AllocError> {
    let mut k = 0u32;
    for global in code.globals.as_slice() {
        let obj = Obj::Global(k);
        store.prepare(obj)?;
        store.add(obj, Words::zeros(alloc, global.words)?);
        store.put_word(obj, 0, PackedValue::from_int(global.start));
        k = k.wrapping_add(1);
    }
    Ok(())
}

/// The same memory as the plain interpreter keeps it.
pub fn plain_globals(alloc: Global, code: &Code) -> Result<Memory, AllocError> {
    let mut objects = Objects::new(alloc);
    let mut k = 0u32;
    for global in code.globals.as_slice() {
        let obj = Obj::Global(k);
        objects.insert(obj, zeros(alloc, global.words as usize)?)?;
        objects.set_word(obj, 0, Val::Int(global.start))?;
        k = k.wrapping_add(1);
    }
    Ok(Memory::new(objects, Items::new(alloc)))
}
