ghost use Rattle.std.specs.Prelude.{◌≡◌};
ghost use Rattle.std.specs.FinMap as map;
ghost use Rattle.al_heap.specs.Stores.{objects_in, no_memory};

use crate::pages::page_of;
use crate::slots::Slots;
use crate::store::Store;
use al_core::{Obj, Trap};
use al_values::{PackedValue, Words};
use sqlite_items::Items;
use std::alloc::{AllocError, Global};
use std::mem;

/// A store over an ordered map of std. It is slow.
#[derive(Drop)]
pub struct MapStore {
    alloc: Global,
    slots: Slots,
    locals: Items<PackedValue>,
}

impl MapStore {
    /// The empty store. It takes no memory.
    pub fn new(alloc: Global) -> MapStore
        ensures { ⟦<MapStore as Store>⟧.memory result ≡ no_memory }
    {
        MapStore {
            alloc,
            slots: Slots::new(alloc),
            locals: Items::new(alloc),
        }
    }
}

impl Store for MapStore {
    ghost memory = { λ s. record { objects = objects_in s.slots; locals = s.locals } };

    ghost is_ready = { λ s o. map.contains_key s.slots o };

    fn length(&self, obj: Obj) -> Option<u32> {
        Some(self.slots.get(obj)?.len())
    }

    fn word(&self, obj: Obj, at: u32) -> Option<PackedValue> {
        self.slots.get(obj)?.get(at)
    }

    fn local(&self, k: u32) -> Option<PackedValue> {
        self.locals.get(k as usize).copied()
    }

    fn read(&self, obj: Obj, at: u32) -> Result<PackedValue, Trap> {
        match self.slots.get(obj) {
            Some(words) => words.get(at).ok_or(Trap::Bounds),
            None => Err(Trap::Missing),
        }
    }

    fn page(&self, obj: Obj, number: u32) -> Option<&[PackedValue]> {
        page_of(self.slots.get(obj)?.as_slice(), number)
    }

    fn prepare(&mut self, obj: Obj) -> Result<(), AllocError> {
        self.slots.prepare(obj)
    }

    fn put_word(&mut self, obj: Obj, at: u32, value: PackedValue) {
        if let Some(mut words) = self.slots.take(obj) {
            words.put(at, value);
            self.slots.put(obj, words);
        }
    }

    fn overwrite(&mut self, obj: Obj, at: u32, value: PackedValue) -> Result<(), Trap> {
        self.read(obj, at)?;
        self.put_word(obj, at, value);
        Ok(())
    }

    fn put_local(&mut self, k: u32, value: PackedValue) {
        if (k as usize) < self.locals.len() {
            self.locals.set(k as usize, value);
        }
    }

    fn add(&mut self, obj: Obj, words: Words) {
        self.slots.put(obj, words);
    }

    fn remove(&mut self, obj: Obj) {
        self.slots.take(obj);
    }

    fn set_locals(&mut self, locals: Items<PackedValue>) {
        self.locals = locals;
    }

    fn take_locals(&mut self) -> Items<PackedValue> {
        mem::replace(&mut self.locals, Items::new(self.alloc))
    }
}
