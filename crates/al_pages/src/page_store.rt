ghost use Rattle.std.specs.Prelude.{◌≡◌};
ghost use Rattle.std.specs.FinMap as map;
ghost use Rattle.std.specs.Option.{option_copied};
ghost use Rattle.al_heap.specs.Stores.{no_memory};
ghost use Rattle.al_pages.specs.Tables.{objects_of, has_slot};

use crate::objects::Objects;
use al_core::{Obj, Trap};
use al_heap::{Store, page_of};
use al_values::{PackedValue, Words};
use sqlite_items::Items;
use std::alloc::{AllocError, Global};
use std::mem;

/// A store that finds a global or a serial object by its number, and an object of an iteration by its execution, its
/// iteration and its number. Views read it by pages of 64 words.
#[derive(Drop)]
pub struct PageStore {
    alloc: Global,
    objects: Objects,
    locals: Items<PackedValue>,
}

impl PageStore {
    /// The empty store. It takes no memory.
    pub fn new(alloc: Global) -> PageStore
        ensures { ⟦<PageStore as Store>⟧.memory result ≡ no_memory }
    {
        PageStore {
            alloc,
            objects: Objects::new(alloc),
            locals: Items::new(alloc),
        }
    }

    /// The words of an object, where it is present.
    #[inline(always)]
    fn words(&self, obj: Obj) -> Option<&Words>
        ensures { option_copied result ≡ map.get (objects_of self.now.objects) obj }
    {
        self.objects.get(obj)
    }
}

impl Store for PageStore {
    ghost memory = { λ s. record { objects = objects_of s.objects; locals = s.locals } };

    ghost is_ready = { λ s o. has_slot s.objects o };

    fn length(&self, obj: Obj) -> Option<u32> {
        Some(self.words(obj)?.len())
    }

    fn word(&self, obj: Obj, at: u32) -> Option<PackedValue> {
        self.words(obj)?.get(at)
    }

    #[inline(always)]
    fn local(&self, k: u32) -> Option<PackedValue> {
        self.locals.get(k as usize).copied()
    }

    #[inline(always)]
    fn read(&self, obj: Obj, at: u32) -> Result<PackedValue, Trap> {
        match self.words(obj) {
            Some(words) => words.get(at).ok_or(Trap::Bounds),
            None => Err(Trap::Missing),
        }
    }

    fn page(&self, obj: Obj, number: u32) -> Option<&[PackedValue]> {
        page_of(self.words(obj)?.as_slice(), number)
    }

    fn prepare(&mut self, obj: Obj) -> Result<(), AllocError> {
        self.objects.prepare(obj)
    }

    fn put_word(&mut self, obj: Obj, at: u32, value: PackedValue) {
        let _ = self.objects.overwrite(obj, at, value);
    }

    #[inline(always)]
    fn overwrite(&mut self, obj: Obj, at: u32, value: PackedValue) -> Result<(), Trap> {
        self.objects.overwrite(obj, at, value)
    }

    fn put_local(&mut self, k: u32, value: PackedValue) {
        if (k as usize) < self.locals.len() {
            self.locals.set(k as usize, value);
        }
    }

    fn add(&mut self, obj: Obj, words: Words) {
        self.objects.put(obj, words);
    }

    fn remove(&mut self, obj: Obj) {
        self.objects.take(obj);
    }

    fn set_locals(&mut self, locals: Items<PackedValue>) {
        self.locals = locals;
    }

    fn take_locals(&mut self) -> Items<PackedValue> {
        mem::replace(&mut self.locals, Items::new(self.alloc))
    }
}
