ghost use Rattle.std.specs.Prelude.{◌≡◌, true, None, Some, OnOk, OnErr, OnSome, IfSome, IfNone};
ghost use Rattle.std.specs.FinMap as map;
ghost use Rattle.std.specs.Option.{option_copied};
ghost use Rattle.al_heap.specs.Stores.{KeepsReady, AreReady, IsReadyForEach, slot_in, objects_in, with_name};

use crate::store::Store;
use al_core::Obj;
use al_values::Words;
use std::alloc::{AllocError, Global};
use std::collections::BTreeMap;
use std::marker::Model;

/// Objects in slots, in the order of their names. A name that was prepared has a slot, with no object in it.
#[derive(Drop)]
pub struct Slots {
    slots: BTreeMap<Obj, Option<Words>>,
}

impl Model for Slots {
    ghost use Rattle.std.specs.Prelude.{Option, List};
    ghost use Rattle.std.specs.FinMap as map;
    ghost use Rattle.al_core.specs.Orders.{obj_cmp};
    ghost use Rattle.al_core.specs.declared.values.Val.{Val};
    ghost use Rattle.al_heap.specs.Stores.{slots_code};

    ghost Value = { map.FinMap obj_cmp (Option (List Val)) };

    ghost coded = { slots_code };

    ghost view = { λ a. map.from_entries a.slots.entries };
}

/// Makes a store ready for each object that is in its slot.
fn prepare_each<S: Store>(
    slots: &BTreeMap<Obj, Option<Words>>,
    store: &mut S,
) -> Result<(), AllocError>
    ensures memory { S.memory store.new ≡ S.memory store.old }
    ensures ready { OnOk result (IsReadyForEach (S.is_ready store.new) slots.now.entries) }
    ensures kept { KeepsReady (S.is_ready store.old) (S.is_ready store.new) }
{
    for (obj, slot) in slots {
        if slot.is_some() {
            store.prepare(*obj)?;
        }
    }
    Ok(())
}

impl Slots {
    pub fn new(alloc: Global) -> Slots
        ensures { result ≡ map.empty }
    {
        Slots {
            slots: BTreeMap::new(alloc),
        }
    }

    /// The words of an object that is there.
    pub fn get(&self, obj: Obj) -> Option<&Words>
        ensures { option_copied result ≡ map.get (objects_in self.now) obj }
    {
        match self.slots.get(&obj) {
            Some(Some(words)) => Some(words),
            Some(None) => None,
            None => None,
        }
    }

    /// Makes a slot for a name, where it has none.
    pub fn make(&mut self, obj: Obj) -> Result<(), AllocError>
        ensures ok { OnOk result (self.new ≡ with_name self.old obj) }
        ensures err { OnErr result (self.new ≡ self.old) }
    {
        if !self.slots.contains_key(&obj) {
            self.slots.insert(obj, None)?;
        }
        Ok(())
    }

    /// Makes a slot for a name.
    pub fn prepare(&mut self, obj: Obj) -> Result<(), AllocError>
        ensures objects { objects_in self.new ≡ objects_in self.old }
        ensures ready { OnOk result (map.contains_key self.new obj ≡ true) }
        ensures kept { KeepsReady (map.contains_key self.old) (map.contains_key self.new) }
    {
        self.make(obj)?;
        Ok(())
    }

    /// Puts into the slot of a name, and takes what was there.
    pub fn replace(&mut self, obj: Obj, slot: Option<Words>) -> Option<Words>
        requires { map.contains_key self.old obj ≡ true }
        ensures before { result ≡ slot_in self.old obj }
        ensures after { self.new ≡ map.insert self.old obj slot }
    {
        match self.slots.insert(obj, slot) {
            Ok(Some(before)) => before,
            Ok(None) => unreachable!(),
            Err(_) => unreachable!(),
        }
    }

    /// Puts into the slot of a name, and drops what was there.
    pub fn set(&mut self, obj: Obj, slot: Option<Words>)
        requires { map.contains_key self.old obj ≡ true }
        ensures { self.new ≡ map.insert self.old obj slot }
    {
        self.replace(obj, slot);
    }

    /// Puts an object into the slot of its name.
    pub fn put(&mut self, obj: Obj, words: Words)
        requires { map.contains_key self.old obj ≡ true }
        ensures objects { objects_in self.new ≡ map.insert (objects_in self.old) obj words }
        ensures kept { KeepsReady (map.contains_key self.old) (map.contains_key self.new) }
    {
        self.replace(obj, Some(words));
    }

    /// Takes an object out of its slot.
    pub fn take(&mut self, obj: Obj) -> Option<Words>
        ensures taken { result ≡ map.get (objects_in self.old) obj }
        ensures objects { objects_in self.new ≡ map.remove (objects_in self.old) obj }
        ensures ready { OnSome result (map.contains_key self.new obj ≡ true) }
        ensures kept { KeepsReady (map.contains_key self.old) (map.contains_key self.new) }
    {
        if self.has(obj) {
            self.replace(obj, None)
        } else {
            None
        }
    }

    /// Takes out a slot with its name, where there is one.
    fn pop_slot(&mut self) -> Option<(Obj, Option<Words>)>
        ensures some { IfSome result
            (λ e. (map.get self.old e.0 ≡ Some e.1) × (self.new ≡ map.remove self.old e.0)) }
        ensures none { IfNone result ((self.old ≡ map.empty) × (self.new ≡ map.empty)) }
    {
        self.slots.pop_first()
    }

    /// Takes out an object with its name, where there is one. It takes no memory.
    pub fn pop(&mut self) -> Option<(Obj, Words)>
        ensures some { IfSome result
            (λ e. (map.get (objects_in self.old) e.0 ≡ Some e.1)
            × (objects_in self.new ≡ map.remove (objects_in self.old) e.0)) }
        ensures none { IfNone result ((objects_in self.old ≡ map.empty) × (objects_in self.new ≡ map.empty)) }
    {
        'slots: while let Some((obj, slot)) = self.pop_slot() {
            if let Some(words) = slot {
                return Some((obj, words));
            }
        }
        None
    }

    /// Makes a store ready for each object. The store's memory stays, whatever the result.
    pub fn prepare_in<S: Store>(&self, store: &mut S) -> Result<(), AllocError>
        ensures memory { S.memory store.new ≡ S.memory store.old }
        ensures ready { OnOk result (AreReady (S.is_ready store.new) self.now) }
        ensures kept { KeepsReady (S.is_ready store.old) (S.is_ready store.new) }
    {
        prepare_each(&self.slots, store)
    }

    /// Whether a name has a slot.
    pub fn has(&self, obj: Obj) -> bool
        ensures { result ≡ map.contains_key self.now obj }
    {
        self.slots.contains_key(&obj)
    }
}
