ghost use Rattle.std.specs.Prelude.{◌≡◌, true, [], Some, None, OnOk};
ghost use Rattle.std.specs.Option.{option_copied};
ghost use Rattle.al_pages.specs.Tables.{SameObjects, object_at, has_slot, set_object, with_word, replaced};

use crate::executions::Executions;
use crate::slots::Slots;
use al_core::{Obj, Trap};
use al_values::{PackedValue, Words};
use std::alloc::{AllocError, Global};
use std::marker::Model;

/// Objects by the numbers of their names.
#[derive(Drop)]
pub(crate) struct Objects {
    alloc: Global,
    globals: Slots,
    serial: Slots,
    executions: Executions,
}

impl Model for Objects {
    ghost use Rattle.al_pages.specs.Tables.{Table, table_code};

    ghost Value = { Table };

    ghost coded = { table_code };

    ghost view = { λ t. record { globals = t.globals; serial = t.serial; executions = t.executions } };
}

impl Objects {
    pub fn new(alloc: Global) -> Objects
        ensures { result ≡ record { globals = []; serial = []; executions = [] } }
    {
        Objects {
            alloc,
            globals: Slots::new(alloc),
            serial: Slots::new(alloc),
            executions: Executions::new(alloc),
        }
    }

    /// The words of an object, where it is there.
    #[inline(always)]
    pub fn get(&self, obj: Obj) -> Option<&Words>
        ensures { option_copied result ≡ object_at self.now obj }
    {
        match obj {
            Obj::Global(k) => self.globals.get(k as usize),
            Obj::Serial(k) => self.serial.get(k as usize),
            Obj::Iter(e, j, k) => self.executions.get(e as usize, j as usize, k as usize),
        }
    }

    /// Makes a slot for a name. What is in the slots stays, whatever the result.
    pub fn prepare(&mut self, obj: Obj) -> Result<(), AllocError>
        ensures same { SameObjects self.old self.new }
        ensures ready { OnOk result (has_slot self.new obj ≡ true) }
    {
        match obj {
            Obj::Global(k) => self.globals.prepare(k as usize),
            Obj::Serial(k) => self.serial.prepare(k as usize),
            Obj::Iter(e, j, k) => {
                self.executions
                    .prepare(self.alloc, e as usize, j as usize, k as usize)
            }
        }
    }

    /// Puts a value in place of a word, or tells why there is none.
    #[inline(always)]
    pub fn overwrite(&mut self, obj: Obj, at: u32, value: PackedValue) -> Result<(), Trap>
        ensures found { result ≡ replaced (object_at self.old obj) at }
        ensures after { self.new ≡ set_object self.old obj (with_word (object_at self.old obj) at value) }
    {
        match obj {
            Obj::Global(k) => self.globals.overwrite(k as usize, at, value),
            Obj::Serial(k) => self.serial.overwrite(k as usize, at, value),
            Obj::Iter(e, j, k) => {
                self.executions
                    .overwrite(e as usize, j as usize, k as usize, at, value)
            }
        }
    }

    /// Puts an object into the slot of its name.
    pub fn put(&mut self, obj: Obj, words: Words)
        requires { has_slot self.old obj ≡ true }
        ensures { self.new ≡ set_object self.old obj (Some words) }
    {
        match obj {
            Obj::Global(k) => self.globals.put(k as usize, words),
            Obj::Serial(k) => self.serial.put(k as usize, words),
            Obj::Iter(e, j, k) => self
                .executions
                .put(e as usize, j as usize, k as usize, words),
        }
    }

    /// Takes an object out of its slot.
    pub fn take(&mut self, obj: Obj)
        ensures { self.new ≡ set_object self.old obj None }
    {
        match obj {
            Obj::Global(k) => self.globals.take(k as usize),
            Obj::Serial(k) => self.serial.take(k as usize),
            Obj::Iter(e, j, k) => self.executions.take(e as usize, j as usize, k as usize),
        }
    }
}
