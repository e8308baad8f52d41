ghost use Rattle.std.specs.Prelude.{◌≡◌, ℕ, ◌<◌, [], Some, None, OnOk, length};
ghost use Rattle.std.specs.Option.{option_copied};
ghost use Rattle.al_pages.specs.Tables.{SameTables, list_at, set_in_table, slot_at, with_word, replaced};

use crate::iterations::Iterations;
use al_core::Trap;
use al_values::{PackedValue, Words};
use std::alloc::{AllocError, Global};
use std::marker::Model;

/// The objects of iterations, by execution, iteration and number.
#[derive(Drop)]
pub(crate) struct Executions {
    tables: Vec<Iterations>,
}

impl Model for Executions {
    ghost use Rattle.std.specs.Prelude.{List};
    ghost use Rattle.al_pages.specs.Tables as spec;

    ghost Value = { List (List spec.Slots) };

    ghost coded = { spec.tables_code };

    ghost view = { λ s. s.tables.items };
}

impl Executions {
    pub fn new(alloc: Global) -> Executions
        ensures { result ≡ [] }
    {
        Executions {
            tables: Vec::new(alloc),
        }
    }

    pub fn get(&self, e: usize, j: usize, k: usize) -> Option<&Words>
        ensures { option_copied result ≡ slot_at (list_at (list_at self.now e) j) k }
    {
        match self.tables.get(e) {
            Some(table) => table.get(j, k),
            None => None,
        }
    }

    /// Makes the table of a number. What is in the slots stays, whatever the result.
    fn grow(&mut self, alloc: Global, e: usize) -> Result<(), AllocError>
        ensures same { (i : ℕ) → list_at self.new i ≡ list_at self.old i }
        ensures ready { OnOk result (e < length self.new) }
    {
        'tables: while self.tables.len() <= e {
            self.tables.push(Iterations::new(alloc))?;
        }
        Ok(())
    }

    /// Makes a slot. What is in the slots stays, whatever the result.
    pub fn prepare(&mut self, alloc: Global, e: usize, j: usize, k: usize) -> Result<(), AllocError>
        ensures same { SameTables self.old self.new }
        ensures ready { OnOk result (k < length (list_at (list_at self.new e) j)) }
    {
        self.grow(alloc, e)?;
        self.tables[e].prepare(alloc, j, k)
    }

    /// Puts a value in place of a word of the object in a slot, or tells why there is none.
    pub fn overwrite(
        &mut self,
        e: usize,
        j: usize,
        k: usize,
        at: u32,
        value: PackedValue,
    ) -> Result<(), Trap>
        ensures found { result ≡ replaced (slot_at (list_at (list_at self.old e) j) k) at }
        ensures after { self.new
            ≡ set_in_table self.old e j k (with_word (slot_at (list_at (list_at self.old e) j) k) at value) }
    {
        if e >= self.tables.len() {
            return Err(Trap::Missing);
        }
        self.tables[e].overwrite(j, k, at, value)
    }

    /// Puts an object into a slot.
    pub fn put(&mut self, e: usize, j: usize, k: usize, words: Words)
        requires { k < length (list_at (list_at self.old e) j) }
        ensures { self.new ≡ set_in_table self.old e j k (Some words) }
    {
        self.tables[e].put(j, k, words);
    }

    /// Takes the object out of a slot.
    pub fn take(&mut self, e: usize, j: usize, k: usize)
        ensures { self.new ≡ set_in_table self.old e j k None }
    {
        if e < self.tables.len() {
            self.tables[e].take(j, k);
        }
    }
}
