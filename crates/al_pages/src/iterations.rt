ghost use Rattle.std.specs.Prelude.{◌≡◌, ℕ, ◌<◌, [], Some, None, OnOk, length};
ghost use Rattle.std.specs.Option.{option_copied};
ghost use Rattle.al_pages.specs.Tables.{SameRows, list_at, set_in_row, slot_at, with_word, replaced};

use crate::slots::Slots;
use al_core::Trap;
use al_values::{PackedValue, Words};
use std::alloc::{AllocError, Global};
use std::marker::Model;

/// The objects of the iterations of one execution, by iteration and number.
#[derive(Drop)]
pub(crate) struct Iterations {
    rows: Vec<Slots>,
}

impl Model for Iterations {
    ghost use Rattle.std.specs.Prelude.{List};
    ghost use Rattle.al_pages.specs.Tables as spec;

    ghost Value = { List spec.Slots };

    ghost coded = { spec.rows_code };

    ghost view = { λ s. s.rows.items };
}

impl Iterations {
    pub fn new(alloc: Global) -> Iterations
        ensures { result ≡ [] }
    {
        Iterations {
            rows: Vec::new(alloc),
        }
    }

    pub fn get(&self, j: usize, k: usize) -> Option<&Words>
        ensures { option_copied result ≡ slot_at (list_at self.now j) k }
    {
        match self.rows.get(j) {
            Some(row) => row.get(k),
            None => None,
        }
    }

    /// Makes the row of a number. What is in the slots stays, whatever the result.
    fn grow(&mut self, alloc: Global, j: usize) -> Result<(), AllocError>
        ensures same { (i : ℕ) → list_at self.new i ≡ list_at self.old i }
        ensures ready { OnOk result (j < length self.new) }
    {
        'rows: while self.rows.len() <= j {
            self.rows.push(Slots::new(alloc))?;
        }
        Ok(())
    }

    /// Makes a slot. What is in the slots stays, whatever the result.
    pub fn prepare(&mut self, alloc: Global, j: usize, k: usize) -> Result<(), AllocError>
        ensures same { SameRows self.old self.new }
        ensures ready { OnOk result (k < length (list_at self.new j)) }
    {
        self.grow(alloc, j)?;
        self.rows[j].prepare(k)
    }

    /// Puts a value in place of a word of the object in a slot, or tells why there is none.
    pub fn overwrite(&mut self, j: usize, k: usize, at: u32, value: PackedValue) -> Result<(), Trap>
        ensures found { result ≡ replaced (slot_at (list_at self.old j) k) at }
        ensures after { self.new ≡ set_in_row self.old j k (with_word (slot_at (list_at self.old j) k) at value) }
    {
        if j >= self.rows.len() {
            return Err(Trap::Missing);
        }
        self.rows[j].overwrite(k, at, value)
    }

    /// Puts an object into a slot.
    pub fn put(&mut self, j: usize, k: usize, words: Words)
        requires { k < length (list_at self.old j) }
        ensures { self.new ≡ set_in_row self.old j k (Some words) }
    {
        self.rows[j].put(k, words);
    }

    /// Takes the object out of a slot.
    pub fn take(&mut self, j: usize, k: usize)
        ensures { self.new ≡ set_in_row self.old j k None }
    {
        if j < self.rows.len() {
            self.rows[j].take(k);
        }
    }
}
