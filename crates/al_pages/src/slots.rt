ghost use Rattle.std.specs.Prelude.{◌≡◌, ◌<◌, [], Some, None, OnOk, length, slice_set};
ghost use Rattle.std.specs.Option.{option_copied};
ghost use Rattle.al_pages.specs.Tables.{SameSlots, slot_at, with_word, replaced};

use al_core::Trap;
use al_values::{PackedValue, Words};
use std::alloc::{AllocError, Global};
use std::marker::Model;

/// Objects by number. A number may have no object.
#[derive(Drop)]
pub(crate) struct Slots {
    items: Vec<Option<Words>>,
}

impl Model for Slots {
    ghost use Rattle.al_pages.specs.Tables as spec;

    ghost Value = { spec.Slots };

    ghost coded = { spec.slots_code };

    ghost view = { λ s. s.items.items };
}

/// Puts a value in place of a word.
#[inline(always)]
fn put_or_bounds(words: &mut Words, at: u32, value: PackedValue) -> Result<(), Trap>
    ensures found { result ≡ replaced (Some words.old) at }
    ensures after { words.new ≡ slice_set words.old at value }
{
    if words.put(at, value) {
        Ok(())
    } else {
        Err(Trap::Bounds)
    }
}

impl Slots {
    pub fn new(alloc: Global) -> Slots
        ensures { result ≡ [] }
    {
        Slots {
            items: Vec::new(alloc),
        }
    }

    /// The object in a slot.
    #[inline(always)]
    pub fn get(&self, k: usize) -> Option<&Words>
        ensures { option_copied result ≡ slot_at self.now k }
    {
        match self.items.get(k) {
            Some(Some(words)) => Some(words),
            Some(None) => None,
            None => None,
        }
    }

    /// Makes a slot. What is in the slots stays, whatever the result.
    pub fn prepare(&mut self, k: usize) -> Result<(), AllocError>
        ensures same { SameSlots self.old self.new }
        ensures ready { OnOk result (k < length self.new) }
    {
        while self.items.len() <= k {
            self.items.push(None)?;
        }
        Ok(())
    }

    /// Puts a value in place of a word of the object in a slot, or tells why there is none.
    #[inline(always)]
    pub fn overwrite(&mut self, k: usize, at: u32, value: PackedValue) -> Result<(), Trap>
        ensures found { result ≡ replaced (slot_at self.old k) at }
        ensures after { self.new ≡ slice_set self.old k (with_word (slot_at self.old k) at value) }
    {
        if k >= self.items.len() {
            return Err(Trap::Missing);
        }
        match &mut self.items[k] {
            Some(words) => put_or_bounds(words, at, value),
            None => Err(Trap::Missing),
        }
    }

    /// Puts an object into a slot.
    pub fn put(&mut self, k: usize, words: Words)
        requires { k < length self.old }
        ensures { self.new ≡ slice_set self.old k (Some words) }
    {
        self.items[k] = Some(words);
    }

    /// Takes the object out of a slot.
    pub fn take(&mut self, k: usize)
        ensures { self.new ≡ slice_set self.old k None }
    {
        if k < self.items.len() {
            self.items[k] = None;
        }
    }
}
