ghost use Rattle.std.specs.Prelude.{◌≡◌, ◌<◌, ◌^◌, IfOk, length, nat_lt, replicate, slice_get, slice_set, pos};
ghost use Rattle.al_core.specs.declared.values.Val.TheVariants as value;

use crate::packed::PackedValue;
use sqlite_items::Items;
use std::alloc::{AllocError, Global};
use std::marker::Model;

/// The words of an object: at most 4,294,967,295 values. A contract sees them as the list of the values.
#[derive(Drop)]
pub struct Words {
    items: Items<PackedValue>,
}

impl Model for Words {
    ghost use Rattle.std.specs.Prelude.{◌<◌, ◌^◌, List, length};
    ghost use Rattle.al_core.specs.declared.values.Val.{Val};
    ghost use Rattle.al_values.specs.Packing.{words_code};

    ghost Value = { List Val };

    ghost coded = { words_code };

    ghost view = { λ w. w.items };

    ghost invariant = { λ w. length w.items < 2 ^ 32 };
}

impl Words {
    /// So many words, all 0.
    pub fn zeros(alloc: Global, count: u32) -> Result<Words, AllocError>
        ensures { IfOk result (λ w. w ≡ replicate count (value.Int (pos 0))) }
    {
        Ok(Words {
            items: Items::from_vec(vec![in alloc; PackedValue::zero(); count as usize]?),
        })
    }

    /// The words of a list.
    pub fn from_items(items: Items<PackedValue>) -> Words
        requires { length items < 2 ^ 32 }
        ensures { result ≡ items }
    {
        Words { items }
    }

    /// How many words there are.
    #[inline(always)]
    pub fn len(&self) -> u32
        ensures { result ≡ length self.now }
    {
        self.items.len() as u32
    }

    /// The word at an offset, where there is one.
    #[inline(always)]
    pub fn get(&self, at: u32) -> Option<PackedValue>
        ensures { result ≡ slice_get self.now at }
    {
        self.items.get(at as usize).copied()
    }

    /// Puts a value in place of a word, where there is one, and answers whether there is.
    #[inline(always)]
    pub fn put(&mut self, at: u32, value: PackedValue) -> bool
        ensures there { result ≡ nat_lt at (length self.old) }
        ensures after { self.new ≡ slice_set self.old at value }
    {
        if (at as usize) < self.items.len() {
            self.items.set(at as usize, value);
            true
        } else {
            false
        }
    }

    /// All words.
    pub fn as_slice(&self) -> &[PackedValue]
        ensures { result.now ≡ self.now }
    {
        self.items.as_slice()
    }
}
