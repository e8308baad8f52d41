ghost use Rattle.std.specs.Prelude.{◌≡◌, Bool, true, [], OnOk};
ghost use Rattle.std.specs.Option.{option_copied};
ghost use Rattle.std.specs.FinMap as map;
ghost use Rattle.al_core.specs.Memory as spec;
ghost use Rattle.al_core.specs.Memory.{Memory, length_at, value_at};
ghost use Rattle.al_core.specs.declared.values.Obj.{Obj};
ghost use Rattle.al_core.specs.declared.values.Addr.TheVariants.{Word, Local};
ghost use Rattle.al_heap.specs.Stores.{KeepsReady, read_word, overwritten, page_in};

use al_core::{Obj, Trap};
use al_values::{PackedValue, Words};
use sqlite_items::Items;
use std::alloc::AllocError;

/// What keeps a memory. No call but `prepare` takes memory.
pub trait Store {
    ghost memory: { Self → Memory };

    /// Whether an object of the name can be added without memory.
    ghost is_ready: { Self → Obj → Bool };

    /// How many words an object has, where it is present.
    fn length(&self, obj: Obj) -> Option<u32>
        ensures { result ≡ length_at (memory self.now) obj };

    /// A word, where there is one.
    fn word(&self, obj: Obj, at: u32) -> Option<PackedValue>
        ensures { result ≡ value_at (memory self.now) (Word obj at) };

    /// A shared local, where there is one.
    fn local(&self, k: u32) -> Option<PackedValue>
        ensures { result ≡ value_at (memory self.now) (Local k) };

    /// A word, or why there is none: `Missing` or `Bounds`.
    fn read(&self, obj: Obj, at: u32) -> Result<PackedValue, Trap>
        ensures { result ≡ read_word (memory self.now) obj at };

    /// The words of a page of an object: 64 words from 64 times the number on, or as many of them as there are, if
    /// there is one.
    fn page(&self, obj: Obj, number: u32) -> Option<&[PackedValue]>
        ensures { option_copied result ≡ page_in (map.get (memory self.now).objects obj) number };

    /// Makes ready for an object of that name to be added. The memory stays, whatever the result.
    fn prepare(&mut self, obj: Obj) -> Result<(), AllocError>
        ensures memory { memory self.new ≡ memory self.old }
        ensures ready { OnOk result (is_ready self.new obj ≡ true) }
        ensures kept { KeepsReady (is_ready self.old) (is_ready self.new) };

    /// Puts a value in place of a word, where there is one.
    fn put_word(&mut self, obj: Obj, at: u32, value: PackedValue)
        ensures memory { memory self.new ≡ spec.put (memory self.old) (Word obj at) value }
        ensures kept { KeepsReady (is_ready self.old) (is_ready self.new) };

    /// Puts a value in place of a word, or tells why there is none: `Missing` or `Bounds`.
    fn overwrite(&mut self, obj: Obj, at: u32, value: PackedValue) -> Result<(), Trap>
        ensures memory { (result, memory self.new) ≡ overwritten (memory self.old) obj at value }
        ensures kept { KeepsReady (is_ready self.old) (is_ready self.new) };

    /// Puts a value in place of a shared local, where there is one.
    fn put_local(&mut self, k: u32, value: PackedValue)
        ensures memory { memory self.new ≡ spec.put (memory self.old) (Local k) value }
        ensures kept { KeepsReady (is_ready self.old) (is_ready self.new) };

    /// Adds an object, in place of one of its name.
    fn add(&mut self, obj: Obj, words: Words)
        requires { is_ready self.old obj ≡ true }
        ensures memory { memory self.new ≡ spec.add (memory self.old) obj words }
        ensures kept { KeepsReady (is_ready self.old) (is_ready self.new) };

    /// Takes an object out, where it is present.
    fn remove(&mut self, obj: Obj)
        ensures memory { memory self.new ≡ spec.remove (memory self.old) obj }
        ensures kept { KeepsReady (is_ready self.old) (is_ready self.new) };

    /// Sets the shared locals.
    fn set_locals(&mut self, locals: Items<PackedValue>)
        ensures memory { memory self.new ≡ record (memory self.old) { locals = locals } }
        ensures kept { KeepsReady (is_ready self.old) (is_ready self.new) };

    /// Takes the shared locals out, and leaves none.
    fn take_locals(&mut self) -> Items<PackedValue>
        ensures taken { result ≡ (memory self.old).locals }
        ensures memory { memory self.new ≡ record (memory self.old) { locals = [] } }
        ensures kept { KeepsReady (is_ready self.old) (is_ready self.new) };
}
