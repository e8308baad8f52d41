ghost use Rattle.std.specs.Prelude.{◌≡◌, IfOk, OnOk};
ghost use Rattle.std.specs.Option.{option_copied};
ghost use Rattle.std.specs.FinMap as map;
ghost use Rattle.al_core.specs.Memory as spec;
ghost use Rattle.al_core.specs.Access as access;

use crate::objects::Objects;
use crate::words::{get_at, set_at, word_in};
use al_core::{Addr, Kind, Obj, Trap, Val, of_kind};
use sqlite_items::Items;
use std::alloc::{AllocError, Global};
use std::marker::Model;

/// The words of each present object and, while an annotated loop runs, the locals that its iterations share.
#[derive(Drop)]
pub struct Memory {
    objects: Objects,
    locals: Items<Val>,
}

impl Model for Memory {
    ghost use Rattle.al_core.specs.Memory.{Memory};
    ghost use Rattle.al_plain.specs.Codes.{memory_code};

    ghost Value = { Memory };

    ghost coded = { memory_code };

    ghost view = { λ m. record { objects = m.objects; locals = m.locals } };
}

/// A word is read as a value of a kind. A local holds a value of its own kind.
pub fn read_as(at: Addr, want: Kind, v: Val) -> Result<Val, Trap>
    ensures { result ≡ access.read_as at want v }
{
    match at {
        Addr::Word(_, _) => of_kind(want, v),
        Addr::Head(_) | Addr::Local(_) => Ok(v),
    }
}

impl Memory {
    pub fn new(objects: Objects, locals: Items<Val>) -> Memory
        ensures { result ≡ record { objects = objects; locals = locals } }
    {
        Memory { objects, locals }
    }

    /// Sets the shared locals, and answers those before.
    pub fn set_locals(&mut self, locals: Items<Val>) -> Items<Val>
        ensures before { result ≡ self.old.locals }
        ensures after { self.new ≡ record self.old { locals = locals } }
    {
        std::mem::replace(&mut self.locals, locals)
    }

    pub fn has_object(&self, o: Obj) -> bool
        ensures { result ≡ spec.has_object self.now o }
    {
        self.objects.get(o).is_some()
    }

    pub fn value_at(&self, at: Addr) -> Option<Val>
        ensures { result ≡ spec.value_at self.now at }
    {
        match at {
            Addr::Word(o, w) => word_in(self.objects.get(o), w),
            Addr::Head(_) => None,
            Addr::Local(k) => get_at(&self.locals, k),
        }
    }

    /// Puts a value in place of the one at an address. Where there is none, nothing changes.
    pub fn put(&mut self, at: Addr, v: Val) -> Result<(), AllocError>
        ensures { OnOk result (self.new ≡ spec.put self.old at v) }
    {
        match at {
            Addr::Word(o, w) => self.objects.set_word(o, w, v),
            Addr::Head(_) => Ok(()),
            Addr::Local(k) => {
                set_at(&mut self.locals, k, v);
                Ok(())
            }
        }
    }

    pub fn add(&mut self, o: Obj, words: Items<Val>) -> Result<(), AllocError>
        ensures { OnOk result (self.new ≡ spec.add self.old o words) }
    {
        self.objects.insert(o, words)
    }

    /// Takes an object out.
    pub fn remove(&mut self, o: Obj)
        ensures { self.new ≡ spec.remove self.old o }
    {
        let _words = self.objects.take(o);
    }

    /// The words of an object that is there.
    pub fn words(&self, o: Obj) -> Option<&Items<Val>>
        ensures { option_copied result ≡ map.get self.now.objects o }
    {
        self.objects.get(o)
    }

    /// Why an address has no value.
    pub fn missing_or_outside(&self, at: Addr) -> Trap
        ensures { result ≡ access.missing_or_outside self.now at }
    {
        match at {
            Addr::Word(o, _) if self.has_object(o) => Trap::Bounds,
            _ => Trap::Missing,
        }
    }

    pub fn load(&self, at: Addr, want: Kind) -> Result<Val, Trap>
        ensures { result ≡ access.load_in self.now at want }
    {
        match self.value_at(at) {
            Some(v) => read_as(at, want, v),
            None => Err(self.missing_or_outside(at)),
        }
    }

    pub fn copy(&self, alloc: Global) -> Result<Memory, AllocError>
        ensures { IfOk result (λ m. m ≡ self.now) }
    {
        Ok(Memory {
            objects: self.objects.copy(alloc)?,
            locals: Items::from_slice(alloc, self.locals.as_slice())?,
        })
    }
}
