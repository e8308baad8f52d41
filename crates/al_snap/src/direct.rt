ghost use Rattle.std.specs.Prelude.{◌≡◌, [], None};
ghost use Rattle.al_source.specs.Answers.{Does};
ghost use Rattle.al_core.specs.Access as spec;
ghost use Rattle.al_core.specs.Views.{trapped};

use crate::names::Names;
use al_core::{Addr, Kind, Obj, Trap, Val, View, ViewFault};
use al_heap::Store;
use al_values::{PackedValue, PackedView, Words};
use sqlite_items::Items;
use std::alloc::{AllocError, Global};
use std::mem;

/// A store on which code runs directly.
#[derive(Drop)]
pub struct Direct<S> {
    alloc: Global,
    store: S,
    names: Names,
    printed: Items<u8>,
}

/// Whether a place may be freed: the first word of an object that is no global.
pub(crate) fn is_freeable(obj: Obj, at: u32) -> bool
    ensures { result ≡ spec.is_freeable obj at }
{
    match obj {
        Obj::Global(_) => false,
        Obj::Serial(_) | Obj::Iter(_, _, _) => at == 0,
    }
}

impl<S: Store> Direct<S> {
    /// Code that runs on a store from now on. It takes no memory.
    pub fn begin(alloc: Global, store: S, names: Names) -> Direct<S>
        ensures { ⟦<Direct<S> as View>⟧.content result
            ≡ record { memory = S.memory store; allocations = names; printed = []; accesses = None } }
    {
        Direct {
            alloc,
            store,
            names,
            printed: Items::new(alloc),
        }
    }

    /// Code that goes on on a store, after it has printed these bytes.
    pub fn resume(alloc: Global, store: S, names: Names, printed: Items<u8>) -> Direct<S>
        ensures { ⟦<Direct<S> as View>⟧.content result
            ≡ record { memory = S.memory store; allocations = names; printed = printed; accesses = None } }
    {
        Direct {
            alloc,
            store,
            names,
            printed,
        }
    }

    /// From now on the next objects have these names. It answers those before.
    pub fn swap_names(&mut self, names: Names) -> Names
        ensures before { result ≡ (⟦<Direct<S> as View>⟧.content self.old).allocations }
        ensures after { ⟦<Direct<S> as View>⟧.content self.new
            ≡ record (⟦<Direct<S> as View>⟧.content self.old) { allocations = names } }
    {
        mem::replace(&mut self.names, names)
    }

    /// The store, the names and what was printed.
    pub fn finish(self) -> (S, Names, Items<u8>)
        ensures store { S.memory result.0 ≡ (⟦<Direct<S> as View>⟧.content self).memory }
        ensures names { result.1 ≡ (⟦<Direct<S> as View>⟧.content self).allocations }
        ensures printed { result.2 ≡ (⟦<Direct<S> as View>⟧.content self).printed }
    {
        (self.store, self.names, self.printed)
    }
}

impl<S: Store> View for Direct<S> {
    ghost content = { λ d. record {
      memory = S.memory d.store;
      allocations = d.names;
      printed = d.printed;
      accesses = None;
    } };

    fn load(&mut self, at: Addr, want: Kind) -> Result<Val, ViewFault> {
        match self.load_packed(at, want) {
            Ok(v) => Ok(v.unpack()),
            Err(e) => Err(e),
        }
    }

    fn store(&mut self, at: Addr, val: Val) -> Result<(), ViewFault> {
        match PackedValue::pack(val) {
            Some(value) => self.store_packed(at, value),
            None => Err(ViewFault::Memory),
        }
    }

    #[tactic(auto, unfolding(al_core::specs::Access::make))]
    fn make(&mut self, words: u32) -> Result<Obj, ViewFault> {
        let obj = self.names.allocate(words).map_err(ViewFault::Trap)?;
        self.store.prepare(obj)?;
        self.store.add(obj, Words::zeros(self.alloc, words)?);
        Ok(obj)
    }

    #[tactic(auto, unfolding(al_core::specs::Access::free))]
    fn free(&mut self, obj: Obj, at: u32) -> Result<(), ViewFault> {
        if !is_freeable(obj, at) {
            return Err(ViewFault::Trap(Trap::BadFree));
        }
        if self.store.length(obj).is_none() {
            return Err(ViewFault::Trap(Trap::Freed));
        }
        self.store.remove(obj);
        Ok(())
    }

    #[tactic(auto, unfolding(al_core::specs::Access::print))]
    fn print(&mut self, bytes: &[u8]) -> Result<(), AllocError> {
        self.printed.append(Items::from_slice(self.alloc, bytes)?)
    }
}

impl<S: Store> PackedView for Direct<S> {
    #[tactic(auto, unfolding(al_core::specs::Access::load))]
    #[inline(always)]
    fn load_packed(&mut self, at: Addr, want: Kind) -> Result<PackedValue, ViewFault> {
        match at {
            Addr::Word(obj, w) => match self.store.read(obj, w) {
                Ok(v) => v.of_kind(want).map_err(ViewFault::Trap),
                Err(t) => Err(ViewFault::Trap(t)),
            },
            Addr::Head(_) => Err(ViewFault::Trap(Trap::Missing)),
            Addr::Local(k) => match self.store.local(k) {
                Some(v) => Ok(v),
                None => Err(ViewFault::Trap(Trap::Missing)),
            },
        }
    }

    #[tactic(auto, unfolding(al_core::specs::Access::store))]
    #[inline(always)]
    fn store_packed(&mut self, at: Addr, value: PackedValue) -> Result<(), ViewFault> {
        match at {
            Addr::Word(obj, w) => self.store.overwrite(obj, w, value).map_err(ViewFault::Trap),
            Addr::Head(_) => Err(ViewFault::Trap(Trap::Missing)),
            Addr::Local(k) => {
                if self.store.local(k).is_none() {
                    return Err(ViewFault::Trap(Trap::Missing));
                }
                self.store.put_local(k, value);
                Ok(())
            }
        }
    }
}
