ghost use Rattle.std.specs.Prelude.{◌≡◌, true, false, OnOk, IfOk, Ok, Err, IsSome, [], ◌∷◌, ◌++◌, if◌then◌else◌, option_map, unwrap_or, slice_get};
ghost use Rattle.al_core.specs.Orders.{obj_eq};
ghost use Rattle.al_core.specs.Memory.{value_at};
ghost use Rattle.al_core.specs.declared.values.Addr.TheVariants.{Word, Head, Local};
ghost use Rattle.al_core.specs.declared.values.Trap.TheVariants as trap;
ghost use Rattle.std.specs.FinMap as map;
ghost use Rattle.std.specs.FinSet as set;
ghost use Rattle.al_core.specs.Memory as spec;
ghost use Rattle.al_core.specs.Chunk.{writes_of, made_objects};
ghost use Rattle.al_heap.specs.Stores.{value_or_trap, objects_in};
ghost use Rattle.al_snap.specs.Layers.{is_among, laid, option_ok_or, word_or_trap, own_has, made_by, seen, over, touched_unless};
ghost use Rattle.al_snap.specs.Changes.{writes_left};

use al_core::{Addr, Obj, Trap};
use al_heap::{Slots, Store};
use al_sets::{AddrMap, AddrSet};
use al_values::{PackedValue, Words};
use sqlite_items::Items;
use std::alloc::{AllocError, Global};
use std::marker::Model;

/// What a chunk did to a store.
#[derive(Drop)]
pub(crate) struct Parts {
    pub writes: AddrMap,
    pub touched: AddrSet,
    pub freed: Items<Obj>,
    pub own: Slots,
}

/// What a chunk sees at an address.
#[derive(Drop)]
pub(crate) struct Sight {
    /// The value, or why there is none.
    pub value: Result<PackedValue, Trap>,
    /// Whether it is a word of an own object, also of one that was freed again.
    pub own: bool,
    /// Whether the value was written over one of the store.
    pub written: bool,
}

/// A store under what a chunk does to it. The store itself is only read.
#[derive(Drop)]
pub(crate) struct Layers<'a, S: Store> {
    base: &'a S,
    writes: AddrMap,
    touched: AddrSet,
    freed: Items<Obj>,
    own: Slots,
}

impl<'a, S: Store> Model for Layers<'a, S> {
    ghost use Rattle.al_snap.specs.Layers as layers;

    ghost Value = { layers.Layers };

    ghost coded = { layers.layers_code };

    ghost view = { λ l. record {
      base = S.memory l.base.now;
      writes = l.writes;
      touched = l.touched.members;
      freed = l.freed;
      own = l.own;
    } };

    ghost invariant = { λ l. layers.Fits (record {
      base = S.memory l.base.now;
      writes = l.writes;
      touched = l.touched.members;
      freed = l.freed;
      own = l.own;
    }) };
}

/// Nothing is seen, and this is why.
fn nothing(t: Trap) -> Sight
    ensures { result ≡ record { value = Err t; own = false; written = false } }
{
    Sight {
        value: Err(t),
        own: false,
        written: false,
    }
}

fn is_same(a: Obj, b: Obj) -> bool
    ensures { result ≡ obj_eq a b }
{
    a == b
}

/// Whether an object is in a list.
fn is_among_them(objects: &[Obj], obj: Obj) -> bool
    ensures { result ≡ is_among objects.now obj }
{
    for o in objects {
        if is_same(obj, *o) {
            return true;
        }
    }
    false
}

impl<'a, S: Store> Layers<'a, S> {
    /// Nothing was done to the store yet.
    pub fn new(alloc: Global, base: &'a S) -> Layers<'a, S>
        ensures { result ≡ over (S.memory base.now) }
    {
        Layers {
            base,
            writes: AddrMap::new(alloc),
            touched: AddrSet::new(alloc),
            freed: Items::new(alloc),
            own: Slots::new(alloc),
        }
    }

    /// Whether an object of the store was freed.
    fn is_freed(&self, obj: Obj) -> bool
        ensures { result ≡ is_among self.now.freed obj }
    {
        is_among_them(self.freed.as_slice(), obj)
    }

    /// A word of an own object.
    fn own_word(&self, obj: Obj, w: u32) -> Result<PackedValue, Trap>
        ensures { result ≡ word_or_trap (map.get (objects_in self.now.own) obj) w }
    {
        match self.own.get(obj) {
            Some(words) => words.get(w).ok_or(Trap::Bounds),
            None => Err(Trap::Missing),
        }
    }

    /// What is seen at an address that is no head, where the store has a value.
    fn below(&self, at: Addr, v: PackedValue) -> Sight
        ensures value { result.value ≡ Ok (unwrap_or (map.get self.now.writes at) v) }
        ensures own { result.own ≡ false }
        ensures written { result.written ≡ map.contains_key self.now.writes at }
    {
        let over = self.writes.get(at);
        Sight {
            value: Ok(over.unwrap_or(v)),
            own: false,
            written: over.is_some(),
        }
    }

    /// What is seen at a word of an object of the store.
    fn below_word(&self, obj: Obj, w: u32) -> Sight
        ensures value { result.value
            ≡ word_or_trap (option_map (laid self.now.writes (Word obj) 0) (map.get self.now.base.objects obj)) w }
        ensures own { result.own ≡ false }
        ensures written { IfOk result.value (λ _. result.written ≡ set.contains self.now.touched (Word obj w)) }
    {
        match self.base.read(obj, w) {
            Ok(v) => self.below(Addr::Word(obj, w), v),
            Err(t) => nothing(t),
        }
    }

    fn word(&self, obj: Obj, w: u32) -> Sight
        ensures value { result.value ≡ word_or_trap (map.get (seen self.now).objects obj) w }
        ensures own { result.own ≡ own_has self.now (Word obj w) }
        ensures written { result.own ≡ false
            → IfOk result.value (λ _. result.written ≡ set.contains self.now.touched (Word obj w)) }
    {
        if self.own.has(obj) {
            Sight {
                value: self.own_word(obj, w),
                own: true,
                written: false,
            }
        } else if self.is_freed(obj) {
            nothing(Trap::Missing)
        } else {
            self.below_word(obj, w)
        }
    }

    fn local(&self, k: u32) -> Sight
        ensures value { result.value ≡ option_ok_or trap.Missing (slice_get (seen self.now).locals k) }
        ensures own { result.own ≡ false }
        ensures written { IfOk result.value (λ _. result.written ≡ set.contains self.now.touched (Local k)) }
    {
        match self.base.local(k) {
            Some(v) => self.below(Addr::Local(k), v),
            None => nothing(Trap::Missing),
        }
    }

    /// What is seen at an address.
    pub fn look(&self, at: Addr) -> Sight
        ensures value { result.value ≡ value_or_trap (seen self.now) at (value_at (seen self.now) at) }
        ensures own { result.own ≡ own_has self.now at }
        ensures written { result.own ≡ false
            → IfOk result.value (λ _. result.written ≡ set.contains self.now.touched at) }
    {
        match at {
            Addr::Word(obj, w) => self.word(obj, w),
            Addr::Head(_) => nothing(Trap::Missing),
            Addr::Local(k) => self.local(k),
        }
    }

    /// Whether an address is a word of an own object, also of one that was freed again.
    pub fn is_own(&self, at: Addr) -> bool
        ensures { result ≡ own_has self.now at }
    {
        match at {
            Addr::Word(obj, _) => self.own.has(obj),
            Addr::Head(_) | Addr::Local(_) => false,
        }
    }

    /// Whether an object is there.
    pub fn has_object(&self, obj: Obj) -> bool
        ensures { result ≡ spec.has_object (seen self.now) obj }
    {
        if self.own.has(obj) {
            self.own.get(obj).is_some()
        } else if self.is_freed(obj) {
            false
        } else {
            self.base.length(obj).is_some()
        }
    }

    /// The addresses that were written: words and locals, and the heads of objects that were made or freed.
    pub fn touched(&self) -> &AddrSet
        ensures { result.now.members ≡ self.now.touched }
    {
        &self.touched
    }

    /// Puts a value in place of a word of an own object.
    fn put_own(&mut self, obj: Obj, w: u32, v: PackedValue)
        requires { map.contains_key self.old.own obj ≡ true }
        ensures seen { seen self.new ≡ spec.put (seen self.old) (Word obj w) v }
        ensures made { made_by self.new.own ≡ made_by self.old.own }
        ensures freed { self.new.freed ≡ self.old.freed }
        ensures touched { self.new.touched ≡ self.old.touched }
    {
        if let Some(mut words) = self.own.replace(obj, None) {
            words.put(w, v);
            self.own.set(obj, Some(words));
        }
    }

    /// Puts a value in place of the one at an address.
    pub fn put(&mut self, at: Addr, v: PackedValue) -> Result<(), AllocError>
        requires { IsSome (value_at (seen self.old) at) }
        ensures seen { OnOk result (seen self.new ≡ spec.put (seen self.old) at v) }
        ensures made { OnOk result (made_by self.new.own ≡ made_by self.old.own) }
        ensures freed { OnOk result (self.new.freed ≡ self.old.freed) }
        ensures touched { OnOk result
            (self.new.touched ≡ touched_unless (own_has self.old at) self.old.touched at) }
    {
        if self.is_own(at) {
            if let Addr::Word(obj, w) = at {
                self.put_own(obj, w, v);
            }
            Ok(())
        } else {
            self.touched.reserve(1)?;
            self.writes.insert(at, v)?;
            self.touched.insert(at)?;
            Ok(())
        }
    }

    /// Adds an own object, and touches its head. One of a name that the store has is answered as want of memory; no run
    /// makes one.
    pub fn add(&mut self, obj: Obj, words: Words) -> Result<(), AllocError>
        ensures seen { OnOk result (seen self.new ≡ spec.add (seen self.old) obj words) }
        ensures made { OnOk result (made_by self.new.own ≡ set.insert (made_by self.old.own) obj) }
        ensures freed { OnOk result (self.new.freed ≡ self.old.freed) }
        ensures touched { OnOk result (self.new.touched ≡ set.insert self.old.touched (Head obj)) }
    {
        if self.base.length(obj).is_some() {
            return Err(AllocError);
        }
        self.touched.insert(Addr::Head(obj))?;
        self.own.make(obj)?;
        self.own.set(obj, Some(words));
        Ok(())
    }

    /// Takes an object out, and touches its head where it is not an own one.
    pub fn remove(&mut self, obj: Obj) -> Result<(), AllocError>
        ensures seen { OnOk result (seen self.new ≡ spec.remove (seen self.old) obj) }
        ensures made { OnOk result (made_by self.new.own ≡ made_by self.old.own) }
        ensures freed { OnOk result
            (self.new.freed
            ≡ (if set.contains (made_by self.old.own) obj then self.old.freed else self.old.freed ++ obj ∷ [])) }
        ensures touched { OnOk result
            (self.new.touched ≡ touched_unless (set.contains (made_by self.old.own) obj) self.old.touched (Head obj)) }
    {
        if self.own.has(obj) {
            self.own.set(obj, None);
            Ok(())
        } else {
            self.touched.insert(Addr::Head(obj))?;
            self.freed.push(obj)?;
            Ok(())
        }
    }

    /// What was done, without the store.
    pub fn into_parts(self) -> Parts
        ensures writes { writes_left result.writes result.freed ≡ writes_of (seen self.entry) self.entry.touched }
        ensures touched { result.touched.members ≡ self.entry.touched }
        ensures freed { result.freed ≡ self.entry.freed }
        ensures made { objects_in result.own ≡ made_objects (seen self.entry) (made_by self.entry.own) }
    {
        Parts {
            writes: self.writes,
            touched: self.touched,
            freed: self.freed,
            own: self.own,
        }
    }
}
