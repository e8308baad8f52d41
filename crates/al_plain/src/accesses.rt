ghost use Rattle.std.specs.Prelude.{◌≡◌, slice_get, slice_set, Some, IfOk, OnOk};
ghost use Rattle.al_core.specs.Access as spec;
ghost use Rattle.al_core.specs.Action.{or_zero};
ghost use Rattle.al_core.specs.Orders.{addr_eq};
ghost use Rattle.al_core.specs.Chunk.{fresh_accesses};

use crate::addresses::Addresses;
use crate::names::Names;
use al_core::{Addr, Obj, Red, Val, red_identity};
use sqlite_items::{Items, at};
use std::alloc::{AllocError, Global};
use std::marker::Model;

/// What a chunk records: what it read before it wrote it, what it wrote, what it made, which other objects it freed,
/// and the accumulators of its reductions.
#[derive(Drop)]
pub struct Accesses {
    pub reads: Addresses,
    pub touched: Addresses,
    pub made: Names,
    pub freed: Items<Obj>,
    pub reds: Items<Red>,
    pub accumulators: Items<Val>,
}

impl Model for Accesses {
    ghost use Rattle.al_core.specs.Access.{AccessRecord};
    ghost use Rattle.al_plain.specs.Codes.{accesses_code};

    ghost Value = { AccessRecord };

    ghost coded = { accesses_code };

    ghost view = { λ a. record {
      reads = a.reads;
      touched = a.touched;
      made = a.made;
      freed = a.freed;
      reds = a.reds;
      accumulators = a.accumulators;
    } };
}

/// The identity in each accumulator.
fn identities(alloc: Global, reds: &[Red]) -> Result<Items<Val>, AllocError>
    ensures { IfOk result (λ all. all ≡ (fresh_accesses reds.now).accumulators) }
{
    let mut all = Items::new(alloc);
    for r in reds {
        all.push(Val::Int(red_identity(r.op)))?;
    }
    Ok(all)
}

fn is_same(a: Addr, b: Addr) -> bool
    ensures { result ≡ addr_eq a b }
{
    a == b
}

/// The place of a reduction variable among the reductions.
#[tactic(auto, using(crate::proofs::Indices::one_later, crate::proofs::Indices::from_none))]
fn index_of(reds: &[Red], at: Addr) -> Option<usize>
    ensures { result ≡ spec.red_index reds.now at }
{
    for (i, r) in reds.iter().enumerate() {
        if is_same(r.at, at) {
            return Some(i);
        }
    }
    None
}

impl Accesses {
    /// Nothing is recorded yet.
    pub fn fresh(alloc: Global, reds: &[Red]) -> Result<Accesses, AllocError>
        ensures { IfOk result (λ a. a ≡ fresh_accesses reds.now) }
    {
        Ok(Accesses {
            reads: Addresses::new(alloc),
            touched: Addresses::new(alloc),
            made: Names::new(alloc),
            freed: Items::new(alloc),
            reds: Items::from_slice(alloc, reds)?,
            accumulators: identities(alloc, reds)?,
        })
    }

    pub fn index_of(&self, at: Addr) -> Option<usize>
        ensures { result ≡ spec.red_index self.now.reds at }
    {
        index_of(self.reds.as_slice(), at)
    }

    /// An accumulator, and 0 where there is none.
    pub fn accumulator(&self, i: usize) -> Val
        ensures { result ≡ or_zero (slice_get self.now.accumulators i) }
    {
        match at(self.accumulators.as_slice(), i) {
            Some(v) => *v,
            None => Val::Int(0),
        }
    }

    pub fn set_accumulator(&mut self, i: usize, v: Val)
        ensures { self.new ≡ record self.old { accumulators = slice_set self.old.accumulators i v } }
    {
        if i < self.accumulators.len() {
            self.accumulators.set(i, v);
        }
    }

    /// Whether an address is a word of an object that the chunk made.
    pub fn is_own(&self, at: Addr) -> bool
        ensures { result ≡ spec.is_own self.now at }
    {
        match at {
            Addr::Word(o, _) => self.made.contains(o),
            Addr::Head(_) | Addr::Local(_) => false,
        }
    }

    /// An access to a word reads the object's head.
    fn record_head(&mut self, at: Addr) -> Result<(), AllocError>
        ensures { OnOk result (self.new ≡ spec.with_head self.old at) }
    {
        match at {
            Addr::Word(o, _) => self.reads.insert(Addr::Head(o)),
            Addr::Head(_) | Addr::Local(_) => Ok(()),
        }
    }

    /// Records a load, which found a value or not.
    pub fn record_load(&mut self, at: Addr, found: Option<Val>) -> Result<(), AllocError>
        ensures { OnOk result (self.new ≡ spec.record_load self.old at found) }
    {
        self.record_head(at)?;
        if found.is_some() && !self.touched.contains(at) {
            self.reads.insert(at)?;
        }
        Ok(())
    }

    /// Records a store, where there was a value or not.
    pub fn record_store(&mut self, at: Addr, found: Option<Val>) -> Result<(), AllocError>
        ensures { OnOk result (self.new ≡ spec.record_store self.old at found) }
    {
        self.record_head(at)?;
        if found.is_some() {
            self.touched.insert(at)?;
        }
        Ok(())
    }

    /// Records an object that the chunk makes.
    pub fn record_make(&mut self, o: Obj) -> Result<(), AllocError>
        ensures { OnOk result (spec.record_make (Some self.old) o ≡ Some self.new) }
    {
        self.made.insert(o)?;
        self.touched.insert(Addr::Head(o))
    }

    /// Records that an object is freed which the chunk did not make, and whether it is there.
    fn record_other_free(&mut self, o: Obj, there: bool) -> Result<(), AllocError>
        ensures { OnOk result (self.new ≡ spec.record_free self.old o there) }
    {
        self.reads.insert(Addr::Head(o))?;
        if there {
            self.touched.insert(Addr::Head(o))?;
            self.freed.push(o)?;
        }
        Ok(())
    }

    /// Records that an object is freed. Of one that the chunk made nothing is recorded.
    pub fn record_free(&mut self, o: Obj, there: bool) -> Result<(), AllocError>
        ensures { OnOk result (spec.free_recorded (Some self.old) o there ≡ Some self.new) }
    {
        if self.made.contains(o) {
            return Ok(());
        }
        self.record_other_free(o, there)
    }
}
