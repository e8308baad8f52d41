ghost use Rattle.std.specs.Prelude.{◌≡◌, [], ◌++◌, replicate, Some, None, pos, IfOk, OnOk};
ghost use Rattle.al_source.specs.Answers.{Does};
ghost use Rattle.al_core.specs.declared.values.Val.TheVariants as value;
ghost use Rattle.al_core.specs.Access as spec;
ghost use Rattle.al_core.specs.Access.{load as load_of, store as store_of, make as make_of, free as free_of, print as print_of};
ghost use Rattle.al_core.specs.Views.{trapped};
ghost use Rattle.al_core.specs.Run.{at_loop};
ghost use Rattle.std.specs.FinMap as map;
ghost use Rattle.al_plain.specs.Makers.{allocator_of, none_yet};

use crate::accesses::Accesses;
use crate::memory::{Memory, read_as};
use crate::objects::Objects;
use al_core::{Addr, Kind, Obj, Trap, Val, View, ViewFault};
use al_source::limits::{ITERATION_WORDS, OUTER_WORDS};
use sqlite_items::Items;
use std::alloc::{AllocError, Global};
use std::marker::Model;

/// Who allocates.
#[derive(Clone, Copy, Debug, PartialEq, Eq)]
pub enum Maker {
    /// The code outside the iterations of annotated loops.
    Outer,
    /// An iteration of an execution of such a loop.
    Iteration { execution: u32, iteration: u64 },
}

impl Maker {
    /// The name of the k-th object that it makes.
    fn name(self, k: u32) -> Obj
        ensures { result ≡ spec.name_of (allocator_of self) k }
    {
        match self {
            Maker::Outer => Obj::Serial(k),
            Maker::Iteration {
                execution,
                iteration,
            } => Obj::Iter(execution, iteration, k),
        }
    }

    /// How many words it may allocate, each object counted as its words plus one.
    fn limit(self) -> u64
        ensures { result ≡ spec.word_limit (allocator_of self) }
    {
        match self {
            Maker::Outer => OUTER_WORDS,
            Maker::Iteration { .. } => ITERATION_WORDS,
        }
    }
}

/// What running code sees: the memory, the names of its next objects, what it printed, and in a chunk what it records.
#[derive(Drop)]
pub struct Content {
    alloc: Global,
    memory: Memory,
    maker: Maker,
    next: u32,
    words: u32,
    printed: Items<u8>,
    accesses: Option<Accesses>,
}

impl Model for Content {
    ghost use Rattle.std.specs.Prelude.{◌≤◌};
    ghost use Rattle.al_source.specs.declared.limits.TheConstants.{OUTER_WORDS};
    ghost use Rattle.al_core.specs.Access.{Content};
    ghost use Rattle.al_plain.specs.Codes.{content_code};
    ghost use Rattle.al_plain.specs.Makers.{allocator_of};

    ghost Value = { Content };

    ghost coded = { content_code };

    ghost view = { λ c. record {
      memory = c.memory;
      allocations = record { allocator = allocator_of c.maker; next = c.next; words = c.words };
      printed = c.printed;
      accesses = c.accesses;
    } };

    ghost invariant = { λ c. (c.next ≤ c.words) × (c.words ≤ OUTER_WORDS) };
}

/// So many words that hold 0.
pub fn zeros(alloc: Global, count: usize) -> Result<Items<Val>, AllocError>
    ensures { IfOk result (λ all. all ≡ replicate count (value.Int (pos 0))) }
{
    Ok(Items::from_vec(vec![in alloc; Val::Int(0); count]?))
}

fn seen<T>(r: Result<T, Trap>) -> Result<T, ViewFault>
    ensures { (c : spec.Content) → Does trapped (r, c) result c }
{
    match r {
        Ok(a) => Ok(a),
        Err(t) => Err(ViewFault::Trap(t)),
    }
}

impl Content {
    /// A memory on which code runs directly.
    pub fn direct(alloc: Global, memory: Memory, maker: Maker) -> Content
        ensures { result ≡ record {
          memory = memory;
          allocations = none_yet maker;
          printed = [];
          accesses = None;
        } }
    {
        Content {
            alloc,
            memory,
            maker,
            next: 0,
            words: 0,
            printed: Items::new(alloc),
            accesses: None,
        }
    }

    /// A private memory, with what is recorded on it.
    pub fn recording(alloc: Global, memory: Memory, maker: Maker, accesses: Accesses) -> Content
        ensures { result ≡ record {
          memory = memory;
          allocations = none_yet maker;
          printed = [];
          accesses = Some accesses;
        } }
    {
        Content {
            alloc,
            memory,
            maker,
            next: 0,
            words: 0,
            printed: Items::new(alloc),
            accesses: Some(accesses),
        }
    }

    /// From now on another allocates, who has not made an object yet.
    pub fn begin(&mut self, maker: Maker)
        ensures { self.new ≡ record self.old { allocations = none_yet maker } }
    {
        self.maker = maker;
        self.next = 0;
        self.words = 0;
    }

    /// The memory, what was printed, and what was recorded.
    pub fn into_parts(self) -> (Memory, Items<u8>, Option<Accesses>)
        ensures { result ≡ (self.memory, self.printed, self.accesses) }
    {
        (self.memory, self.printed, self.accesses)
    }

    /// The memory for an annotated loop, whose iterations share these locals. It is given back by `take_back`.
    pub fn lend(&mut self, locals: Items<Val>) -> Memory
        ensures memory { result ≡ at_loop self.old locals }
        ensures rest { self.new ≡ spec.with_memory self.old (record { objects = map.empty; locals = [] }) }
    {
        let none = Memory::new(Objects::new(self.alloc), Items::new(self.alloc));
        let mut memory = std::mem::replace(&mut self.memory, none);
        memory.set_locals(locals);
        memory
    }

    /// Takes the memory back, with what the loop printed, and answers the locals.
    pub fn take_back(
        &mut self,
        memory: Memory,
        printed: Items<u8>,
    ) -> Result<Items<Val>, AllocError>
        ensures locals { IfOk result (λ locals. locals ≡ memory.locals) }
        ensures rest { OnOk result (self.new ≡ record self.old {
          memory = record { objects = memory.objects; locals = [] };
          printed = self.old.printed ++ printed;
        }) }
    {
        self.memory = memory;
        self.printed.append(printed)?;
        let none = Items::new(self.alloc);
        Ok(self.memory.set_locals(none))
    }

    /// Records an object that is made, where there is a record.
    fn record_make(&mut self, o: Obj) -> Result<(), AllocError>
        ensures { OnOk result (self.new ≡ record self.old { accesses = spec.record_make self.old.accesses o }) }
    {
        match &mut self.accesses {
            Some(accesses) => accesses.record_make(o),
            None => Ok(()),
        }
    }

    /// Records an object that is freed, where there is a record.
    fn record_free(&mut self, o: Obj, there: bool) -> Result<(), AllocError>
        ensures { OnOk result (self.new ≡ record self.old { accesses = spec.free_recorded self.old.accesses o there }) }
    {
        match &mut self.accesses {
            Some(accesses) => accesses.record_free(o, there),
            None => Ok(()),
        }
    }

    /// A store that finds the memory as it is told.
    fn store_found(&mut self, at: Addr, val: Val, found: Option<Val>) -> Result<(), ViewFault>
        ensures { Does trapped (spec.store_in self.old at val found) result self.new }
    {
        match found {
            Some(_) => Ok(self.memory.put(at, val)?),
            None => Err(ViewFault::Trap(self.memory.missing_or_outside(at))),
        }
    }
}

/// Whether a place may be freed: the first word of an object that is no global.
fn is_freeable(o: Obj, at: u32) -> bool
    ensures { result ≡ spec.is_freeable o at }
{
    match o {
        Obj::Global(_) => false,
        Obj::Serial(_) | Obj::Iter(_, _, _) => at == 0,
    }
}

impl View for Content {
    ghost content = { λ c. c };

    #[tactic(auto, unfolding(al_core::specs::Access::load))]
    fn load(&mut self, at: Addr, want: Kind) -> Result<Val, ViewFault> {
        match &mut self.accesses {
            None => seen(self.memory.load(at, want)),
            Some(accesses) => match accesses.index_of(at) {
                Some(i) => seen(read_as(at, want, accesses.accumulator(i))),
                None => {
                    if !accesses.is_own(at) {
                        accesses.record_load(at, self.memory.value_at(at))?;
                    }
                    seen(self.memory.load(at, want))
                }
            },
        }
    }

    #[tactic(auto, unfolding(al_core::specs::Access::store))]
    fn store(&mut self, at: Addr, val: Val) -> Result<(), ViewFault> {
        let found = self.memory.value_at(at);
        match &mut self.accesses {
            None => self.store_found(at, val, found),
            Some(accesses) => match accesses.index_of(at) {
                Some(i) => {
                    accesses.set_accumulator(i, val);
                    Ok(())
                }
                None => {
                    if !accesses.is_own(at) {
                        accesses.record_store(at, found)?;
                    }
                    self.store_found(at, val, found)
                }
            },
        }
    }

    #[tactic(auto, unfolding(al_core::specs::Access::make))]
    fn make(&mut self, words: u32) -> Result<Obj, ViewFault> {
        let total = u64::from(self.words) + u64::from(words) + 1;
        if total > self.maker.limit() {
            return Err(ViewFault::Trap(Trap::Alloc));
        }
        let o = self.maker.name(self.next);
        self.memory.add(o, zeros(self.alloc, words as usize)?)?;
        self.record_make(o)?;
        self.next += 1;
        self.words = total as u32;
        Ok(o)
    }

    #[tactic(auto, unfolding(al_core::specs::Access::free))]
    fn free(&mut self, obj: Obj, at: u32) -> Result<(), ViewFault> {
        if !is_freeable(obj, at) {
            return Err(ViewFault::Trap(Trap::BadFree));
        }
        let there = self.memory.has_object(obj);
        self.record_free(obj, there)?;
        if !there {
            return Err(ViewFault::Trap(Trap::Freed));
        }
        self.memory.remove(obj);
        Ok(())
    }

    #[tactic(auto, unfolding(al_core::specs::Access::print))]
    fn print(&mut self, bytes: &[u8]) -> Result<(), AllocError> {
        self.printed.append(Items::from_slice(self.alloc, bytes)?)
    }
}
