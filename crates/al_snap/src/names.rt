ghost use Rattle.std.specs.Prelude.{◌≡◌};
ghost use Rattle.al_core.specs.Access as spec;
ghost use Rattle.al_core.specs.Access.{Outer, nothing_made};
ghost use Rattle.al_snap.specs.Makers.{allocator_of, allocated};

use al_core::{Obj, Trap};
use al_source::limits::{ITERATION_WORDS, OUTER_WORDS};
use std::marker::Model;

/// Who allocates.
#[derive(Clone, Copy)]
enum Maker {
    /// The code outside the iterations of annotated loops.
    Outer,
    /// An iteration of an execution of such a loop.
    Iteration { execution: u32, iteration: u64 },
}

impl Maker {
    /// The name of the k-th object that it makes.
    fn name(self, k: u32) -> Obj
        ensures { result ≡ spec.name_of (allocator_of self) k }
    {
        match self {
            Maker::Outer => Obj::Serial(k),
            Maker::Iteration {
                execution,
                iteration,
            } => Obj::Iter(execution, iteration, k),
        }
    }

    /// How many words it may allocate, each object counted as its words plus one.
    fn limit(self) -> u64
        ensures { result ≡ spec.word_limit (allocator_of self) }
    {
        match self {
            Maker::Outer => OUTER_WORDS,
            Maker::Iteration { .. } => ITERATION_WORDS,
        }
    }
}

/// The names of the next objects, and how many words were allocated.
#[derive(Drop)]
pub struct Names {
    maker: Maker,
    next: u32,
    words: u32,
}

impl Model for Names {
    ghost use Rattle.std.specs.Prelude.{◌≤◌};
    ghost use Rattle.al_source.specs.declared.limits.TheConstants.{OUTER_WORDS};
    ghost use Rattle.al_core.specs.Access.{Allocations};
    ghost use Rattle.al_snap.specs.Makers.{allocator_of, allocations_code};

    ghost Value = { Allocations };

    ghost coded = { allocations_code };

    ghost view = { λ n. record { allocator = allocator_of n.maker; next = n.next; words = n.words } };

    ghost invariant = { λ n. (n.next ≤ n.words) × (n.words ≤ OUTER_WORDS) };
}

impl Names {
    /// The names outside iterations, where nothing was made yet.
    pub fn outer() -> Names
        ensures { result ≡ record { allocator = Outer; next = 0; words = 0 } }
    {
        Names {
            maker: Maker::Outer,
            next: 0,
            words: 0,
        }
    }

    /// The names of an iteration that has made nothing yet.
    pub fn iteration(execution: u32, iteration: u64) -> Names
        ensures { result ≡ nothing_made execution iteration }
    {
        Names {
            maker: Maker::Iteration {
                execution,
                iteration,
            },
            next: 0,
            words: 0,
        }
    }

    /// Names an object of so many words, or traps `Alloc` where they would pass the limit.
    pub fn allocate(&mut self, words: u32) -> Result<Obj, Trap>
        ensures { (result, self.new) ≡ allocated self.old words }
    {
        let total = u64::from(self.words) + u64::from(words) + 1;
        if total > self.maker.limit() {
            return Err(Trap::Alloc);
        }
        let obj = self.maker.name(self.next);
        self.next += 1;
        self.words = total as u32;
        Ok(obj)
    }
}
