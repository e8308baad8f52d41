ghost use Rattle.std.specs.Prelude.{◌≡◌, ◌+◌, ◌-◌, ◌<◌, ◌≤◌, ◌^◌, ◌∷◌, ◌↔◌, suc, IsTrue, IsFalse, slice_get, slice_set, take, drop, reverse, length, OnOk, []};
ghost use Rattle.al_core.specs.Action as action;
ghost use Rattle.al_code.specs.Machine as code;
ghost use Rattle.al_exec.specs.Active.{private_of};
ghost use Rattle.al_exec.specs.Frames.{Grown, Opened, Resumed};

use crate::private::Own;
use al_values::PackedValue;
use std::alloc::{AllocError, Global};
use std::marker::Model;

/// The function that runs: its next instruction, its locals, its stack, and the steps that are left. Locals and stack
/// lie one after the other in cells, above those of the callers.
#[derive(Drop)]
pub struct Active {
    cells: Vec<PackedValue>,
    place: usize,
    /// The first local's cell.
    base: usize,
    /// The first cell of the stack.
    floor: usize,
    /// The cell past the stack.
    top: usize,
    own: Own,
    budget: u64,
}

impl Model for Active {
    ghost use Rattle.std.specs.Prelude.{◌≤◌, length};
    ghost use Rattle.al_exec.specs.Active.{Active, private_of, active_in};

    ghost Value = { Active };

    ghost view = { λ a. active_in a.cells.items a.place a.base a.floor a.top (private_of a.own) a.budget };

    ghost invariant = { λ a. (a.base ≤ a.floor) × (a.floor ≤ a.top) × (a.top ≤ length a.cells.items) };
}

/// Where a function that waits goes on, and where its cells lie.
#[derive(Clone, Copy)]
pub struct Left {
    pub place: usize,
    pub base: usize,
    pub floor: usize,
    pub own: Own,
}

impl Active {
    /// With no cells.
    pub fn empty(alloc: Global) -> Active
        ensures { result ≡ record {
          place = 0;
          below = [];
          locals = [];
          own = action.AllPrivate;
          stack = [];
          height = 0;
          room = 0;
          size = 0;
          budget = 0;
        } }
    {
        Active {
            cells: Vec::new(alloc),
            place: 0,
            base: 0,
            floor: 0,
            top: 0,
            own: Own::All,
            budget: 0,
        }
    }

    /// Forgets all values. The cells stay.
    pub fn reset(&mut self)
        ensures { self.new ≡ record {
          place = 0;
          below = [];
          locals = [];
          own = action.AllPrivate;
          stack = [];
          height = 0;
          room = self.old.size;
          size = self.old.size;
          budget = self.old.budget;
        } }
    {
        self.place = 0;
        self.base = 0;
        self.floor = 0;
        self.top = 0;
        self.own = Own::All;
    }

    pub fn set_own(&mut self, own: Own)
        ensures { self.new ≡ record self.old { own = private_of own } }
    {
        self.own = own;
    }

    /// The locals, by number.
    pub fn locals(&self) -> &[PackedValue]
        ensures { result.now ≡ self.now.locals }
    {
        &self.cells[self.base..self.floor]
    }

    #[inline(always)]
    pub fn place(&self) -> usize
        ensures { result ≡ self.now.place }
    {
        self.place
    }

    #[inline(always)]
    pub fn goto(&mut self, place: usize)
        ensures { self.new ≡ record self.old { place = place } }
    {
        self.place = place;
    }

    /// Goes to the next instruction.
    #[inline(always)]
    pub fn advance(&mut self)
        requires { self.old.place + 1 < 2 ^ 64 }
        ensures { self.new ≡ record self.old { place = self.old.place + 1 } }
    {
        self.place += 1;
    }

    #[inline(always)]
    pub fn push(&mut self, v: PackedValue)
        requires { self.old.height < self.old.room }
        ensures { self.new ≡ record self.old { stack = v ∷ self.old.stack; height = self.old.height + 1 } }
    {
        self.cells[self.top] = v;
        self.top += 1;
    }

    #[inline(always)]
    pub fn pop(&mut self) -> PackedValue
        requires { 1 ≤ self.old.height }
        ensures value { result ≡ code.top self.old.stack }
        ensures rest { self.new ≡ record self.old { stack = code.below self.old.stack; height = self.old.height - 1 } }
    {
        self.top -= 1;
        self.cells[self.top]
    }

    /// The value at the top.
    #[inline(always)]
    pub fn peek(&self) -> PackedValue
        requires { 1 ≤ self.now.height }
        ensures { result ≡ code.top self.now.stack }
    {
        self.cells[self.top - 1]
    }

    /// So many values from the top, the deepest first.
    #[inline(always)]
    pub fn top_values(&self, count: usize) -> &[PackedValue]
        requires { count ≤ self.now.height }
        ensures { result.now ≡ reverse (take count self.now.stack) }
    {
        &self.cells[self.top - count..self.top]
    }

    #[inline(always)]
    pub fn drop_values(&mut self, count: usize)
        requires { count ≤ self.old.height }
        ensures { self.new ≡ record self.old { stack = drop count self.old.stack; height = self.old.height - count } }
    {
        self.top -= count;
    }

    #[inline(always)]
    pub fn is_private(&self, k: u32) -> bool
        ensures { result ≡ action.is_private self.now.own k }
    {
        self.own.has(k)
    }

    #[inline(always)]
    pub fn local(&self, k: u32) -> PackedValue
        ensures { result ≡ action.or_zero (slice_get self.now.locals k) }
    {
        if (k as usize) < self.floor - self.base {
            self.cells[self.base + k as usize]
        } else {
            PackedValue::zero()
        }
    }

    #[inline(always)]
    pub fn set_local(&mut self, k: u32, v: PackedValue)
        ensures { self.new ≡ record self.old { locals = slice_set self.old.locals k v } }
    {
        self.write_local(k as usize, v);
    }

    /// Sets a local, where there is one of that number.
    #[inline(always)]
    pub fn write_local(&mut self, k: usize, v: PackedValue)
        ensures { self.new ≡ record self.old { locals = slice_set self.old.locals k v } }
    {
        if k < self.floor - self.base {
            self.cells[self.base + k] = v;
        }
    }

    /// The steps that are left.
    #[inline(always)]
    pub fn budget(&self) -> u64
        ensures { result ≡ self.now.budget }
    {
        self.budget
    }

    pub fn set_budget(&mut self, budget: u64)
        ensures { self.new ≡ record self.old { budget = budget } }
    {
        self.budget = budget;
    }

    /// Takes a step, if one is left.
    #[inline(always)]
    pub fn spend(&mut self) -> bool
        ensures paid { IsTrue result
            → (self.old.budget ≡ suc self.new.budget) × (self.new ≡ record self.old { budget = self.new.budget }) }
        ensures out { IsFalse result → (self.old.budget ≡ 0) × (self.new ≡ self.old) }
    {
        if self.budget == 0 {
            return false;
        }
        self.budget -= 1;
        true
    }

    /// Makes room for so many values more.
    pub fn grow(&mut self, more: usize) -> Result<(), AllocError>
        ensures ok { OnOk result (Grown self.old more self.new) }
        ensures size { self.old.size ≤ self.new.size }
    {
        let Some(size) = self.top.checked_add(more) else {
            return Err(AllocError);
        };
        if self.cells.len() < size {
            self.cells.resize(size, PackedValue::zero())?;
        }
        Ok(())
    }

    /// Begins a function, whose locals are the values at the top of the stack.
    pub fn open(&mut self, locals: usize, start: usize) -> Left
        requires place { self.old.place + 1 < 2 ^ 64 }
        requires locals { locals ≤ self.old.height }
        ensures { Opened self.old locals start result self.new }
    {
        let left = Left {
            place: self.place + 1,
            base: self.base,
            floor: self.floor,
            own: self.own,
        };
        self.base = self.top - locals;
        self.floor = self.top;
        self.own = Own::All;
        self.place = start;
        left
    }

    /// Goes back to a function that waits.
    pub fn resume(&mut self, left: Left)
        requires base { left.base ≤ left.floor }
        requires floor { left.floor ≤ length self.old.below }
        ensures { Resumed self.old left self.new }
    {
        self.top = self.base;
        self.base = left.base;
        self.floor = left.floor;
        self.own = left.own;
        self.place = left.place;
    }
}
