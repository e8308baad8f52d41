ghost use Rattle.std.specs.Prelude.{◌≡◌, ℕ, ◌+◌, ◌-◌, ◌<◌, ◌≤◌, ◌^◌, Some, OnOk, IfOk, length, slice_get, slice_set};
ghost use Rattle.al_core.specs.declared.values.Val.TheVariants as value;
ghost use Rattle.al_code.specs.Valid.{IsValid, params_of};
ghost use Rattle.al_code.specs.declared.lowered.Entry.{Entry};
ghost use Rattle.al_code.specs.declared.lowered.Body.{Body};
ghost use Rattle.al_code.specs.declared.lowered.Code.{Code};
ghost use Rattle.al_exec.specs.Frames.{Given, Laid};
ghost use Rattle.al_exec.specs.Machines.{Stands};
ghost use Rattle.al_exec.specs.Starts.{HasRoom, StartsFunction, StartsIteration, IsTall};

use crate::active::Active;
use crate::calls::entry_at;
use crate::loops::body_at;
use crate::machine::{Machine, Start};
use crate::private::Own;
use crate::run::line_at;
use al_code::{Body, Code, Entry};
use al_core::{LoopInfo, Val};
use al_source::limits::ACTIVE_CALLS;
use al_values::PackedValue;
use std::alloc::{AllocError, Global};

impl Active {
    /// Begins a function whose arguments are at the top of the stack, with room for so many values.
    fn lay(&mut self, entry: Entry, more: u32) -> Result<(), AllocError>
        requires place { self.old.place + 1 < 2 ^ 64 }
        requires params { entry.params ≤ entry.locals }
        requires args { entry.params ≤ self.old.height }
        ensures { OnOk result (Laid self.old entry more self.new) }
    {
        self.grow((entry.locals - entry.params) as usize + more as usize)?;
        self.lay_here(entry);
        Ok(())
    }

    /// Begins a function whose arguments are at the top of the stack, in the room that is there.
    fn lay_here(&mut self, entry: Entry)
        requires place { self.old.place + 1 < 2 ^ 64 }
        requires params { entry.params ≤ entry.locals }
        requires args { entry.params ≤ self.old.height }
        requires room { self.old.height + (entry.locals - entry.params) ≤ self.old.room }
        ensures laid { (more : ℕ) → self.old.height + (entry.locals - entry.params) + more ≤ self.old.room
            → Laid self.old entry more self.new }
        ensures size { self.new.size ≡ self.old.size }
    {
        self.push_zeros(entry.locals - entry.params);
        self.open(entry.locals as usize, entry.start as usize);
    }

    /// Sets all locals.
    fn set_locals(&mut self, locals: &[PackedValue])
        requires { length locals.now ≡ length self.old.locals }
        ensures { self.new ≡ record self.old { locals = locals.now } }
    {
        for i in 0..locals.len() {
            self.write_local(i, locals[i]);
        }
    }

    /// Puts values on the stack.
    fn give(&mut self, vs: &[Val]) -> Result<(), AllocError>
        ensures { OnOk result (Given self.old vs.now self.new) }
    {
        self.grow(vs.len())?;
        for v in vs {
            let Some(v) = PackedValue::pack(*v) else {
                return Err(AllocError);
            };
            self.push(v);
        }
        Ok(())
    }
}

/// The greatest height of the code's stacks.
fn tallest(code: &Code) -> u32
    ensures { IsTall code.now result }
{
    let mut tallest = 0;
    for h in code.heights.as_slice() {
        tallest = tallest.max(*h);
    }
    tallest
}

impl Machine {
    /// A machine before a function's call from nowhere, outside iterations, with these arguments.
    pub fn call(alloc: Global, code: &Code, func: u32, args: &[Val]) -> Result<Machine, AllocError>
        requires valid { IsValid code.now }
        requires has { func < length code.now.funcs }
        requires args { length args.now ≡ params_of (slice_get code.now.funcs func) }
        ensures starts { IfOk result (λ m.
            (e : Entry) → slice_get code.now.funcs func ≡ Some e → StartsFunction code.now e args.now m) }
        ensures stands { IfOk result (Stands code.now) }
    {
        let entry = entry_at(code, func);
        let line = line_at(code, (entry.end as usize).saturating_sub(1));
        let tallest = tallest(code);
        let mut active = Active::empty(alloc);
        active.give(args)?;
        active.lay(entry, tallest)?;
        Ok(Machine {
            alloc,
            active,
            inner: Vec::new(alloc),
            callers: Vec::new(alloc),
            room: ACTIVE_CALLS - 1,
            inside: false,
            tallest,
            counter: 0,
            start: Start::Function(line),
            bytes: Vec::new(alloc),
        })
    }

    /// A machine before an iteration of a loop, with the loop's counter at a number.
    pub fn iterate(
        alloc: Global,
        code: &Code,
        info: &LoopInfo,
        counter: i64,
    ) -> Result<Machine, AllocError>
        requires valid { IsValid code.now }
        requires one { slice_get code.now.loops info.now.number ≡ Some info.now }
        ensures starts { IfOk result (λ m. (e : Entry) (b : Body) → slice_get code.now.funcs info.now.func ≡ Some e
            → slice_get code.now.bodies info.now.number ≡ Some b → StartsIteration code.now info.now e b counter m) }
        ensures stands { IfOk result (Stands code.now) }
        ensures room { IfOk result (HasRoom code.now info.now) }
    {
        let tallest = tallest(code);
        let mut active = Active::empty(alloc);
        active.grow(entry_at(code, info.func).locals as usize + tallest as usize)?;
        let mut m = Machine {
            alloc,
            active,
            inner: Vec::new(alloc),
            callers: Vec::new(alloc),
            room: ACTIVE_CALLS - 1,
            inside: true,
            tallest,
            counter: 0,
            start: Start::Running,
            bytes: Vec::new(alloc),
        };
        m.again(code, info, counter);
        Ok(m)
    }

    /// What `iterate` gives, without memory, in a machine that `iterate` made for this loop, whatever it ran since.
    pub fn again(&mut self, code: &Code, info: &LoopInfo, counter: i64)
        requires valid { IsValid code.now }
        requires one { slice_get code.now.loops info.now.number ≡ Some info.now }
        requires room { HasRoom code.now info.now self.old }
        ensures starts { (e : Entry) (b : Body) → slice_get code.now.funcs info.now.func ≡ Some e
            → slice_get code.now.bodies info.now.number ≡ Some b
            → StartsIteration code.now info.now e b counter self.new }
        ensures stands { Stands code.now self.new }
        ensures room { HasRoom code.now info.now self.new }
    {
        let body = body_at(code, info.number);
        let locals = entry_at(code, info.func).locals;
        let entry = Entry {
            start: body.start,
            end: body.end,
            params: 0,
            locals,
        };
        self.active.reset();
        self.active.lay_here(entry);
        self.active.set_own(Own::Loop {
            counter: info.counter,
            first: info.first,
            last: info.last,
        });
        self.inner.clear();
        self.callers.clear();
        self.room = ACTIVE_CALLS - 1;
        self.inside = true;
        self.start = Start::Iteration(info.line, info.counter, counter);
    }

    /// The locals of the function that stands at a loop.
    pub fn locals(&self) -> &[PackedValue]
        ensures { result.now ≡ self.now.active.locals }
    {
        self.active.locals()
    }

    /// Sets the locals after a loop, and the loop's counter.
    pub fn after_loop(&mut self, locals: &[PackedValue], counter: i64)
        requires { length locals.now ≡ length self.old.active.locals }
        ensures set { self.new ≡ record self.old {
          active = record self.old.active {
            locals = slice_set locals.now self.old.counter (value.Int counter);
          };
        } }
        ensures stands { (code : Code) → Stands code self.old → Stands code self.new }
    {
        self.active.set_locals(locals);
        self.active
            .set_local(self.counter, PackedValue::from_int(counter));
    }
}
