ghost use Rattle.std.specs.Prelude.{◌≡◌, ◌<◌, List, ℤ, Ok, OnOk, Some, length, slice_get};
ghost use Rattle.al_code.specs.declared.instructions.Instr.TheVariants as i;
ghost use Rattle.al_code.specs.Valid.{IsValid};
ghost use Rattle.al_exec.specs.Machines.{Stands, Keeps, Moves};
ghost use Rattle.al_exec.specs.Tripping.{Begins, BeginsLoop, Counted, Trips};

use crate::inner::InnerLoop;
use crate::locals::Range;
use crate::machine::{Machine, Onward};
use al_code::{Body, Code};
use al_core::{LoopInfo, Trap, Val, ViewFault, trips};
use al_values::PackedView;
use std::alloc::AllocError;

impl Machine {
    fn begin(&mut self, x: InnerLoop) -> Result<(), AllocError>
        ensures ok { OnOk result (Begins self.old x self.new) }
        ensures kept { self.new ≡ record self.old { inner = self.new.inner } }
    {
        self.inner.push(x)?;
        Ok(())
    }

    /// The next trip of a loop that runs as an ordinary one, or what comes after its last.
    fn trip<V: PackedView>(
        &mut self,
        counter: u32,
        body: Body,
        x: InnerLoop,
        view: &mut V,
    ) -> Result<(), ViewFault>
        ensures trips { Trips counter body x self.old (V.content view.old) result self.new (V.content view.new) }
        ensures kept { Keeps self.old self.new }
    {
        if x.left() == 0 {
            if let Err(e) = self.active.set_counter(counter, x.end(), view) {
                return Err(e);
            }
            self.active.goto(body.end as usize);
            return Ok(());
        }
        if !self.active.spend() {
            return Err(ViewFault::Trap(Trap::Steps));
        }
        if let Err(e) = self.active.set_counter(counter, x.counter(), view) {
            return Err(e);
        }
        self.active.goto(body.start as usize);
        self.begin(x.turn())?;
        Ok(())
    }

    /// Begins an annotated loop as an ordinary one.
    fn begin_loop<V: PackedView>(
        &mut self,
        counter: u32,
        body: Body,
        k: u32,
        range: Range,
        view: &mut V,
    ) -> Result<(), ViewFault>
        ensures begins { BeginsLoop counter body k range.lo range.hi self.old (V.content view.old)
            result self.new (V.content view.new) }
        ensures kept { Keeps self.old self.new }
    {
        match range.counted(k) {
            Ok(x) => self.trip(counter, body, x, view),
            Err(t) => Err(ViewFault::Trap(t)),
        }
    }

    /// Stops at an annotated loop, or begins it.
    pub(crate) fn enter_loop<V: PackedView>(
        &mut self,
        code: &Code,
        k: u32,
        view: &mut V,
    ) -> Result<Onward, ViewFault>
        requires valid { IsValid code.now }
        requires stands { Stands code.now self.old }
        requires at { slice_get code.now.instrs self.old.active.place ≡ Some (i.Loop k) }
        ensures moves { (input : List ℤ)
            → Moves input code.now (i.Loop k) self.old (V.content view.old) result self.new (V.content view.new) }
        ensures kept { Keeps self.old self.new }
    {
        let info = info_at(code, k);
        let body = body_at(code, k);
        let range = match self.active.range(info.bound, view) {
            Ok(range) => range,
            Err(e) => return Err(e),
        };
        if !self.inside {
            self.counter = info.counter;
            self.active.goto(body.end as usize);
            return Ok(Onward::Stops(k, range.lo, range.hi));
        }
        match self.begin_loop(info.counter, body, k, range, view) {
            Ok(()) => Ok(Onward::Goes),
            Err(e) => Err(e),
        }
    }

    /// Ends an iteration: the next trip of the innermost loop, or the end of the iteration that was started.
    pub(crate) fn end_iteration<V: PackedView>(
        &mut self,
        code: &Code,
        view: &mut V,
    ) -> Result<Onward, ViewFault>
        requires valid { IsValid code.now }
        requires stands { Stands code.now self.old }
        requires at { slice_get code.now.instrs self.old.active.place ≡ Some i.EndIteration }
        ensures moves { (input : List ℤ)
            → Moves input code.now i.EndIteration self.old (V.content view.old) result self.new (V.content view.new) }
        ensures kept { Keeps self.old self.new }
    {
        let Some(x) = self.inner.pop() else {
            return Ok(Onward::Ends(Val::Int(0)));
        };
        let k = x.number() as usize;
        match (code.loops.get(k), code.bodies.get(k)) {
            (Some(info), Some(body)) => match self.trip(info.counter, *body, x, view) {
                Ok(()) => Ok(Onward::Goes),
                Err(e) => Err(e),
            },
            _ => Ok(Onward::Ends(Val::Int(0))),
        }
    }
}

impl Range {
    /// The loop of a number before its first trip.
    fn counted(self, k: u32) -> Result<InnerLoop, Trap>
        ensures { Counted k self.lo self.hi result }
    {
        match trips(self.lo, self.hi) {
            Ok(count) => Ok(InnerLoop::new(k, self.lo, self.hi, count)),
            Err(t) => Err(t),
        }
    }
}

/// What the code says of a loop.
fn info_at(code: &Code, k: u32) -> &LoopInfo
    requires { k < length code.now.loops }
    ensures { slice_get code.now.loops k ≡ Some result.now }
{
    let loops = code.loops.as_slice();
    &loops[k as usize]
}

/// The body of a loop.
pub fn body_at(code: &Code, k: u32) -> Body
    requires { k < length code.now.bodies }
    ensures { slice_get code.now.bodies k ≡ Some result }
{
    let bodies = code.bodies.as_slice();
    bodies[k as usize]
}
