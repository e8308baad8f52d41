ghost use Rattle.std.specs.Prelude.{◌≡◌, ◌+◌, ◌<◌, ◌^◌, Some, List, ℤ, length, slice_get};
ghost use Rattle.al_code.specs.Runs.{or_no_line};
ghost use Rattle.al_code.specs.Valid.{IsValid};
ghost use Rattle.al_exec.specs.Running.{Fits, Ran, RanOn};

use crate::active::Active;
use crate::fault::Fault;
use crate::pause::Pause;
use al_code::{Code, Instr};
use al_core::ViewFault;
use al_values::PackedView;
use std::alloc::Global;
use std::mem;

/// The line of the instruction at a place.
pub fn line_at(code: &Code, place: usize) -> u32
    ensures { result ≡ or_no_line (slice_get code.now.lines place) }
{
    match code.lines.get(place) {
        Some(line) => *line,
        None => 0,
    }
}

impl Active {
    /// The next instruction.
    #[inline(always)]
    fn instr(&self, code: &Code) -> Instr
        requires { self.now.place < length code.now.instrs }
        ensures at { slice_get code.now.instrs self.now.place ≡ Some result }
        ensures next { self.now.place + 1 < 2 ^ 64 }
    {
        let instrs = code.instrs.as_slice();
        instrs[self.place()]
    }

    /// Runs to an instruction of those that code has few of, or further.
    #[inline(always)]
    fn often_here<V: PackedView>(&mut self, code: &Code, view: &mut V) -> Result<(), Fault>
        requires valid { IsValid code.now }
        requires fits { Fits code.now self.old }
        ensures ran { (input : List ℤ)
            → RanOn input code.now self.old (V.content view.old) result self.new (V.content view.new) }
        ensures size { self.new.size ≡ self.old.size }
    {
        'often: loop {
            let place = self.place();
            let x = self.instr(code);
            match self.act_often(code, x, view) {
                Some(Ok(())) => {}
                None => return Ok(()),
                Some(Err(ViewFault::Trap(t))) => return Err(Fault::Trap(t, line_at(code, place))),
                Some(Err(ViewFault::Memory)) => return Err(Fault::Memory),
            }
        }
    }

    /// The same.
    fn run_often<V: PackedView>(
        &mut self,
        alloc: Global,
        code: &Code,
        view: &mut V,
    ) -> Result<(), Fault>
        requires valid { IsValid code.now }
        requires fits { Fits code.now self.old }
        ensures ran { (input : List ℤ)
            → RanOn input code.now self.old (V.content view.old) result self.new (V.content view.new) }
        ensures size { self.new.size ≡ self.old.size }
    {
        // A copy of its own, which nothing else points to, can stay in registers.
        let mut active = mem::replace(self, Active::empty(alloc));
        let ran = active.often_here(code, view);
        *self = active;
        ran
    }

    /// Runs to the next call, return, loop or end of an iteration.
    pub fn run<V: PackedView>(
        &mut self,
        alloc: Global,
        code: &Code,
        input: &[i64],
        bytes: &mut Vec<u8>,
        view: &mut V,
    ) -> Result<Pause, Fault>
        requires valid { IsValid code.now }
        requires fits { Fits code.now self.old }
        ensures ran { Ran input.now code.now self.old (V.content view.old) result self.new (V.content view.new) }
        ensures size { self.new.size ≡ self.old.size }
    {
        'run: loop {
            match self.run_often(alloc, code, view) {
                Ok(()) => {}
                Err(e) => return Err(e),
            }
            let place = self.place();
            let x = self.instr(code);
            match self.act(code, input, x, bytes, view) {
                Ok(None) => {}
                Ok(Some(pause)) => return Ok(pause),
                Err(ViewFault::Trap(t)) => return Err(Fault::Trap(t, line_at(code, place))),
                Err(ViewFault::Memory) => return Err(Fault::Memory),
            }
        }
    }
}
