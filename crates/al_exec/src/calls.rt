ghost use Rattle.std.specs.Prelude.{◌≡◌, ◌<◌, List, ℤ, Ok, OnOk, Some, length, slice_get};
ghost use Rattle.al_core.specs.Access.{Content};
ghost use Rattle.al_code.specs.declared.instructions.Instr.TheVariants as i;
ghost use Rattle.al_code.specs.Valid.{IsValid};
ghost use Rattle.al_exec.specs.Machines.{Stands, Keeps, Moves, Waits};

use crate::machine::{Machine, Onward, Waiting};
use al_code::{Code, Entry};
use al_core::{Trap, ViewFault};
use std::alloc::AllocError;

impl Machine {
    /// Calls a function.
    pub(crate) fn enter_function(&mut self, code: &Code, f: u32) -> Result<Onward, ViewFault>
        requires valid { IsValid code.now }
        requires stands { Stands code.now self.old }
        requires at { slice_get code.now.instrs self.old.active.place ≡ Some (i.Call f) }
        ensures moves { (input : List ℤ) (w : Content) → Moves input code.now (i.Call f) self.old w result self.new w }
        ensures kept { Keeps self.old self.new }
    {
        let _size = code.instrs.len();
        let entry = entry_at(code, f);
        if self.room == 0 {
            return Err(ViewFault::Trap(Trap::Depth));
        }
        if !self.active.spend() {
            return Err(ViewFault::Trap(Trap::Steps));
        }
        self.active.fill(entry.locals - entry.params, self.tallest)?;
        let left = self
            .active
            .open(entry.locals as usize, entry.start as usize);
        let inner = std::mem::replace(&mut self.inner, Vec::new(self.alloc));
        self.wait(Waiting { left, inner })?;
        self.room -= 1;
        Ok(Onward::Goes)
    }

    fn wait(&mut self, w: Waiting) -> Result<(), AllocError>
        ensures ok { OnOk result (Waits self.old w self.new) }
        ensures kept { self.new ≡ record self.old { callers = self.new.callers } }
    {
        self.callers.push(w)?;
        Ok(())
    }

    /// Gives a value to the caller, if there is one.
    pub(crate) fn leave(&mut self, code: &Code) -> Onward
        requires valid { IsValid code.now }
        requires stands { Stands code.now self.old }
        requires at { slice_get code.now.instrs self.old.active.place ≡ Some i.Return }
        ensures moves { (input : List ℤ) (w : Content)
            → Moves input code.now i.Return self.old w (Ok result) self.new w }
        ensures kept { Keeps self.old self.new }
    {
        let _code = code;
        let v = self.active.peek();
        match self.callers.pop() {
            None => Onward::Ends(v.unpack()),
            Some(Waiting { left, inner }) => {
                self.active.resume(left);
                self.active.push(v);
                self.inner = inner;
                self.room += 1;
                Onward::Goes
            }
        }
    }
}

/// The function of a number.
pub fn entry_at(code: &Code, f: u32) -> Entry
    requires { f < length code.now.funcs }
    ensures { slice_get code.now.funcs f ≡ Some result }
{
    let funcs = code.funcs.as_slice();
    funcs[f as usize]
}
