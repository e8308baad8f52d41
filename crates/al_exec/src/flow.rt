ghost use Rattle.std.specs.Prelude.{◌≡◌, ◌+◌, ◌<◌, ◌≤◌, ◌^◌, List, ℤ, length};
ghost use Rattle.al_core.specs.Access.{Content};
ghost use Rattle.al_code.specs.declared.lowered.Code.{Code};
ghost use Rattle.al_code.specs.declared.instructions.Instr.TheVariants as i;
ghost use Rattle.al_exec.specs.Meets.{Did, DidAlone};

use crate::active::Active;
use crate::values::{holds, input_value, packed};
use al_core::{Trap, ViewFault};
use al_values::PackedValue;

/// Steps, jumps, and the input.
#[tactic(auto, unfolding(al_core::specs::Action::bind, al_core::specs::Action::pure, al_core::specs::Action::lift, al_core::specs::Action::spend))]
impl Active {
    #[inline(always)]
    pub fn step(&mut self) -> Result<(), ViewFault>
        requires place { self.old.place + 1 < 2 ^ 64 }
        ensures { DidAlone i.Step self.old result self.new }
    {
        if self.spend() {
            self.advance();
            Ok(())
        } else {
            Err(ViewFault::Trap(Trap::Steps))
        }
    }

    #[inline(always)]
    pub fn jump(&mut self, to: u32) -> Result<(), ViewFault>
        ensures { DidAlone (i.Jump to) self.old result self.new }
    {
        self.goto(to as usize);
        Ok(())
    }

    #[inline(always)]
    pub fn jump_if(&mut self, wanted: bool, to: u32) -> Result<(), ViewFault>
        requires place { self.old.place + 1 < 2 ^ 64 }
        requires operands { 1 ≤ self.old.height }
        ensures { DidAlone (i.JumpIf wanted to) self.old result self.new }
    {
        if holds(self.pop()) == wanted {
            self.goto(to as usize);
        } else {
            self.advance();
        }
        Ok(())
    }

    #[inline(always)]
    pub fn input(&mut self, input: &[i64]) -> Result<(), ViewFault>
        requires place { self.old.place + 1 < 2 ^ 64 }
        requires operands { 1 ≤ self.old.height }
        requires room { self.old.height ≤ self.old.room }
        ensures { (code : Code) (w : Content) → Did input.now code i.Input self.old w result self.new w }
    {
        match input_value(input, self.pop().unpack()) {
            Ok(v) => {
                self.push(packed(v)?);
                self.advance();
                Ok(())
            }
            Err(t) => Err(ViewFault::Trap(t)),
        }
    }

    #[inline(always)]
    pub fn inputs(&mut self, input: &[i64]) -> Result<(), ViewFault>
        requires place { self.old.place + 1 < 2 ^ 64 }
        requires room { self.old.height < self.old.room }
        ensures { (code : Code) (w : Content) → Did input.now code i.Inputs self.old w result self.new w }
    {
        self.push(PackedValue::from_int(input.len() as i64));
        self.advance();
        Ok(())
    }
}
