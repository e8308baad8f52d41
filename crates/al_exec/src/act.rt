ghost use Rattle.std.specs.Prelude.{◌≡◌, ◌+◌, ◌-◌, ◌<◌, ◌≤◌, ◌^◌, List, ℤ, length};
ghost use Rattle.al_code.specs.declared.instructions.Instr.TheVariants as i;
ghost use Rattle.al_code.specs.Valid.{takes, puts, holes_of, NumberInRange};
ghost use Rattle.std.specs.Prelude.{slice_get};
ghost use Rattle.al_exec.specs.Meets.{Did};
ghost use Rattle.al_exec.specs.Pauses.{Acted, ActedOften, gone};

use crate::active::Active;
use crate::pause::Pause;
use al_code::{Code, Instr};
use al_core::ViewFault;
use al_values::PackedView;

#[inline(always)]
fn going(r: Result<(), ViewFault>) -> Result<Option<Pause>, ViewFault>
    ensures { result ≡ gone r }
{
    match r {
        Ok(()) => Ok(None),
        Err(e) => Err(e),
    }
}

impl Active {
    /// Prints the text of a number.
    #[inline(always)]
    fn print_text<V: PackedView>(
        &mut self,
        code: &Code,
        k: u32,
        bytes: &mut Vec<u8>,
        view: &mut V,
    ) -> Result<(), ViewFault>
        requires place { self.old.place + 1 < 2 ^ 64 }
        requires number { k < length code.now.texts }
        requires operands { holes_of (slice_get code.now.texts k) ≤ self.old.height }
        ensures { (input : List ℤ)
            → Did input code.now (i.Print k) self.old (V.content view.old) result self.new (V.content view.new) }
    {
        match code.texts.get(k as usize) {
            Some(format) => self.print(k, format.as_slice(), bytes, view),
            None => Ok(()),
        }
    }

    /// Does an instruction of those that code has most of. Of another it does nothing, and gives none.
    #[inline(always)]
    pub fn act_often<V: PackedView>(
        &mut self,
        code: &Code,
        x: Instr,
        view: &mut V,
    ) -> Option<Result<(), ViewFault>>
        requires place { self.old.place + 1 < 2 ^ 64 }
        requires operands { takes code.now x ≤ self.old.height }
        requires fits { self.old.height ≤ self.old.room }
        requires room { self.old.height - takes code.now x + puts x ≤ self.old.room }
        requires number { NumberInRange code.now x }
        ensures { (input : List ℤ)
            → ActedOften input code.now x self.old (V.content view.old) result self.new (V.content view.new) }
    {
        match x {
            Instr::Push(n) => Some(self.push_number(n)),
            Instr::GetLocal(k) => Some(self.get_local(k, view)),
            Instr::SetLocal(k) => Some(self.put_local(k, view)),
            Instr::Global(k) => Some(self.push_global(k)),
            Instr::NotNull => Some(self.not_null()),
            Instr::Plus(words) => Some(self.plus(words)),
            Instr::Elem(size) => Some(self.elem(size)),
            Instr::Load(want) => Some(self.load(want, view)),
            Instr::Store => Some(self.store(view)),
            Instr::Dup => Some(self.dup()),
            Instr::Drop => Some(self.drop_top()),
            Instr::Truth => Some(self.test()),
            Instr::Binary(op) => Some(self.binary(op)),
            Instr::Jump(to) => Some(self.jump(to)),
            Instr::JumpIf(holds, to) => Some(self.jump_if(holds, to)),
            Instr::Step => Some(self.step()),
            _ => None,
        }
    }

    /// Does an instruction, or says at which pause it stands.
    pub fn act<V: PackedView>(
        &mut self,
        code: &Code,
        input: &[i64],
        x: Instr,
        bytes: &mut Vec<u8>,
        view: &mut V,
    ) -> Result<Option<Pause>, ViewFault>
        requires place { self.old.place + 1 < 2 ^ 64 }
        requires operands { takes code.now x ≤ self.old.height }
        requires fits { self.old.height ≤ self.old.room }
        requires room { self.old.height - takes code.now x + puts x ≤ self.old.room }
        requires number { NumberInRange code.now x }
        ensures { Acted input.now code.now x self.old (V.content view.old) result self.new (V.content view.new) }
    {
        match x {
            Instr::Push(n) => going(self.push_number(n)),
            Instr::GetLocal(k) => going(self.get_local(k, view)),
            Instr::SetLocal(k) => going(self.put_local(k, view)),
            Instr::Global(k) => going(self.push_global(k)),
            Instr::NotNull => going(self.not_null()),
            Instr::Plus(words) => going(self.plus(words)),
            Instr::Elem(size) => going(self.elem(size)),
            Instr::Load(want) => going(self.load(want, view)),
            Instr::Store => going(self.store(view)),
            Instr::Dup => going(self.dup()),
            Instr::Drop => going(self.drop_top()),
            Instr::Unary(op) => going(self.unary(op)),
            Instr::Truth => going(self.test()),
            Instr::Binary(op) => going(self.binary(op)),
            Instr::Same(equal) => going(self.same(equal)),
            Instr::Choose(op) => going(self.choose(op)),
            Instr::Jump(to) => going(self.jump(to)),
            Instr::JumpIf(holds, to) => going(self.jump_if(holds, to)),
            Instr::Call(f) => Ok(Some(Pause::Call(f))),
            Instr::Return => Ok(Some(Pause::Return)),
            Instr::Input => going(self.input(input)),
            Instr::Inputs => going(self.inputs(input)),
            Instr::Calloc(size) => going(self.calloc(size, view)),
            Instr::Free => going(self.free(view)),
            Instr::Print(k) => going(self.print_text(code, k, bytes, view)),
            Instr::Step => going(self.step()),
            Instr::Loop(k) => Ok(Some(Pause::Loop(k))),
            Instr::EndIteration => Ok(Some(Pause::EndIteration)),
        }
    }
}
