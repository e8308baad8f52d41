ghost use Rattle.std.specs.Prelude.{◌≡◌, ◌+◌, ◌<◌, ◌≤◌, ◌^◌, List, ℤ, true, false};
ghost use Rattle.al_core.specs.Action as action;
ghost use Rattle.al_code.specs.declared.lowered.Code.{Code};
ghost use Rattle.al_code.specs.declared.instructions.Instr.TheVariants as i;
ghost use Rattle.al_exec.specs.Meets.{Did, DidAlone};

use crate::active::Active;
use crate::values::{object_words, packed, pointer};
use al_core::{Addr, Kind, Val, ViewFault};
use al_values::{PackedValue, PackedView};

/// Instructions that go through what the code sees.
#[tactic(auto, unfolding(al_core::specs::Action::bind, al_core::specs::Action::pure, al_core::specs::Action::lift, al_core::specs::Action::asks, al_core::specs::Action::get_frame, al_core::specs::Action::set_frame))]
impl Active {
    /// Puts a local of the function's own.
    #[inline(always)]
    fn get_own(&mut self, k: u32) -> Result<(), ViewFault>
        requires place { self.old.place + 1 < 2 ^ 64 }
        requires room { self.old.height < self.old.room }
        requires own { action.is_private self.old.own k ≡ true }
        ensures { DidAlone (i.GetLocal k) self.old result self.new }
    {
        let v = self.local(k);
        match v.int() {
            Some(n) => self.push(PackedValue::from_int(n)),
            None => self.push(v),
        }
        self.advance();
        Ok(())
    }

    /// Puts a local that a loop's iterations share.
    #[inline(always)]
    fn get_shared<V: PackedView>(&mut self, k: u32, view: &mut V) -> Result<(), ViewFault>
        requires place { self.old.place + 1 < 2 ^ 64 }
        requires room { self.old.height < self.old.room }
        requires shared { action.is_private self.old.own k ≡ false }
        ensures { (input : List ℤ) (code : Code)
            → Did input code (i.GetLocal k) self.old (V.content view.old) result self.new (V.content view.new) }
    {
        let v = view.load_packed(Addr::Local(k), Kind::Int)?;
        self.push(v);
        self.advance();
        Ok(())
    }

    /// Sets a local of the function's own.
    #[inline(always)]
    fn put_own(&mut self, k: u32) -> Result<(), ViewFault>
        requires place { self.old.place + 1 < 2 ^ 64 }
        requires operands { 1 ≤ self.old.height }
        requires own { action.is_private self.old.own k ≡ true }
        ensures { DidAlone (i.SetLocal k) self.old result self.new }
    {
        let v = self.pop();
        match v.int() {
            Some(n) => self.set_local(k, PackedValue::from_int(n)),
            None => self.set_local(k, v),
        }
        self.advance();
        Ok(())
    }

    /// Sets a local that a loop's iterations share.
    #[inline(always)]
    fn put_shared<V: PackedView>(&mut self, k: u32, view: &mut V) -> Result<(), ViewFault>
        requires place { self.old.place + 1 < 2 ^ 64 }
        requires operands { 1 ≤ self.old.height }
        requires shared { action.is_private self.old.own k ≡ false }
        ensures { (input : List ℤ) (code : Code)
            → Did input code (i.SetLocal k) self.old (V.content view.old) result self.new (V.content view.new) }
    {
        let v = self.pop();
        view.store_packed(Addr::Local(k), v)?;
        self.advance();
        Ok(())
    }

    #[inline(always)]
    pub fn get_local<V: PackedView>(&mut self, k: u32, view: &mut V) -> Result<(), ViewFault>
        requires place { self.old.place + 1 < 2 ^ 64 }
        requires room { self.old.height < self.old.room }
        ensures { (input : List ℤ) (code : Code)
            → Did input code (i.GetLocal k) self.old (V.content view.old) result self.new (V.content view.new) }
    {
        if self.is_private(k) {
            self.get_own(k)
        } else {
            self.get_shared(k, view)
        }
    }

    #[inline(always)]
    pub fn put_local<V: PackedView>(&mut self, k: u32, view: &mut V) -> Result<(), ViewFault>
        requires place { self.old.place + 1 < 2 ^ 64 }
        requires operands { 1 ≤ self.old.height }
        ensures { (input : List ℤ) (code : Code)
            → Did input code (i.SetLocal k) self.old (V.content view.old) result self.new (V.content view.new) }
    {
        if self.is_private(k) {
            self.put_own(k)
        } else {
            self.put_shared(k, view)
        }
    }

    #[inline(always)]
    pub fn load<V: PackedView>(&mut self, want: Kind, view: &mut V) -> Result<(), ViewFault>
        requires place { self.old.place + 1 < 2 ^ 64 }
        requires operands { 1 ≤ self.old.height }
        requires room { self.old.height ≤ self.old.room }
        ensures { (input : List ℤ) (code : Code)
            → Did input code (i.Load want) self.old (V.content view.old) result self.new (V.content view.new) }
    {
        let (obj, at) = pointer(self.pop());
        let v = view.load_packed(Addr::Word(obj, at), want)?;
        self.push(v);
        self.advance();
        Ok(())
    }

    #[inline(always)]
    pub fn store<V: PackedView>(&mut self, view: &mut V) -> Result<(), ViewFault>
        requires place { self.old.place + 1 < 2 ^ 64 }
        requires operands { 2 ≤ self.old.height }
        ensures { (input : List ℤ) (code : Code)
            → Did input code i.Store self.old (V.content view.old) result self.new (V.content view.new) }
    {
        let v = self.pop();
        let (obj, at) = pointer(self.pop());
        view.store_packed(Addr::Word(obj, at), v)?;
        self.advance();
        Ok(())
    }

    #[inline(always)]
    pub fn calloc<V: PackedView>(&mut self, size: u32, view: &mut V) -> Result<(), ViewFault>
        requires place { self.old.place + 1 < 2 ^ 64 }
        requires operands { 1 ≤ self.old.height }
        requires room { self.old.height ≤ self.old.room }
        ensures { (input : List ℤ) (code : Code)
            → Did input code (i.Calloc size) self.old (V.content view.old) result self.new (V.content view.new) }
    {
        match object_words(self.pop().unpack(), size) {
            Ok(words) => {
                let obj = view.make(words)?;
                self.push(packed(Val::Ptr(obj, 0))?);
                self.advance();
                Ok(())
            }
            Err(t) => Err(ViewFault::Trap(t)),
        }
    }

    #[inline(always)]
    pub fn free<V: PackedView>(&mut self, view: &mut V) -> Result<(), ViewFault>
        requires place { self.old.place + 1 < 2 ^ 64 }
        requires operands { 1 ≤ self.old.height }
        requires room { self.old.height ≤ self.old.room }
        ensures { (input : List ℤ) (code : Code)
            → Did input code i.Free self.old (V.content view.old) result self.new (V.content view.new) }
    {
        if let Val::Ptr(obj, at) = self.pop().unpack() {
            view.free(obj, at)?;
        }
        self.push(PackedValue::zero());
        self.advance();
        Ok(())
    }
}
