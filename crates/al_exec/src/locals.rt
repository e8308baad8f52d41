ghost use Rattle.std.specs.Prelude.{◌≡◌, ◌≤◌, ◌+◌, ◌++◌, OnOk, replicate, pos};
ghost use Rattle.al_core.specs.declared.values.Val.TheVariants as value;
ghost use Rattle.al_core.specs.Access.{in_iteration};
ghost use Rattle.al_core.specs.Action as action;
ghost use Rattle.al_core.specs.Meaning as meaning;
ghost use Rattle.al_exec.specs.Frames.{Filled};
ghost use Rattle.al_exec.specs.Meets.{Answers};
ghost use Rattle.al_exec.specs.Tripping.{ReadsRange};

use crate::active::Active;
use crate::values::number_in;
use al_core::{Addr, Bound, Kind, ViewFault};
use al_values::{PackedValue, PackedView};
use std::alloc::AllocError;

/// The start and the bound of an annotated loop.
#[derive(Clone, Copy, Debug, PartialEq, Eq)]
pub struct Range {
    pub lo: i64,
    pub hi: i64,
}

#[tactic(auto, unfolding(al_core::specs::Action::bind, al_core::specs::Action::pure, al_core::specs::Action::lift, al_core::specs::Action::asks, al_core::specs::Action::get_frame, al_core::specs::Action::set_frame))]
impl Active {
    /// A local, which may be one that a loop's iterations share.
    fn read_local<V: PackedView>(&self, k: u32, view: &mut V) -> Result<PackedValue, ViewFault>
        ensures { Answers (action.get_local in_iteration k) self.now (V.content view.old)
            result self.now (V.content view.new) }
    {
        if self.is_private(k) {
            return Ok(self.local(k));
        }
        view.load_packed(Addr::Local(k), Kind::Int)
    }

    /// The bound of an annotated loop.
    pub fn bound<V: PackedView>(&self, bound: Bound, view: &mut V) -> Result<i64, ViewFault>
        ensures { Answers (meaning.bound_value in_iteration bound) self.now (V.content view.old)
            result self.now (V.content view.new) }
    {
        match bound {
            Bound::Number(n) => Ok(n),
            Bound::Local(k) => match number_in(self.read_local(k, view)?) {
                Ok(n) => Ok(n),
                Err(t) => Err(ViewFault::Trap(t)),
            },
        }
    }

    /// Takes the start of an annotated loop, and reads its bound.
    pub fn range<V: PackedView>(&mut self, bound: Bound, view: &mut V) -> Result<Range, ViewFault>
        requires { 1 ≤ self.old.height }
        ensures read { ReadsRange bound self.old (V.content view.old) result self.new (V.content view.new) }
        ensures size { self.new.size ≡ self.old.size }
    {
        match number_in(self.pop()) {
            Ok(lo) => match self.bound(bound, view) {
                Ok(hi) => Ok(Range { lo, hi }),
                Err(e) => Err(e),
            },
            Err(t) => Err(ViewFault::Trap(t)),
        }
    }

    /// Sets the counter of an annotated loop.
    pub fn set_counter<V: PackedView>(
        &mut self,
        k: u32,
        n: PackedValue,
        view: &mut V,
    ) -> Result<(), ViewFault>
        ensures did { Answers (action.set_local in_iteration k n) self.old (V.content view.old)
            result self.new (V.content view.new) }
        ensures kept { self.new ≡ record self.old { locals = self.new.locals } }
    {
        if self.is_private(k) {
            self.set_local(k, n);
            return Ok(());
        }
        view.store_packed(Addr::Local(k), n)
    }
}

impl Active {
    /// Puts so many zeros on the stack, and makes room for so many values more.
    pub fn fill(&mut self, zeros: u32, more: u32) -> Result<(), AllocError>
        ensures ok { OnOk result (Filled self.old zeros more self.new) }
        ensures size { self.old.size ≤ self.new.size }
    {
        self.grow(zeros as usize + more as usize)?;
        self.push_zeros(zeros);
        Ok(())
    }

    /// Puts so many zeros on the stack.
    pub fn push_zeros(&mut self, zeros: u32)
        requires { self.old.height + zeros ≤ self.old.room }
        ensures { self.new ≡ record self.old {
          stack = replicate zeros (value.Int (pos 0)) ++ self.old.stack;
          height = self.old.height + zeros;
        } }
    {
        for _i in 0..zeros {
            self.push(PackedValue::zero());
        }
    }
}
