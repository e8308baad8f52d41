ghost use Rattle.std.specs.Prelude.{ℕ, List};
ghost use Rattle.al_source.specs.Answers.{Does};
ghost use Rattle.al_core.specs.declared.values.Val.{Val};
ghost use Rattle.al_core.specs.Action.{At};
ghost use Rattle.al_interpreter.specs.declared.setting.Setting as given;
ghost use Rattle.al_interpreter.specs.Faults.{stopped};
ghost use Rattle.al_interpreter.specs.Calls.{ByFunction, call_within};

use crate::fault::Fault;
use crate::machine::Machine;
use crate::setting::Setting;
use crate::stage::Stage;
use al_core::Val;
use sqlite_items::Items;
use std::alloc::Global;
use std::marker::PhantomData;

/// What calls do. A walk takes it, so that the walk is proved by itself.
pub trait Calls {
    /// What the code runs on.
    type On: Stage;

    /// Whether functions may be called, on what a run is given.
    ghost can_call: { Self → given.Setting → Type 0 };

    /// What a call does, on what a run is given: of a function by its number, with arguments, at a line.
    ghost does: { Self → given.Setting → ℕ → List Val → At Self.On Val };

    /// Calls a function.
    fn call(
        &self,
        on: &Setting<'_>,
        m: &mut Machine<Self::On>,
        f: u32,
        args: Items<Val>,
        line: u32,
    ) -> Result<Val, Fault>
        requires { can_call self.now on.now }
        ensures { Does stopped (does self.now on.now f args line m.old) result m.new };
}

/// Calls by a function of the code, where so many more calls may be active.
#[derive(Drop)]
pub struct Within<S, F> {
    pub alloc: Global,
    pub room: u32,
    pub function: F,
    pub stage: PhantomData<S>,
}

impl<S: Stage, F> Calls for Within<S, F>
where
    F: Fn(Global, &Setting<'_>, u32, &mut Machine<S>, u32, Items<Val>, u32) -> Result<Val, Fault>,
{
    type On = S;

    ghost can_call = { λ c on.
        ByFunction (call_within S.world S.place c.room) c.room on (F.pre c.function) (F.post c.function) };

    ghost does = { λ c. call_within S.world S.place c.room };

    fn call(
        &self,
        on: &Setting<'_>,
        m: &mut Machine<S>,
        f: u32,
        args: Items<Val>,
        line: u32,
    ) -> Result<Val, Fault> {
        (self.function)(self.alloc, on, self.room, m, f, args, line)
    }
}
