ghost use Rattle.std.specs.Prelude.{◌≡◌, ◌+◌, ◌*◌, ◌≤◌, Some, IfOk, slice_get};
ghost use Rattle.al_core.specs.Iteration.{iterations};
ghost use Rattle.al_code.specs.Valid.{IsValid};
ghost use Rattle.al_chunk.specs.Loops.{IsBounded, InEachTree, finished};

use crate::env::{LoopEnv, Run};
use crate::iteration::run_iteration;
use al_code::Code;
use al_core::{Ending, LoopInfo};
use al_exec::Machine;
use al_heap::Store;
use al_snap::{Direct, Names, Snap};
use al_values::PackedView;
use std::alloc::{AllocError, Global};

/// A view on which one iteration runs after another.
pub trait LoopView: PackedView {
    /// From now on the next objects have these names.
    fn name_by(&mut self, names: Names)
        ensures { Self.content self.new ≡ record (Self.content self.old) { allocations = names } };
}

impl<'a, S: Store> LoopView for Snap<'a, S> {
    fn name_by(&mut self, names: Names) {
        self.set_names(names);
    }
}

impl<S: Store> LoopView for Direct<S> {
    fn name_by(&mut self, names: Names) {
        self.swap_names(names);
    }
}

/// Runs so many iterations from the first one on, in order, up to the first trap.
pub fn run_iterations<V: LoopView>(
    alloc: Global,
    code: &Code,
    info: &LoopInfo,
    env: &LoopEnv,
    input: &[i64],
    first: u64,
    count: u64,
    view: &mut V,
) -> Result<Run, AllocError>
    requires valid { IsValid code.now }
    requires one { slice_get code.now.loops info.now.number ≡ Some info.now }
    requires bounded { IsBounded env.now }
    requires within { first + count ≤ env.now.trips }
    ensures exact { IfOk result (λ r. InEachTree code.now info.now input.now env.now (λ x.
        iterations x count first (V.content view.old) ≡ finished r (V.content view.new))) }
    ensures few { IfOk result (λ r. r.steps ≤ count * env.now.iter_steps) }
{
    let mut machine = Machine::iterate(alloc, code, info, env.lo)?;
    let mut steps: u64 = 0;
    for j in first..first + count {
        view.name_by(Names::iteration(env.execution, j));
        let turn = run_iteration(&mut machine, code, info, env, input, j, view)?;
        steps += turn.steps;
        match turn.ending {
            Ending::Done => {}
            Ending::Trap(_, _) => {
                return Ok(Run {
                    ending: turn.ending,
                    steps,
                });
            }
        }
    }
    Ok(Run {
        ending: Ending::Done,
        steps,
    })
}
