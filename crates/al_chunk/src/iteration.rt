ghost use Rattle.std.specs.Prelude.{◌≡◌, ◌<◌, ◌≤◌, Some, IfOk, OnOk, slice_get};
ghost use Rattle.al_core.specs.Access.{nothing_made};
ghost use Rattle.al_core.specs.Iteration.{iteration};
ghost use Rattle.al_code.specs.Valid.{IsValid};
ghost use Rattle.al_exec.specs.Starts.{HasRoom};
ghost use Rattle.al_chunk.specs.Loops.{IsBounded, InEachTree, finished};

use crate::env::{LoopEnv, Run};
use al_code::Code;
use al_core::{Budget, Ending, LoopInfo};
use al_exec::{Machine, Stop};
use al_values::PackedView;
use std::alloc::AllocError;

/// Runs one iteration over any view, in a machine that `iterate` made for the loop. The view names the objects of that
/// iteration. It is exactly the definition's iteration.
pub fn run_iteration<V: PackedView>(
    machine: &mut Machine,
    code: &Code,
    info: &LoopInfo,
    env: &LoopEnv,
    input: &[i64],
    j: u64,
    view: &mut V,
) -> Result<Run, AllocError>
    requires valid { IsValid code.now }
    requires one { slice_get code.now.loops info.now.number ≡ Some info.now }
    requires bounded { IsBounded env.now }
    requires within { j < env.now.trips }
    requires room { HasRoom code.now info.now machine.old }
    requires names { (V.content view.old).allocations ≡ nothing_made env.now.execution j }
    ensures exact { IfOk result (λ r. InEachTree code.now info.now input.now env.now (λ x.
        iteration x j (V.content view.old) ≡ finished r (V.content view.new))) }
    ensures few { IfOk result (λ r. r.steps ≤ env.now.iter_steps) }
    ensures room { OnOk result (HasRoom code.now info.now machine.new) }
{
    machine.again(code, info, env.counter(j));
    let mut budget = Budget::new(env.iter_steps);
    let ending = match machine.go(code, input, view, &mut budget)? {
        Stop::Ended(_) => Ending::Done,
        Stop::Trapped(t, line) => Ending::Trap(t, line),
        // no loop is stopped at inside an iteration
        Stop::AtLoop { .. } => return Err(AllocError),
    };
    Ok(Run {
        ending,
        steps: env.iter_steps.saturating_sub(budget.left()),
    })
}
