ghost use Rattle.std.specs.Prelude.{◌≡◌, List, ℤ, Some, IfOk, OnOk, slice_get};
ghost use Rattle.al_code.specs.Valid.{IsValid};
ghost use Rattle.al_exec.specs.Going.{Begins, StopsAs, run_in, run_of, state_with};
ghost use Rattle.al_exec.specs.Machines.{Keeps, Moves, Stands, state_in};
ghost use Rattle.al_exec.specs.Pauses.{instr_of};
ghost use Rattle.al_exec.specs.Starts.{HasRoom};
ghost use Rattle.al_core.specs.declared.choices.LoopInfo.{LoopInfo};
ghost use Rattle.al_exec.specs.declared.machine.Start.TheVariants as start;

use crate::fault::Fault;
use crate::machine::{Machine, Onward, Start};
use crate::pause::Pause;
use crate::run::line_at;
use crate::stop::Stop;
use al_code::Code;
use al_core::{Budget, Trap, ViewFault};
use al_values::{PackedValue, PackedView};
use std::alloc::AllocError;

impl Machine {
    /// Does the instruction of a pause.
    fn pass<V: PackedView>(
        &mut self,
        code: &Code,
        pause: Pause,
        view: &mut V,
    ) -> Result<Onward, ViewFault>
        requires valid { IsValid code.now }
        requires stands { Stands code.now self.old }
        requires at { slice_get code.now.instrs self.old.active.place ≡ Some (instr_of pause) }
        ensures moves { (input : List ℤ)
            → Moves input code.now (instr_of pause) self.old (V.content view.old) result self.new (V.content view.new) }
        ensures kept { Keeps self.old self.new }
    {
        match pause {
            Pause::Call(f) => self.enter_function(code, f),
            Pause::Return => Ok(self.leave(code)),
            Pause::Loop(k) => self.enter_loop(code, k, view),
            Pause::EndIteration => self.end_iteration(code, view),
        }
    }

    /// Does what comes before the first instruction.
    fn begin_run<V: PackedView>(&mut self, view: &mut V) -> Result<(), Fault>
        ensures begins { Begins self.old (V.content view.old) result self.new (V.content view.new) }
        ensures kept { Keeps self.old self.new }
    {
        match self.start {
            Start::Running => Ok(()),
            Start::Function(line) => {
                if !self.active.spend() {
                    return Err(Fault::Trap(Trap::Steps, line));
                }
                self.start = Start::Running;
                Ok(())
            }
            Start::Iteration(line, counter, n) => {
                if !self.active.spend() {
                    return Err(Fault::Trap(Trap::Steps, line));
                }
                match self
                    .active
                    .set_counter(counter, PackedValue::from_int(n), view)
                {
                    Ok(()) => {
                        self.start = Start::Running;
                        Ok(())
                    }
                    Err(ViewFault::Trap(t)) => Err(Fault::Trap(t, line)),
                    Err(ViewFault::Memory) => Err(Fault::Memory),
                }
            }
        }
    }

    /// Runs to the next stop, from where it stands.
    fn run_on<V: PackedView>(
        &mut self,
        code: &Code,
        input: &[i64],
        view: &mut V,
    ) -> Result<Stop, AllocError>
        requires valid { IsValid code.now }
        requires stands { Stands code.now self.old }
        ensures stops { IfOk result (λ stop.
            StopsAs code.now self.old.inside (run_in input.now code.now self.old)
            (state_in self.old (V.content view.old)) stop self.new self.new.active.budget (V.content view.new)) }
        ensures kept { OnOk result (Keeps self.old self.new) }
    {
        'go: loop {
            match self
                .active
                .run(self.alloc, code, input, &mut self.bytes, view)
            {
                Ok(pause) => {
                    let place = self.active.place();
                    match self.pass(code, pause, view) {
                        Ok(Onward::Goes) => {}
                        Ok(Onward::Stops(number, lo, hi)) => {
                            return Ok(Stop::AtLoop { number, lo, hi });
                        }
                        Ok(Onward::Ends(v)) => return Ok(Stop::Ended(v)),
                        Err(ViewFault::Trap(t)) => {
                            return Ok(Stop::Trapped(t, line_at(code, place)));
                        }
                        Err(ViewFault::Memory) => return Err(AllocError),
                    }
                }
                Err(Fault::Trap(t, line)) => return Ok(Stop::Trapped(t, line)),
                Err(Fault::Memory) => return Err(AllocError),
            }
        }
    }

    /// Runs to the next stop, from its start.
    fn run_from_start<V: PackedView>(
        &mut self,
        code: &Code,
        input: &[i64],
        view: &mut V,
    ) -> Result<Stop, AllocError>
        requires valid { IsValid code.now }
        requires stands { Stands code.now self.old }
        ensures stops { IfOk result (λ stop.
            StopsAs code.now self.old.inside (run_of input.now code.now self.old)
            (state_in self.old (V.content view.old)) stop self.new self.new.active.budget (V.content view.new)) }
        ensures kept { OnOk result (Keeps self.old self.new) }
    {
        match self.begin_run(view) {
            Ok(()) => {
                let stop = self.run_on(code, input, view)?;
                Ok(stop)
            }
            Err(Fault::Trap(t, line)) => Ok(Stop::Trapped(t, line)),
            Err(Fault::Memory) => Err(AllocError),
        }
    }

    /// Runs to the next stop, in valid code in which the machine stands: that with which it was started. It stops
    /// exactly as the code's meaning does, over any view, with the same steps left. It always returns.
    pub fn go<V: PackedView>(
        &mut self,
        code: &Code,
        input: &[i64],
        view: &mut V,
        budget: &mut Budget,
    ) -> Result<Stop, AllocError>
        requires valid { IsValid code.now }
        requires stands { Stands code.now self.old }
        ensures stops { IfOk result (λ stop.
            StopsAs code.now self.old.inside (run_of input.now code.now self.old)
            (state_with self.old budget.old (V.content view.old)) stop self.new budget.new (V.content view.new)) }
        ensures running { OnOk result (self.new.start ≡ start.Running) }
        ensures room { OnOk result
            ((info : LoopInfo) → HasRoom code.now info self.old → HasRoom code.now info self.new) }
    {
        self.active.set_budget(budget.left());
        let stop = self.run_from_start(code, input, view)?;
        *budget = Budget::new(self.active.budget());
        self.start = Start::Running;
        Ok(stop)
    }
}
