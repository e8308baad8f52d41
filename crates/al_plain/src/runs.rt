ghost use Rattle.std.specs.Prelude.{◌≡◌, ◌+◌, ◌-◌, ◌<◌, ◌^◌, IfOk};
ghost use Rattle.al_core.specs.Limits.{AreInRange};
ghost use Rattle.al_core.specs.Report as report;
ghost use Rattle.al_core.specs.Run as spec;
ghost use Rattle.al_interpreter.specs.Settings.{setting_of};
ghost use Rattle.al_core.specs.Iteration.{ending_of};
ghost use Rattle.al_plain.specs.Told.{report_by};
ghost use Rattle.al_laws.specs.Rounds.{RoundsFit};

use crate::content::{Content, Maker, zeros};
use crate::counts::Counts;
use crate::memory::Memory;
use crate::objects::Objects;
use crate::whole::Whole;
use crate::words::set_at;
use al_core::{Budget, Choice, Ending, Knobs, Obj, Report, TGlobal, Typed, Val};
use al_interpreter::{Fault, Frame, Machine, Own, Program, Setting, run_main};
use sqlite_items::Items;
use std::alloc::{AllocError, Global};

/// A global at the start: zeroed, or its first word at its written start.
fn start_words(alloc: Global, g: &TGlobal) -> Result<Items<Val>, AllocError>
    ensures { IfOk result (λ words. words ≡ spec.start_words g.now) }
{
    let mut words = zeros(alloc, g.words as usize)?;
    set_at(&mut words, 0, Val::Int(g.start));
    Ok(words)
}

/// The globals of a program at its start.
fn globals(alloc: Global, all: &[TGlobal]) -> Result<Objects, AllocError>
    ensures { IfOk result (λ objects. objects ≡ spec.globals_from 0 all.now) }
{
    let mut objects = Objects::new(alloc);
    let mut left = all.len();
    while left > 0 {
        left -= 1;
        let k = u32::try_from(left).map_err(|_| AllocError)?;
        objects.insert(Obj::Global(k), start_words(alloc, &all[left])?)?;
    }
    Ok(objects)
}

/// The machine at the start of a program.
fn start(alloc: Global, on: &Setting<'_>) -> Result<Machine<Whole>, AllocError>
    ensures { IfOk result (λ m. m ≡ spec.start (setting_of on.now)) }
{
    let objects = globals(alloc, on.program.typed().globals.as_slice())?;
    let memory = Memory::new(objects, Items::new(alloc));
    let whole = Whole {
        content: Content::direct(alloc, memory, Maker::Outer),
        executions: 0,
        counts: Counts::none(alloc),
    };
    let frame = Frame::new(Items::new(alloc), Own::All);
    Ok(Machine::new(frame, Budget::new(on.knobs.serial_steps), whole))
}

/// A whole run: how it ended, and the machine at its end.
#[tactic(auto, unfolding(al_core::specs::Run::whole_run))]
fn whole_run(alloc: Global, on: &Setting<'_>) -> Result<(Ending, Machine<Whole>), AllocError>
    ensures ending { IfOk result (λ r. r.0 ≡ ending_of (spec.whole_run (setting_of on.now)).0) }
    ensures machine { IfOk result (λ r. r.1 ≡ (spec.whole_run (setting_of on.now)).1) }
{
    let mut m = start(alloc, on)?;
    match run_main(alloc, on, &mut m) {
        Ok(_) => Ok((Ending::Done, m)),
        Err(Fault::Trap(t, line)) => Ok((Ending::Trap(t, line), m)),
        Err(Fault::Memory) => Err(AllocError),
    }
}

/// The report of a run that ended so, from its budget of steps.
fn told(alloc: Global, ending: Ending, budget: u64, m: Machine<Whole>, watch: bool) -> Report
    requires { (budget - m.budget) + m.world.counts.span < 2 ^ 128 }
    ensures { result ≡ report.watched watch (report_by ending budget m) }
{
    let steps = budget.saturating_sub(m.left());
    let Whole {
        content,
        executions: _,
        counts,
    } = m.into_stage();
    let (_, output, _) = content.into_parts();
    Report {
        output,
        ending,
        loops: counts.loops,
        rounds: counts.rounds,
        attempts: counts.attempts,
        aborted: counts.aborted,
        span: u128::from(steps) + counts.span,
        events: if watch {
            counts.events
        } else {
            Items::new(alloc)
        },
    }
}

/// Runs a program of which the annotated loops are collected.
#[tactic(auto, unfolding(al_core::specs::Report::report))]
fn run_program(
    alloc: Global,
    program: &Program<'_>,
    input: &[i64],
    knobs: Knobs,
    choices: &[Option<Choice>],
    watch: bool,
) -> Result<Report, AllocError>
    requires { AreInRange knobs }
    ensures exact { let r = report.report program.now input.now (spec.sizes_of knobs) choices.now in
        IfOk result (λ told. told ≡ report.watched watch r) }
{
    let on = Setting {
        program,
        input,
        knobs,
        choices,
    };
    let (ending, m) = whole_run(alloc, &on)?;
    Ok(told(alloc, ending, knobs.serial_steps, m, watch))
}

/// Runs a program, plain where an annotated loop has no choice and else in rounds. The report has no events where
/// nobody watches.
#[tactic(auto, using(al_laws::proofs::RoundsFitted::rounds_fit))]
pub fn run(
    alloc: Global,
    typed: &Typed,
    input: &[i64],
    knobs: Knobs,
    choices: &[Option<Choice>],
    watch: bool,
) -> Result<Report, AllocError>
    requires { AreInRange knobs }
    ensures exact { let r = report.report typed.now input.now (spec.sizes_of knobs) choices.now in
        IfOk result (λ told. told ≡ report.watched watch r) }
    ensures rounds { RoundsFit (report.report typed.now input.now (spec.sizes_of knobs) choices.now).events }
{
    let program = Program::new(alloc, typed)?;
    run_program(alloc, &program, input, knobs, choices, watch)
}
