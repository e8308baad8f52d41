ghost use Rattle.std.specs.Prelude.{◌≡◌, IfOk, IfSome, OnOk, slice_set};
ghost use Rattle.al_core.specs.declared.typed_tree.Typed.{Typed};
ghost use Rattle.al_core.specs.declared.values.Val.TheVariants.{Int};
ghost use Rattle.al_core.specs.Limits.{AreInRange};
ghost use Rattle.al_core.specs.Report as report;
ghost use Rattle.al_core.specs.Run as spec;
ghost use Rattle.al_code.specs.Valid.{IsValid};
ghost use Rattle.al_code.specs.declared.lowered.Code as declared;
ghost use Rattle.al_exec.specs.Machines.{Stands};
ghost use Rattle.al_heap.specs.Stores.{no_memory};
ghost use Rattle.al_laws.specs.Rounds.{RoundsFit};
ghost use Rattle.al_engine.specs.declared.job.Job.{Job};
ghost use Rattle.al_engine.specs.Ends.{EndsAs, report_by};
ghost use Rattle.al_engine.specs.Jobs.{HaveLineSizes, IsCodeOf, MayRun, setting_of};
ghost use Rattle.al_engine.specs.Rests.{IsAt, IsNext, IsStopped};
ghost use Rattle.al_engine.specs.Serial.{ShowsPlainRun, ShowsSerialRun};
ghost use Rattle.al_engine.specs.Worlds.{locals_or, whole_of};

use crate::counts::Counts;
use crate::job::Job;
use crate::start::{globals, main_call};
use crate::world::World;
use al_code::Code;
use al_core::{Budget, Choice, Ending, Knobs, Report, View};
use al_exec::{Machine, Stop};
use al_heap::Store;
use al_pages::PageStore;
use al_round::Gate;
use al_snap::{Direct, Names};
use al_values::PackedValue;
use sqlite_items::Items;
use std::alloc::{AllocError, Global};
use std::thread::Threads;

/// The end of a run.
#[derive(Drop)]
struct End<S> {
    ending: Ending,
    /// The steps that are left.
    left: u64,
    world: World<S>,
}

/// The world at the start of a program, on an empty store.
fn start<S: Store + Drop>(alloc: Global, code: &Code, empty: S) -> Result<World<S>, AllocError>
    requires { S.memory empty ≡ no_memory }
    ensures { IfOk result (λ w. (job : Job) (typed : Typed) → IsCodeOf typed code.now →
        whole_of (⟦<Direct<S> as View>⟧.content w.seen) w.executions w.counts
        ≡ (spec.start (setting_of job typed)).world) }
{
    let store = globals(alloc, empty, code.globals.as_slice())?;
    Ok(World {
        seen: Direct::begin(alloc, store, Names::outer()),
        executions: 0,
        counts: Counts::none(alloc),
    })
}

/// The machine goes on after a loop that left these locals, and this value of its counter.
fn go_on(
    m: &mut Machine,
    locals: Option<Items<PackedValue>>,
    counter: i64,
) -> Result<(), AllocError>
    requires { IfSome locals (λ ls. slice_set ls m.old.counter (Int counter) ≡ ls) }
    ensures set { OnOk result (m.new ≡ record m.old {
      active = record m.old.active {
        locals = locals_or m.old.active.locals locals;
      };
    }) }
    ensures stands { OnOk result ((code : declared.Code) → Stands code m.old → Stands code m.new) }
{
    let Some(locals) = locals else {
        return Ok(());
    };
    // an execution keeps how many locals there are
    if locals.len() != m.locals().len() {
        return Err(AllocError);
    }
    m.after_loop(locals.as_slice(), counter);
    Ok(())
}

/// Answers the loop at which the machine stands. It answers how the run ended, if it did.
fn answer_stop<R: Threads + Sync, S: Store + Sync + Drop, G: Gate>(
    rt: &R,
    alloc: Global,
    job: &Job<'_>,
    number: u32,
    lo: i64,
    hi: i64,
    m: &mut Machine,
    left: u64,
    world: World<S>,
    gate: &G,
) -> Result<(World<S>, Option<Ending>), AllocError>
    requires may { MayRun job.now }
    requires stopped { IsStopped job.now number lo hi m.old left
        (whole_of (⟦<Direct<S> as View>⟧.content world.seen) world.executions world.counts) }
    ensures { IfOk result (λ r. IsNext job.now m.new left
        (whole_of (⟦<Direct<S> as View>⟧.content r.0.seen) r.0.executions r.0.counts) r.1) }
{
    let done = world.answer(rt, alloc, job, number, lo, hi, m.locals(), gate)?;
    match done.ending {
        Ending::Done => {
            go_on(m, done.locals, lo.max(hi))?;
            Ok((done.world, None))
        }
        Ending::Trap(t, line) => Ok((done.world, Some(Ending::Trap(t, line)))),
    }
}

/// Runs to the next stop, and answers it. It answers how the run ended, if it did.
fn go_to_stop<R: Threads + Sync, S: Store + Sync + Drop, G: Gate>(
    rt: &R,
    alloc: Global,
    job: &Job<'_>,
    m: &mut Machine,
    budget: &mut Budget,
    world: World<S>,
    gate: &G,
) -> Result<(World<S>, Option<Ending>), AllocError>
    requires may { MayRun job.now }
    requires at { IsAt job.now m.old budget.old
        (whole_of (⟦<Direct<S> as View>⟧.content world.seen) world.executions world.counts) }
    ensures { IfOk result (λ r. IsNext job.now m.new budget.new
        (whole_of (⟦<Direct<S> as View>⟧.content r.0.seen) r.0.executions r.0.counts) r.1) }
{
    let World {
        mut seen,
        executions,
        counts,
    } = world;
    let stop = m.go(job.code, job.input, &mut seen, budget)?;
    let world = World {
        seen,
        executions,
        counts,
    };
    match stop {
        Stop::Ended(_) => Ok((world, Some(Ending::Done))),
        Stop::Trapped(t, line) => Ok((world, Some(Ending::Trap(t, line)))),
        Stop::AtLoop { number, lo, hi } => {
            let left = budget.left();
            answer_stop(rt, alloc, job, number, lo, hi, m, left, world, gate)
        }
    }
}

/// Runs a program from its start to its end, from stop to stop, on an empty store.
fn run_code<R: Threads + Sync, S: Store + Sync + Drop, G: Gate>(
    rt: &R,
    alloc: Global,
    job: &Job<'_>,
    empty: S,
    gate: &G,
) -> Result<End<S>, AllocError>
    requires may { MayRun job.now }
    requires empty { S.memory empty ≡ no_memory }
    ensures { IfOk result (λ end. (typed : Typed) → IsCodeOf typed job.now.code.now →
        EndsAs (spec.whole_run (setting_of job.now typed)) end.ending
        (whole_of (⟦<Direct<S> as View>⟧.content end.world.seen) end.world.executions end.world.counts)
        end.left) }
{
    let mut m = main_call(alloc, job.code)?;
    let mut world = start(alloc, job.code, empty)?;
    let mut budget = Budget::new(job.knobs.serial_steps);
    for _stop in 0..u64::MAX {
        let (after, ended) = go_to_stop(rt, alloc, job, &mut m, &mut budget, world, gate)?;
        world = after;
        if let Some(ending) = ended {
            return Ok(End {
                ending,
                left: budget.left(),
                world,
            });
        }
    }
    Err(AllocError)
}

/// The report of a run that ended so, from its budget of steps.
fn told<S: Store + Drop>(
    alloc: Global,
    steps: u64,
    end: End<S>,
    watch: bool,
) -> Result<Report, AllocError>
    ensures { IfOk result (λ r. r ≡ report.watched watch (report_by end.ending steps
        (whole_of (⟦<Direct<S> as View>⟧.content end.world.seen) end.world.executions end.world.counts)
        end.left)) }
{
    let End {
        ending,
        left,
        world,
    } = end;
    let World {
        seen,
        executions: _,
        counts,
    } = world;
    let (_, _, printed) = seen.finish();
    let outside = u128::from(steps.saturating_sub(left));
    Ok(Report {
        output: printed,
        ending,
        loops: counts.loops,
        rounds: counts.rounds,
        attempts: counts.attempts,
        aborted: counts.aborted,
        span: outside.checked_add(counts.span).ok_or(AllocError)?,
        events: if watch {
            counts.events
        } else {
            Items::new(alloc)
        },
    })
}

/// Runs the code of a program, plain where an annotated loop has no choice and else in rounds, whose chunks run on so
/// many threads as the knobs say. The number of threads and the gate, which is called round each chunk's run, change
/// nothing of the report. It has no events where nobody watches.
#[tactic(auto, using(al_laws::proofs::RoundsFitted::rounds_fit))]
pub fn run<R: Threads + Sync, G: Gate>(
    rt: &R,
    alloc: Global,
    code: &Code,
    input: &[i64],
    knobs: &Knobs,
    choices: &[Option<Choice>],
    watch: bool,
    gate: &G,
) -> Result<Report, AllocError>
    requires valid { IsValid code.now }
    requires range { AreInRange knobs.now }
    requires lines { HaveLineSizes choices.now }
    ensures exact { IfOk result (λ told. (typed : Typed) → IsCodeOf typed code.now
        → told ≡ report.watched watch (report.report typed input.now (spec.sizes_of knobs.now) choices.now)) }
    ensures rounds { (typed : Typed)
        → RoundsFit (report.report typed input.now (spec.sizes_of knobs.now) choices.now).events }
    ensures serial { IfOk result (λ told. (typed : Typed) → IsCodeOf typed code.now
        → ShowsSerialRun typed input.now knobs.now choices.now told) }
    ensures in_order { IfOk result (λ told. (typed : Typed) → IsCodeOf typed code.now
        → ShowsPlainRun typed input.now knobs.now choices.now told) }
{
    let job = Job {
        code,
        input,
        knobs: *knobs,
        choices,
    };
    let end = run_code(rt, alloc, &job, PageStore::new(alloc), gate)?;
    told(alloc, knobs.serial_steps, end, watch)
}
