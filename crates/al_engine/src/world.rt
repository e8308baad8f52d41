ghost use Rattle.std.specs.Prelude.{◌≡◌, List, Some, None, IfOk, IfSome, MatchOption, slice_get, slice_set};
ghost use Rattle.al_core.specs.declared.typed_tree.Typed.{Typed};
ghost use Rattle.al_core.specs.Loops.{loop_at};
ghost use Rattle.al_core.specs.declared.values.Val.{Val};
ghost use Rattle.al_core.specs.Run as spec;
ghost use Rattle.al_core.specs.Run.{Whole};
ghost use Rattle.al_engine.specs.Executions.{HasNoLoop, InTrees, IsLoop, MayEnter, loop_result};
ghost use Rattle.al_engine.specs.Jobs.{IsCodeOf, MayRun, setting_of};
ghost use Rattle.al_engine.specs.Worlds.{HasCounter, IsBefore, IsCounted, answer_by, whole_of};

use crate::counts::Counts;
use crate::entered::Entered;
use crate::executions::{LoopResult, execute};
use crate::job::Job;
use al_chunk::LoopEnv;
use al_code::Code;
use al_core::{Ending, LoopInfo, View, trips};
use al_heap::Store;
use al_round::Gate;
use al_snap::{Direct, Names};
use al_values::PackedValue;
use sqlite_items::Items;
use std::alloc::{AllocError, Global};
use std::thread::Threads;

/// The world outside iterations: what the code sees, how many executions of annotated loops there were, and the counts.
#[derive(Drop)]
pub(crate) struct World<S> {
    pub seen: Direct<S>,
    pub executions: u32,
    pub counts: Counts,
}

/// How an annotated loop was answered.
#[derive(Drop)]
pub(crate) struct Answered<S> {
    pub world: World<S>,
    pub ending: Ending,
    /// The locals that it left, with its counter. There are none where it changed none, or trapped.
    pub locals: Option<Items<PackedValue>>,
}

/// Puts a value in place of a local, where there is one.
fn set_at(locals: &mut Items<PackedValue>, k: u32, v: PackedValue)
    ensures { locals.new ≡ slice_set locals.old k v }
{
    if (k as usize) < locals.len() {
        locals.set(k as usize, v);
    }
}

/// The locals after an execution that left these, where there was no trap: its counter holds the greater of its start
/// and its bound.
#[tactic(auto, using(crate::proofs::Counters::counter_set))]
fn after_loop(
    x: &Entered<'_>,
    ending: Ending,
    mut locals: Items<PackedValue>,
) -> Option<Items<PackedValue>>
    requires { MayEnter x.now }
    ensures answer { (old : List Val) → InTrees x.now (λ e.
        spec.after_loop e x.now.hi ending locals ≡ answer_by ending old result) }
    ensures counter { IfSome result (λ ls. HasCounter x.now.info.now x.now.env.lo x.now.hi ls) }
{
    match ending {
        Ending::Done => {
            set_at(
                &mut locals,
                x.info.counter,
                PackedValue::from_int(x.env.lo.max(x.hi)),
            );
            Some(locals)
        }
        Ending::Trap(_, _) => None,
    }
}

/// What a world has besides its store, while an execution runs.
#[derive(Drop)]
struct Before {
    names: Names,
    printed: Items<u8>,
    executions: u32,
    counts: Counts,
}

/// The world after an execution that came to this.
fn come_back<S: Store + Drop>(
    alloc: Global,
    x: &Entered<'_>,
    before: Before,
    done: LoopResult<S>,
) -> Result<Answered<S>, AllocError>
    requires { MayEnter x.now }
    ensures did { IfOk result (λ r. (old : List Val) (w : Whole) → IsBefore before w → InTrees x.now (λ e.
        spec.come_back e x.now.hi w (loop_result (S.memory done.store) done.printed done.ending done.counts)
        ≡ (
          answer_by r.ending old r.locals,
          whole_of (⟦<Direct<S> as View>⟧.content r.world.seen) r.world.executions r.world.counts,
        ))) }
    ensures counter { IfOk result (λ r. IfSome r.locals (λ ls.
        HasCounter x.now.info.now x.now.env.lo x.now.hi ls)) }
{
    let Before {
        names,
        mut printed,
        executions,
        mut counts,
    } = before;
    let LoopResult {
        mut store,
        printed: more,
        ending,
        counts: added,
    } = done;
    let locals = store.take_locals();
    printed.append(more)?;
    counts.add(added)?;
    let executions = executions.checked_add(1).ok_or(AllocError)?;
    Ok(Answered {
        world: World {
            seen: Direct::resume(alloc, store, names, printed),
            executions,
            counts,
        },
        ending,
        locals: after_loop(x, ending, locals),
    })
}

/// The code's annotated loop of a number. Where there is none, a tree for which the code stands has none either.
fn loop_of(code: &Code, number: u32) -> Option<&LoopInfo>
    ensures { MatchOption result (HasNoLoop code.now number) (λ info. IsLoop code.now number info.now) }
{
    let info = code.loops.get(number as usize)?;
    if info.number == number {
        Some(info)
    } else {
        None
    }
}

impl<S: Store + Sync + Drop> World<S> {
    /// Runs an execution of an annotated loop from these locals. Its number is that of the next.
    fn run_loop<R: Threads + Sync, G: Gate>(
        self,
        rt: &R,
        alloc: Global,
        x: &Entered<'_>,
        locals: Items<PackedValue>,
        gate: &G,
    ) -> Result<Answered<S>, AllocError>
        requires may { MayEnter x.now }
        requires number { x.now.env.execution ≡ self.executions }
        ensures did { IfOk result (λ r. InTrees x.now (λ e.
            spec.run_loop (setting_of x.now.job e.typed) e x.now.hi locals
            (whole_of (⟦<Direct<S> as View>⟧.content self.seen) self.executions self.counts)
            ≡ (
              answer_by r.ending locals r.locals,
              whole_of (⟦<Direct<S> as View>⟧.content r.world.seen) r.world.executions r.world.counts,
            ))) }
        ensures counter { IfOk result (λ r. IfSome r.locals (λ ls.
            HasCounter x.now.info.now x.now.env.lo x.now.hi ls)) }
    {
        let World {
            seen,
            executions,
            counts,
        } = self;
        let (mut store, names, printed) = seen.finish();
        store.set_locals(locals);
        let done = execute(rt, alloc, x, store, gate)?;
        let before = Before {
            names,
            printed,
            executions,
            counts,
        };
        come_back(alloc, x, before, done)
    }

    /// Answers an annotated loop, from the frame's locals. Too many trips trap at its line, and are no execution.
    pub fn answer<R: Threads + Sync, G: Gate>(
        self,
        rt: &R,
        alloc: Global,
        job: &Job<'_>,
        number: u32,
        lo: i64,
        hi: i64,
        locals: &[PackedValue],
        gate: &G,
    ) -> Result<Answered<S>, AllocError>
        requires may { MayRun job.now }
        ensures did { IfOk result (λ r. (typed : Typed) → IsCodeOf typed job.now.code.now
            → spec.visit_loop (setting_of job.now typed) lo hi locals.now
            (whole_of (⟦<Direct<S> as View>⟧.content self.seen) self.executions self.counts) (loop_at typed number)
            ≡ (
              answer_by r.ending locals.now r.locals,
              whole_of (⟦<Direct<S> as View>⟧.content r.world.seen) r.world.executions r.world.counts,
            )) }
        ensures counter { IfOk result (λ r. IfSome r.locals (λ ls. IsCounted job.now.code.now number lo hi ls)) }
    {
        let Some(info) = loop_of(job.code, number) else {
            return Ok(self.unchanged(Ending::Done));
        };
        match trips(lo, hi) {
            Ok(trips) => {
                let env = LoopEnv {
                    execution: self.executions,
                    lo,
                    trips,
                    chunk: job.knobs.chunk,
                    iter_steps: job.knobs.iter_steps,
                };
                let x = Entered {
                    job: *job,
                    info,
                    env,
                    hi,
                };
                let locals = Items::from_slice(alloc, locals)?;
                self.run_loop(rt, alloc, &x, locals, gate)
            }
            Err(t) => Ok(self.unchanged(Ending::Trap(t, info.line))),
        }
    }

    fn unchanged(self, ending: Ending) -> Answered<S>
        ensures { result ≡ record { world = self; ending = ending; locals = None } }
    {
        Answered {
            world: self,
            ending,
            locals: None,
        }
    }
}
