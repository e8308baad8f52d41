ghost use Rattle.std.specs.Prelude.{◌≡◌, ◌+◌, ◌-◌, ◌^◌, ◌<◌, ◌≤◌, pos, ◌+ℤ◌, FitsSigned, IfOk};
ghost use Rattle.std.specs.Int.{w64};
ghost use Rattle.al_core.specs.Iteration as spec;
ghost use Rattle.al_core.specs.Serial.{plain_loop};
ghost use Rattle.al_plain.specs.Executions.{execution_of, IsBounded};

use crate::content::{Content, Maker, zeros};
use crate::loops::Loop;
use crate::memory::Memory;
use al_core::{Budget, Ending};
use al_interpreter::{Fault, Frame, Machine, Own, Setting, iterate};
use sqlite_items::Items;
use std::alloc::{AllocError, Global};
use std::marker::Model;

/// An execution of an annotated loop: its number, the loop's start and its trips.
#[derive(Clone, Copy)]
pub struct Execution<'a> {
    pub on: Setting<'a>,
    pub looped: Loop<'a>,
    pub number: u32,
    pub lo: i64,
    pub trips: u64,
}

/// How code ended, the steps that it spent, and what it left.
#[derive(Drop)]
pub struct Finished {
    pub ending: Ending,
    pub steps: u128,
    pub content: Content,
}

impl Model for Finished {
    ghost use Rattle.al_core.specs.Iteration.{Finished};
    ghost use Rattle.al_plain.specs.Codes.{finished_code};

    ghost Value = { Finished };

    ghost coded = { finished_code };

    ghost view = { λ f. record { ending = f.ending; steps = f.steps; content = f.content } };
}

impl Finished {
    /// The memory that it left, and what was printed.
    pub fn into_memory(self) -> (Memory, Items<u8>)
        ensures { result ≡ (self.content.memory, self.content.printed) }
    {
        let (memory, printed, _) = self.content.into_parts();
        (memory, printed)
    }
}

fn finish(ending: Ending, budget: u64, m: Machine<Content>) -> Finished
    ensures { result ≡ record { ending = ending; steps = budget - m.budget; content = m.world } }
{
    Finished {
        ending,
        steps: u128::from(budget.saturating_sub(m.left())),
        content: m.into_stage(),
    }
}

/// The machine at the start of an iteration, which has a budget and names of its own, and 0 in its private locals.
fn start(
    alloc: Global,
    x: &Execution<'_>,
    j: u64,
    mut content: Content,
) -> Result<Machine<Content>, AllocError>
    ensures { IfOk result (λ m. m ≡ spec.iteration_from (execution_of x.now) j content) }
{
    content.begin(Maker::Iteration {
        execution: x.number,
        iteration: j,
    });
    let own = Own::Loop {
        counter: x.looped.counter,
        first: x.looped.note.first,
        last: x.looped.note.last,
    };
    let frame = Frame::new(zeros(alloc, x.looped.locals)?, own);
    Ok(Machine::new(frame, Budget::new(x.on.knobs.iter_steps), content))
}

/// The counter's value in an iteration.
fn counter_at(x: &Execution<'_>, j: u64) -> i64
    requires bounded { IsBounded x.now }
    requires within { j < x.now.trips }
    ensures value { result ≡ x.now.lo +ℤ pos j }
    ensures fits { FitsSigned w64 result }
{
    x.lo + j as i64
}

/// An iteration of an annotated loop.
pub fn iteration(
    alloc: Global,
    x: &Execution<'_>,
    j: u64,
    content: Content,
) -> Result<Finished, AllocError>
    requires bounded { IsBounded x.now }
    requires within { j < x.now.trips }
    ensures exact { IfOk result (λ r. r ≡ spec.iteration (execution_of x.now) j content) }
    ensures few { IfOk result (λ r. r.steps < 2 ^ 64) }
{
    let budget = x.on.knobs.iter_steps;
    let mut m = start(alloc, x, j, content)?;
    let n = counter_at(x, j);
    let (counter, line) = (x.looped.counter, x.looped.note.line);
    match iterate(alloc, &x.on, &mut m, counter, line, x.looped.body, n) {
        Ok(()) => Ok(finish(Ending::Done, budget, m)),
        Err(Fault::Trap(t, line)) => Ok(finish(Ending::Trap(t, line), budget, m)),
        Err(Fault::Memory) => Err(AllocError),
    }
}

/// So many iterations from the first one on, in order, up to the first trap.
pub fn iterations(
    alloc: Global,
    x: &Execution<'_>,
    count: u64,
    first: u64,
    content: Content,
) -> Result<Finished, AllocError>
    requires bounded { IsBounded x.now }
    requires within { first + count ≤ x.now.trips }
    ensures exact { IfOk result (λ r. r ≡ spec.iterations (execution_of x.now) count first content) }
    ensures few { IfOk result (λ r. r.steps < 2 ^ 89) }
{
    let mut content = content;
    let mut steps: u128 = 0;
    for j in first..first + count {
        let r = iteration(alloc, x, j, content)?;
        let Finished {
            ending,
            steps: spent,
            content: left,
        } = r;
        steps += spent;
        content = left;
        match ending {
            Ending::Done => {}
            Ending::Trap(_, _) => {
                return Ok(Finished {
                    ending,
                    steps,
                    content,
                });
            }
        }
    }
    Ok(Finished {
        ending: Ending::Done,
        steps,
        content,
    })
}

/// An execution on one memory: its iterations in order, up to the first trap.
#[tactic(auto, unfolding(al_core::specs::Serial::plain_loop))]
pub fn plain_loop(alloc: Global, x: &Execution<'_>, memory: Memory) -> Result<Finished, AllocError>
    requires { IsBounded x.now }
    ensures { IfOk result (λ r. r ≡ plain_loop (execution_of x.now) memory) }
{
    let maker = Maker::Iteration {
        execution: x.number,
        iteration: 0,
    };
    let content = Content::direct(alloc, memory, maker);
    iterations(alloc, x, x.trips, 0, content)
}
