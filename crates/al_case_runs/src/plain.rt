ghost use Rattle.std.specs.Prelude.{◌≡◌, Some, slice_get};
ghost use Rattle.al_code.specs.Valid.{IsValid};
ghost use Rattle.al_exec.specs.Machines.{Stands};

use al_code::Code;
use al_core::{Budget, Ending, LoopInfo, trips};
use al_exec::{Machine, Stop};
use al_heap::Store;
use al_snap::{Direct, Names};
use sqlite_items::Items;
use std::alloc::{AllocError, Global};

/// The steps of one iteration of an annotated loop, and of all code outside such iterations.
#[derive(Clone, Copy, Debug, PartialEq, Eq)]
pub struct Steps {
    pub iteration: u64,
    pub serial: u64,
}

/// A run: how it ended, what it printed, the steps that it took, and its memory.
#[derive(Drop)]
pub struct Ran<S> {
    pub ending: Ending,
    pub printed: Items<u8>,
    pub steps: u64,
    pub store: S,
}

/// Runs the iterations of an annotated loop one after another.
fn iterations<S: Store + Drop>(
    alloc: Global,
    code: &Code,
    info: &LoopInfo,
    input: &[i64],
    lo: i64,
    count: u64,
    execution: u32,
    most: u64,
    store: S,
) -> Result<Ran<S>, AllocError>
    requires valid { IsValid code.now }
    requires one { slice_get code.now.loops info.now.number ≡ Some info.now }
{
    let mut machine = Machine::iterate(alloc, code, info, lo)?;
    let mut view = Direct::begin(alloc, store, Names::iteration(execution, 0));
    let mut ending = Ending::Done;
    let mut steps = 0u64;
    for j in 0..count {
        view.swap_names(Names::iteration(execution, j));
        machine.again(code, info, lo.wrapping_add(j.cast_signed()));
        let mut budget = Budget::new(most);
        let stop = machine.go(code, input, &mut view, &mut budget)?;
        steps = steps.wrapping_add(most.wrapping_sub(budget.left()));
        if let Stop::Trapped(trap, line) = stop {
            ending = Ending::Trap(trap, line);
            break;
        }
    }
    let (store, _names, printed) = view.finish();
    Ok(Ran {
        ending,
        printed,
        steps,
        store,
    })
}

/// Answers the loop at which a machine stands, and lets it go on unless an iteration traps.
fn answer<S: Store + Drop>(
    alloc: Global,
    code: &Code,
    info: &LoopInfo,
    input: &[i64],
    machine: &mut Machine,
    lo: i64,
    hi: i64,
    execution: u32,
    most: u64,
    mut store: S,
) -> Result<Ran<S>, AllocError>
    requires valid { IsValid code.now }
    requires one { slice_get code.now.loops info.now.number ≡ Some info.now }
    requires stands { Stands code.now machine.old }
    ensures { Stands code.now machine.new }
{
    let count = match trips(lo, hi) {
        Ok(count) => count,
        Err(trap) => {
            return Ok(Ran {
                ending: Ending::Trap(trap, info.line),
                printed: Items::new(alloc),
                steps: 0,
                store,
            });
        }
    };
    store.set_locals(Items::from_slice(alloc, machine.locals())?);
    let Ran {
        ending,
        printed,
        steps,
        mut store,
    } = iterations(alloc, code, info, input, lo, count, execution, most, store)?;
    let locals = store.take_locals();
    if locals.len() == machine.locals().len() {
        machine.after_loop(locals.as_slice(), lo.max(hi));
    }
    Ok(Ran {
        ending,
        printed,
        steps,
        store,
    })
}

/// Runs the main function of a program, each annotated loop plain. There is no run where that function has parameters.
pub fn run_plain<S: Store + Drop>(
    alloc: Global,
    code: &Code,
    input: &[i64],
    most: Steps,
    mut store: S,
) -> Result<Option<Ran<S>>, AllocError>
    requires { IsValid code.now }
{
    if code.funcs.as_slice()[code.main as usize].params != 0 {
        return Ok(None);
    }
    let mut machine = Machine::call(alloc, code, code.main, &[])?;
    let mut budget = Budget::new(most.serial);
    let mut names = Names::outer();
    let mut printed = Items::new(alloc);
    let mut steps = 0u64;
    for execution in 0..u32::MAX {
        let mut view = Direct::begin(alloc, store, names);
        let stop = machine.go(code, input, &mut view, &mut budget)?;
        let (left, made, bytes) = view.finish();
        printed.append(bytes)?;
        names = made;
        let spent = most.serial.wrapping_sub(budget.left());
        let (number, lo, hi) = match stop {
            Stop::AtLoop { number, lo, hi } => (number, lo, hi),
            Stop::Ended(_) => {
                return Ok(Some(Ran {
                    ending: Ending::Done,
                    printed,
                    steps: steps.wrapping_add(spent),
                    store: left,
                }));
            }
            Stop::Trapped(trap, line) => {
                return Ok(Some(Ran {
                    ending: Ending::Trap(trap, line),
                    printed,
                    steps: steps.wrapping_add(spent),
                    store: left,
                }));
            }
        };
        let Some(info) = code.loops.get(number as usize) else {
            return Ok(None);
        };
        if info.number != number {
            return Ok(None);
        }
        let ran = answer(
            alloc,
            code,
            info,
            input,
            &mut machine,
            lo,
            hi,
            execution,
            most.iteration,
            left,
        )?;
        let Ran {
            ending,
            printed: bytes,
            steps: more,
            store: left,
        } = ran;
        printed.append(bytes)?;
        steps = steps.wrapping_add(more);
        if ending != Ending::Done {
            return Ok(Some(Ran {
                ending,
                printed,
                steps: steps.wrapping_add(spent),
                store: left,
            }));
        }
        store = left;
    }
    Ok(None)
}
