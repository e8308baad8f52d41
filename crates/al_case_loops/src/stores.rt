//! Plain runs of programs over a store, up to an annotated loop.
ghost use Rattle.al_code.specs.Valid.{IsValid};

use crate::walk::{Spot, info_of};
use al_case_runs::put_globals;
use al_case_sources::Trial;
use al_chunk::run_plain_loop;
use al_core::{Budget, Ending};
use al_exec::{Machine, Stop};
use al_heap::Store;
use al_snap::{Direct, Names};
use sqlite_items::Items;
use std::alloc::{AllocError, Global};

/// Runs a loop plain. There is no answer where an iteration traps, or the loop does not run.
fn pass<S: Store + Drop>(
    alloc: Global,
    trial: &Trial<'_>,
    spot: Spot,
    store: S,
) -> Result<Option<S>, AllocError>
    requires { IsValid trial.now.source.now.code }
{
    let code = &trial.source.code;
    let (Some(info), Some(env)) = (info_of(code, spot.number), spot.env(trial, 1)) else {
        return Ok(None);
    };
    let ran = run_plain_loop(alloc, code, info, &env, trial.input, store)?;
    Ok(if ran.ending == Ending::Done {
        Some(ran.store)
    } else {
        None
    })
}

/// Runs a program plain, from an empty store, to the annotated loop that it comes to as the one of that number, where
/// there is one.
pub fn store_to_loop<S: Store + Drop>(
    alloc: Global,
    trial: &Trial<'_>,
    mut store: S,
    wanted: u32,
) -> Result<Option<(Spot, S)>, AllocError>
    requires { IsValid trial.now.source.now.code }
{
    let code = &trial.source.code;
    if code.funcs.as_slice()[code.main as usize].params != 0 {
        return Ok(None);
    }
    put_globals(alloc, code, &mut store)?;
    let mut machine = Machine::call(alloc, code, code.main, &[])?;
    let mut names = Names::outer();
    let mut budget = Budget::new(trial.serial_steps);
    for execution in 0..u32::MAX {
        let mut view = Direct::begin(alloc, store, names);
        let stop = machine.go(code, trial.input, &mut view, &mut budget)?;
        let (mut left, made, _) = view.finish();
        names = made;
        let Stop::AtLoop { number, lo, hi } = stop else {
            return Ok(None);
        };
        left.set_locals(Items::from_slice(alloc, machine.locals())?);
        let spot = Spot {
            number,
            execution,
            lo,
            hi,
        };
        if execution == wanted {
            return Ok(Some((spot, left)));
        }
        let Some(mut left) = pass(alloc, trial, spot, left)? else {
            return Ok(None);
        };
        let locals = left.take_locals();
        if locals.len() != machine.locals().len() {
            return Ok(None);
        }
        machine.after_loop(locals.as_slice(), lo.max(hi));
        store = left;
    }
    Ok(None)
}
