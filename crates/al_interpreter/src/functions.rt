ghost use Rattle.std.specs.Prelude.{◌≡◌, ◌++◌, ◌-◌, IfOk, length, pos, replicate};
ghost use Rattle.std.specs.Option.{option_copied};
ghost use Rattle.al_core.specs.declared.values.Val.TheVariants as value;
ghost use Rattle.al_core.specs.Meaning as meaning;
ghost use Rattle.al_core.specs.Run as run;
ghost use Rattle.al_interpreter.specs.Flows.{flow_of};

use crate::flow::Flow;
use crate::frame::{Frame, Own};
use al_core::{TFunc, TStmt, Val};
use sqlite_items::Items;
use std::alloc::AllocError;

/// The locals, and 0 in all others up to a count.
#[tactic(auto, using(crate::proofs::Zeros::one_zero_more, crate::proofs::Zeros::no_zero))]
fn filled(mut locals: Items<Val>, count: usize) -> Result<Items<Val>, AllocError>
    ensures { IfOk result (λ all. all ≡ locals ++ replicate (count - length locals) (value.Int (pos 0))) }
{
    let missing = count.saturating_sub(locals.len());
    for _i in 0..missing {
        locals.push(Val::Int(0))?;
    }
    Ok(locals)
}

/// The locals of a function that is called.
pub fn frame_of(f: Option<&TFunc>, args: Items<Val>) -> Result<Frame, AllocError>
    ensures { IfOk result (λ frame. frame ≡ meaning.frame_of (option_copied f.entry) args) }
{
    match f {
        Some(f) => Ok(Frame::new(filled(args, f.locals.len())?, Own::All)),
        None => Ok(Frame::new(args, Own::All)),
    }
}

pub fn body_of(f: Option<&TFunc>) -> &[TStmt]
    ensures { result.now ≡ meaning.body_of (option_copied f.entry) }
{
    match f {
        Some(f) => f.body.as_slice(),
        None => &[],
    }
}

/// The line of a function's definition.
pub fn line_of(f: Option<&TFunc>) -> u32
    ensures { result ≡ run.line_of (option_copied f.entry) }
{
    match f {
        Some(f) => f.line,
        None => 0,
    }
}

/// What a function gives whose body ends so.
pub fn returned(flow: Flow) -> Val
    ensures { result ≡ meaning.returned (flow_of flow) }
{
    match flow {
        Flow::Returned(v) => v,
        Flow::Next | Flow::Broke | Flow::Continued => Val::Int(0),
    }
}
