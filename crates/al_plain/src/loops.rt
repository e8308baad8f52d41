ghost use Rattle.std.specs.Prelude.{◌≡◌, option_map};
ghost use Rattle.al_core.specs.Loops as spec;
ghost use Rattle.al_plain.specs.Found.{loop_of};

use al_core::{Bound, TNote, TStmt};
use al_interpreter::{Program, bound_of, start_of};
use sqlite_items::at;

/// An annotated loop of a program, with its entry and the number of locals of its function.
#[derive(Clone, Copy)]
pub struct Loop<'a> {
    pub number: u32,
    pub note: &'a TNote,
    pub counter: u32,
    pub bound: Bound,
    pub locals: usize,
    pub body: &'a TStmt,
}

/// The annotated loop of a number.
pub fn loop_at<'a>(program: &'a Program<'a>, number: u32) -> Option<Loop<'a>>
    ensures { option_map loop_of result ≡ spec.loop_at program.now number }
{
    let note = at(program.typed().loops.as_slice(), number as usize)?;
    let placed = program.loop_at(number)?;
    let start = start_of(placed.parts.first)?;
    Some(Loop {
        number,
        note,
        counter: start.counter,
        bound: bound_of(placed.parts.test),
        locals: placed.func.locals.len(),
        body: placed.parts.body,
    })
}
