ghost use Rattle.std.specs.Prelude.{◌≡◌, ◌||◌, IfOk};
ghost use Rattle.std.specs.List.{list_any};
ghost use Rattle.al_core.specs.Orders as orders;
ghost use Rattle.al_rules.specs.Bodies as bodies;
ghost use Rattle.al_rules.specs.Notes as spec;
ghost use Rattle.al_rules.specs.Faults.{noted};
ghost use Rattle.al_source.specs.Answers.{Gives, Puts};
ghost use Rattle.al_core.specs.LoopsInPlace.{placed_of};
ghost use Rattle.al_loop_notes.specs.Entries.{noted_one};
ghost use Rattle.al_loop_notes.specs.Reach.{IsTold};
ghost use Rattle.al_loop_notes.specs.Uses as uses_spec;

use crate::breaks::has_break;
use crate::forms::form;
use crate::reach::reached;
use crate::uses::{Program, Use, program_uses, uses_of};
use crate::variables::{is_counter_or_bound, is_misused, is_same, is_taken};
use al_core::{Bound, Choice, LoopInfo, PlacedLoop, Red, TNote, TStmt, Typed, program_loops};
use al_rules::{NoteFault, NoteKind};
use sqlite_items::Items;
use std::alloc::{AllocError, Global};

fn any_set(n: u32, uses: &[Use]) -> bool
    ensures { result ≡ list_any (uses_spec.is_set n) uses.now }
{
    for u in uses {
        match u {
            Use::Set(m) if *m == n => return true,
            _ => {}
        }
    }
    false
}

fn any_return(uses: &[Use]) -> bool
    ensures { result ≡ list_any uses_spec.is_return uses.now }
{
    for u in uses {
        match u {
            Use::Return => return true,
            _ => {}
        }
    }
    false
}

/// Whether the body, which has these uses, assigns the local.
#[tactic(auto, using(crate::proofs::Statements::uses_assign))]
fn assigns(n: u32, body: &TStmt, own: &[Use]) -> bool
    requires { own.now ≡ uses_spec.stmt_uses body.now }
    ensures { result ≡ bodies.assigns n body.now }
{
    any_set(n, own)
}

fn assigns_bound(bound: Bound, body: &TStmt, own: &[Use]) -> bool
    requires { own.now ≡ uses_spec.stmt_uses body.now }
    ensures { result ≡ bodies.assigns_bound bound body.now }
{
    match bound {
        Bound::Number(_) => false,
        Bound::Local(n) => assigns(n, body, own),
    }
}

/// Whether the body may end the loop: by a `return`, or a `break` of no loop in it.
#[tactic(auto, using(crate::proofs::Statements::uses_return))]
fn leaves(body: &TStmt, own: &[Use]) -> bool
    requires { own.now ≡ uses_spec.stmt_uses body.now }
    ensures { result ≡ (bodies.has_return body.now || bodies.has_break body.now) }
{
    any_return(own) || has_break(body)
}

fn stands_in(a: &Red, reds: &[Red]) -> bool
    ensures { result ≡ list_any (λ q. orders.addr_eq a.now.at q.at) reds.now }
{
    for q in reds {
        if is_same(a.at, q.at) {
            return true;
        }
    }
    false
}

fn stand_twice(reds: &[Red]) -> bool
    ensures { result ≡ spec.stand_twice reds.now }
{
    let mut left = reds;
    while let [r, rest @ ..] = left {
        if stands_in(r, rest) {
            return true;
        }
        left = rest;
    }
    false
}

fn has_counter_or_bound(info: &LoopInfo, reds: &[Red]) -> bool
    ensures { result ≡ list_any (λ r. spec.is_counter_or_bound info.now r.at) reds.now }
{
    for r in reds {
        if is_counter_or_bound(info, r.at) {
            return true;
        }
    }
    false
}

/// Whether a variable stands twice, or is the counter or the bound.
fn is_misnamed(info: &LoopInfo, reds: &[Red]) -> bool
    ensures { result ≡ (spec.stand_twice reds.now || list_any (λ r. spec.is_counter_or_bound info.now r.at) reds.now) }
{
    stand_twice(reds) || has_counter_or_bound(info, reds)
}

fn has_taken(program: &Program<'_>, reds: &[Red]) -> bool
    requires { IsTold program.now }
    ensures { result ≡ list_any (λ r. bodies.is_taken program.now.typed.now r.at) reds.now }
{
    for r in reds {
        if is_taken(program, r.at) {
            return true;
        }
    }
    false
}

fn has_misused(
    alloc: Global,
    program: &Program<'_>,
    body: &TStmt,
    own: &[Use],
    reds: &[Red],
) -> Result<bool, AllocError>
    requires told { IsTold program.now }
    requires own { own.now ≡ uses_spec.stmt_uses body.now }
    ensures { IfOk result
        (λ b. b ≡ list_any (λ r. bodies.is_misused program.now.typed.now body.now r.op r.at) reds.now) }
{
    if reds.is_empty() {
        return Ok(false);
    }
    let marks = reached(alloc, program, body, own)?;
    for r in reds {
        if is_misused(program, body, marks.as_slice(), r.op, r.at) {
            return Ok(true);
        }
    }
    Ok(false)
}

/// What is wrong with a loop of the right form and this body.
fn wrong(
    alloc: Global,
    program: &Program<'_>,
    info: &LoopInfo,
    body: &TStmt,
) -> Result<Option<NoteKind>, AllocError>
    requires { IsTold program.now }
    ensures { IfOk result (λ kind. kind ≡ spec.wrong_in program.now.typed.now info.now body.now) }
{
    let reds = info.own.reds.as_slice();
    let uses = uses_of(alloc, body)?;
    let own = uses.as_slice();
    if assigns(info.counter, body, own) {
        Ok(Some(NoteKind::IndexChanges))
    } else if assigns_bound(info.bound, body, own) {
        Ok(Some(NoteKind::BoundChanges))
    } else if leaves(body, own) {
        Ok(Some(NoteKind::Leaves))
    } else if is_misnamed(info, reds) {
        Ok(Some(NoteKind::ReductionName))
    } else if has_taken(program, reds) {
        Ok(Some(NoteKind::ReductionAddress))
    } else if has_misused(alloc, program, body, own, reds)? {
        Ok(Some(NoteKind::ReductionUsed))
    } else {
        Ok(None)
    }
}

fn info(
    alloc: Global,
    number: u32,
    note: &TNote,
    counter: u32,
    bound: Bound,
) -> Result<LoopInfo, AllocError>
    ensures { IfOk result (λ info. info ≡ spec.info_of number note.now (counter, bound)) }
{
    let own = Choice {
        policy: note.own.policy,
        order: note.own.order,
        reds: Items::from_slice(alloc, note.own.reds.as_slice())?,
        line: note.own.line,
    };
    Ok(LoopInfo {
        number,
        func: note.func,
        line: note.line,
        counter,
        bound,
        first: note.first,
        last: note.last,
        own,
    })
}

/// The entry of the loop of this number, with its note.
fn entry(
    alloc: Global,
    program: &Program<'_>,
    number: u32,
    l: PlacedLoop<'_>,
    note: &TNote,
) -> Result<LoopInfo, NoteFault>
    requires { IsTold program.now }
    ensures { Gives noted (spec.entry_of program.now.typed.now number (placed_of l.entry) note.now) result }
{
    let Some((counter, bound)) = form(l.func.locals.as_slice(), l.parts) else {
        return Err(NoteFault::At(NoteKind::Form, note.line));
    };
    let info = info(alloc, number, note, counter, bound)?;
    match wrong(alloc, program, &info, l.parts.body)? {
        Some(kind) => Err(NoteFault::At(kind, info.line)),
        None => Ok(info),
    }
}

/// Adds the entry of the loop at this place, where there is a note for it. A number that does not fit would be one of
/// more loops than a memory holds.
#[tactic(auto, unfolding(crate::specs::Entries::noted_one))]
fn add_entry(
    alloc: Global,
    program: &Program<'_>,
    place: usize,
    l: PlacedLoop<'_>,
    infos: &mut Items<LoopInfo>,
) -> Result<(), NoteFault>
    requires { IsTold program.now }
    ensures { Puts noted (noted_one program.now.typed.now infos.old place (placed_of l.entry)) result infos.new }
{
    let Some(note) = program.typed.loops.get(place) else {
        return Ok(());
    };
    let Ok(number) = u32::try_from(place) else {
        return Err(NoteFault::Memory);
    };
    let info = entry(alloc, program, number, l, note)?;
    infos.push(info)?;
    Ok(())
}

/// The entries of the annotated loops, in source order, or the first fault: loops are taken in source order, and for
/// each the kinds of fault in the order of `NoteKind`. The line is that of the `for`.
pub fn notes(alloc: Global, typed: &Typed) -> Result<Items<LoopInfo>, NoteFault>
    ensures { Gives noted (spec.notes_of typed.now) result }
{
    let loops = program_loops(alloc, typed)?;
    let uses = program_uses(alloc, typed)?;
    let program = Program {
        typed,
        uses: uses.as_slice(),
    };
    let mut infos = Items::new(alloc);
    for (place, l) in loops.as_slice().iter().enumerate() {
        add_entry(alloc, &program, place, *l, &mut infos)?;
    }
    Ok(infos)
}
