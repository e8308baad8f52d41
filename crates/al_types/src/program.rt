ghost use Rattle.std.specs.Prelude.{◌≡◌, [], IfOk};
ghost use Rattle.al_rules.specs.Programs as spec;
ghost use Rattle.al_types.specs.Functions.{with_notes};
ghost use Rattle.al_type_names.specs.Meanings.{map_ok};
ghost use Rattle.al_source.specs.Answers.{Gives};
ghost use Rattle.al_rules.specs.Faults.{typed};

use crate::checker::Checker;
use crate::items::definitions;
use crate::progress::Progress;
use al_ast::nodes;
use al_core::{TFunc, TGlobal, TNote, Typed};
use al_layout::Layout;
use al_rules::{TypeFault, TypeKind};
use al_source::{Field, Func, GlobalDef, Program, Start};
use al_type_names::fault::number;
use al_type_names::known::Known;
use al_type_names::types::{is_int, kind_of};
use sqlite_items::Items;
use std::alloc::{AllocError, Global};

/// The number of the function `main`, which has no parameters and gives an integer.
fn main_of(known: &Known<'_>) -> Result<u32, TypeFault>
    ensures { Gives typed (spec.main_of known.now.funcs) result }
{
    let Some(place) = known.place_of_func(b"main") else {
        return Err(TypeFault::At(TypeKind::Main, 1));
    };
    let Some(f) = known.func(place) else {
        return Err(TypeFault::At(TypeKind::Main, 1));
    };
    if f.params.is_empty() && is_int(&f.result) {
        Ok(place)
    } else {
        Err(TypeFault::At(TypeKind::Main, f.line))
    }
}

/// The parameters are the first locals, and one scope with the outermost declarations of the body.
#[tactic(auto, unfolding(al_rules::specs::Walks::add_local))]
fn begun<'a>(
    alloc: Global,
    mut params: &'a [Field],
    loops: Vec<TNote>,
) -> Result<Progress<'a>, AllocError>
    ensures { IfOk result (λ p. p ≡ spec.begun params.entry.now loops.items) }
{
    let mut p = Progress::new(alloc, loops);
    while let [param, rest @ ..] = params {
        p.add_local(alloc, param.name.as_slice(), &param.ty)?;
        params = rest;
    }
    Ok(p)
}

/// The typed function of this number, and the annotated loops of the program so far.
fn function<'a>(
    alloc: Global,
    known: &Known<'a>,
    n: u32,
    f: &'a Func,
    loops: Vec<TNote>,
) -> Result<(TFunc, Vec<TNote>), TypeFault>
    ensures { Gives typed (spec.func_typed known.now n f.entry.now loops.items) (map_ok with_notes result) }
{
    let checker = Checker {
        alloc,
        known,
        func: n,
        gives: &f.result,
    };
    let mut p = begun(alloc, f.params.as_slice(), loops)?;
    let body = checker.statements(&mut p, f.body.as_slice(), false)?;
    let params = number(f.params.len())?;
    let (locals, loops) = p.into_parts();
    let function = TFunc {
        params,
        locals,
        body,
        line: f.line,
    };
    Ok((function, loops))
}

/// All functions in order, and the annotated loops of the program.
#[tactic(auto, using(al_type_operands::proofs::Gathered::gathered_with))]
fn functions(alloc: Global, known: &Known<'_>) -> Result<(Items<TFunc>, Vec<TNote>), TypeFault>
    ensures { Gives typed (spec.funcs_typed known.now 0 known.now.funcs []) (map_ok with_notes result) }
{
    let mut done = Items::new(alloc);
    let mut loops = Vec::new(alloc);
    let mut left = known.funcs();
    let mut n = 0;
    while let [f, rest @ ..] = left {
        let (typed, more) = function(alloc, known, number(n)?, f, loops)?;
        done.push(typed)?;
        loops = more;
        n += 1;
        left = rest;
    }
    Ok((done, loops))
}

fn start_of(start: Start) -> i64
    ensures { result ≡ spec.start_of start }
{
    match start {
        Start::Number(n) => n,
        Start::Zero | Start::Null => 0,
    }
}

fn global(alloc: Global, known: &Known<'_>, g: &GlobalDef) -> Result<TGlobal, AllocError>
    ensures { IfOk result (λ t. t ≡ spec.global_typed known.now g.now) }
{
    Ok(TGlobal {
        name: Items::from_slice(alloc, g.name.as_slice())?,
        words: known.size(&g.ty)?,
        scalar: kind_of(&g.ty),
        start: start_of(g.start),
    })
}

fn globals(alloc: Global, known: &Known<'_>) -> Result<Items<TGlobal>, AllocError>
    ensures { IfOk result (λ all. all ≡ spec.globals_typed known.now known.now.globals) }
{
    let mut done = Items::new(alloc);
    let mut left = known.globals();
    while let [g, rest @ ..] = left {
        done.push(global(alloc, known, g)?)?;
        left = rest;
    }
    Ok(done)
}

/// The typed tree of a program with the sizes of this layout, or its first type fault: of its items in source order,
/// then of `main`, then of the bodies of its functions (C99 6.2.1, 6.5, 6.7, 6.8).
///
/// A size or a number that 32 bits do not count is taken for want of memory.
/// A program that has a layout has no such size.
#[tactic(auto, unfolding(al_rules::specs::Programs::typed_with))]
pub fn check(alloc: Global, program: &Program, layout: &Layout) -> Result<Typed, TypeFault>
    ensures { Gives typed (spec.typed_with layout.now program.now) result }
{
    let known = definitions(alloc, program, layout)?;
    let main = main_of(&known)?;
    let (funcs, loops) = functions(alloc, &known)?;
    Ok(Typed {
        globals: globals(alloc, &known)?,
        funcs,
        main,
        loops: Items::from_vec(loops),
        nodes: nodes(program),
    })
}
