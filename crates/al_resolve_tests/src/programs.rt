//! Whole programs of the language, and what their sizes, types and loops are.

use crate::causes::{note, refusal, refusal_of};
use al_front::resolve;
use al_layout::layout;
use al_lexer::lex;
use al_parser::parse;
use al_rules::{NoteKind, Refusal};
use al_samples::*;
use std::alloc::{AllocError, Global};
use std::test::Fail;

const ACCEPTED: [&str; 14] = [P1, P2, P3, P4, P5, P6, P7, P8, P9, P10, P11, P12, P13, P15];

#[test]
fn programs_are_accepted(rt: HostRuntime) -> Result<(), Fail> {
    for source in ACCEPTED {
        assert_eq!(rt; refusal(rt.alloc(), source)?, None);
    }
    Ok(())
}

#[test]
fn a_loop_that_is_left_is_refused(rt: HostRuntime) -> Result<(), Fail> {
    let cause = refusal(rt.alloc(), P14)?;
    assert_eq!(rt; cause, Some(note(NoteKind::Leaves, 3)));
    Ok(())
}

#[test]
fn a_struct_with_an_array_has_its_layout(rt: HostRuntime) -> Result<(), Fail> {
    let tokens = lex(rt.alloc(), P11.as_bytes())?;
    let program = parse(rt.alloc(), tokens.as_slice())?;
    let sizes = layout(rt.alloc(), &program)?;
    let only = sizes.structs.get(0).ok_or("no struct")?;
    assert_eq!(rt; (sizes.structs.len(), only.words), (1, 3));
    assert_eq!(rt; only.offsets.as_slice(), [0, 2].as_slice());
    assert_eq!(rt; sizes.globals.as_slice(), [3].as_slice());
    Ok(())
}

#[test]
fn a_program_has_its_globals_functions_and_locals(rt: HostRuntime) -> Result<(), Fail> {
    let (typed, _) = resolve(rt.alloc(), P11.as_bytes())?;
    let main = typed.funcs.get(0).ok_or("no function")?;
    let counts = (typed.globals.len(), typed.funcs.len(), main.locals.len());
    assert_eq!(rt; counts, (1, 1, 1));
    Ok(())
}

/// A `main` of so many empty statements.
fn statements(alloc: Global, count: u32) -> Result<Vec<u8>, AllocError> {
    let mut source = Vec::new(alloc);
    source.extend_from_slice(b"int main(void) { ")?;
    for _ in 0..count {
        source.push(b';')?;
    }
    source.extend_from_slice(b" }\n")?;
    Ok(source)
}

#[test]
fn a_source_of_262144_statements_is_accepted(rt: HostRuntime) -> Result<(), Fail> {
    let source = statements(rt.alloc(), 262_144)?;
    assert_eq!(rt; refusal_of(rt.alloc(), &source)?, None);
    Ok(())
}

#[test]
fn a_source_of_more_statements_is_too_large(rt: HostRuntime) -> Result<(), Fail> {
    let source = statements(rt.alloc(), 262_145)?;
    let cause = Refusal::TooManyNodes;
    assert_eq!(rt; refusal_of(rt.alloc(), &source)?, Some(cause));
    Ok(())
}
