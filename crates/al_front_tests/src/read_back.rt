//! The canonical text of whole programs is read back.
use al_lexer::lex;
use al_parser::parse;
use al_print::print_program;
use al_samples::*;
use std::alloc::Global;
use std::test::Fail;

const L3: &[u8] = b"int main ( void ) {\nprintf ( \"%ld\\n\" , 2 + 3 ) ;\n}\n";

/// The canonical text of a program, of which the source is one.
fn text_of(alloc: Global, source: &[u8]) -> Result<Vec<u8>, Fail> {
    let tokens = lex(alloc, source)?;
    let program = parse(alloc, tokens.as_slice())?;
    let text = print_program(alloc, &program)?;
    Ok(Vec::from_slice(alloc, text.as_slice())?)
}

#[test]
fn programs_are_read_back(rt: HostRuntime) -> Result<(), Fail> {
    let text = text_of(rt.alloc(), P1.as_bytes())?;
    assert!(rt; text.as_slice() == L3);
    for source in [
        P1,
        P2,
        P3,
        P4,
        P5,
        P6,
        P7,
        P8,
        P9,
        P10,
        P11,
        P12,
        P13,
        P14,
        P15,
        FREES_TWICE,
        FREES_IN_A_LOOP,
    ] {
        let text = text_of(rt.alloc(), source.as_bytes())?;
        let again = text_of(rt.alloc(), text.as_slice())?;
        assert!(rt; text.as_slice() == again.as_slice());
    }
    Ok(())
}
