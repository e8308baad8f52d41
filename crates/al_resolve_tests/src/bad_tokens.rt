//! Sources whose tokens derive no program: the place of the first bad token, and how many tokens are handed back. Both
//! are counted by hand.

use crate::causes::refusal;
use al_front::{FrontFault, resolve};
use al_rules::{LexicalCause, Refusal};
use std::alloc::{AllocError, Global};
use std::test::Fail;

const ROWS: [(&str, usize, usize); 6] = [
    ("int x", 2, 2),
    ("int x;\n}", 3, 4),
    ("#pragma alter RAW", 0, 3),
    ("int main(void) { return 1 +; }", 9, 11),
    ("int main(void) {\n#pragma alter\n}", 8, 9),
    ("int main(void) { free(p) = 1; }", 10, 14),
];

/// The place and the number of the tokens that are handed back, where the grammar refuses a source.
fn place_of(alloc: Global, source: &str) -> Result<Option<(usize, usize)>, AllocError> {
    match resolve(alloc, source.as_bytes()) {
        Ok(_) | Err(FrontFault::Refused(_)) => Ok(None),
        Err(FrontFault::NoProgram(bad)) => Ok(Some((bad.place, bad.tokens.len()))),
        Err(FrontFault::Memory) => Err(AllocError),
    }
}

#[test]
fn the_tokens_are_handed_back_with_the_place(rt: HostRuntime) -> Result<(), Fail> {
    let alloc = rt.alloc();
    for (source, place, count) in ROWS {
        assert_eq!(rt; place_of(alloc, source)?, Some((place, count)));
        assert_eq!(rt; refusal(alloc, source)?, Some(Refusal::Grammar));
    }
    Ok(())
}

#[test]
fn another_cause_has_no_place(rt: HostRuntime) -> Result<(), Fail> {
    let alloc = rt.alloc();
    let cause = Refusal::Lexical(LexicalCause::BadByte(1));
    assert_eq!(rt; refusal(alloc, "int x @")?, Some(cause));
    for source in [
        "int x @",
        "",
        "int main(void) { x = 1; }",
        "int main(void) { }",
    ] {
        assert_eq!(rt; place_of(alloc, source)?, None);
    }
    Ok(())
}
