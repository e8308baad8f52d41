//! Programs that are cut off after each of their tokens. Where an item ends the tokens are a program, and anywhere
//! else they are unfinished: the first bad token is the one that is missing.
use al_lexer::lex;
use al_parser::first_bad;
use al_samples::P15;
use al_source::{Mark, Token, TokenKind};
use std::alloc::Global;
use std::test::Fail;

/// Programs with each production of the grammar.
const PRODUCTIONS: [&str; 12] = [
    "struct s { int x, *y[2]; long z; }; struct s *p, q[3];",
    "int x = 1, *y = NULL, z = -2, a[2][3]; long g; long long h; long int i; long long int j;",
    "void f() { } void *g(void) { } struct s *h(int x, struct s **y) { ; } int k(long x) { }",
    "int f() { int x, *y = 1, z[2]; long n = x; { } }",
    "int f() { x = 1; x += 1; x++; x--; ++x; --x; *x = 2; x[1].y->z = 3; }",
    "int f() { f(); f(1, x); f(1) = 2; f(1).x = 2; printf(\"a\"); printf(\"%ld\", 1, 2); free(p); }",
    "int f() { if (1) ; if (1) ; else ; if (1) { } else if (2) x = 1; while (1) ; return; return 1; break; continue; }",
    "int f() { for (;;) ; for (int i[2] = 0; i < 2; i++) ; for (i = 0; ; f(i)) ; for (f(i); 1; free(p)) { } }",
    "int f() {\n#pragma alter RAW InOrder reduce(+: s, t) reduce(max: u)\nfor (;;) ;\n#pragma alter\nfor (;;) ;\n}",
    "int f() { return 1 || 2 && 3 | 4 ^ 5 & 6 == 7 != 8 < 9 <= 1 > 2 >= 3 << 4 >> 5 + 6 - 7 * 8 / 9 % 1; }",
    "int f() { return -~!*&x; return (x[1].y->z); return NULL; return f() + f(1, 2); return 0x10; }",
    "int f() { return sizeof(struct s *); return sizeof(long int **); x = calloc(1 + 2, sizeof(int)); }",
];

/// How many braces are open behind the tokens.
fn depth(tokens: &[Token]) -> usize {
    let mut depth: usize = 0;
    for token in tokens {
        match &token.kind {
            TokenKind::Mark(Mark::LeftBrace) => depth = depth.saturating_add(1),
            TokenKind::Mark(Mark::RightBrace) => depth = depth.saturating_sub(1),
            _ => {}
        }
    }
    depth
}

fn is_semicolon(token: Option<&Token>) -> bool {
    match token {
        Some(token) => match &token.kind {
            TokenKind::Mark(Mark::Semicolon) => true,
            _ => false,
        },
        None => false,
    }
}

/// Whether the tokens before a place of a program are a program: an item ends by a `;` outside of braces, or by a `}`
/// behind which no `;` stands.
fn is_program(before: &[Token], next: Option<&Token>) -> bool {
    match before.last() {
        None => true,
        Some(last) => match &last.kind {
            TokenKind::Mark(Mark::Semicolon) => depth(before) == 0,
            TokenKind::Mark(Mark::RightBrace) => depth(before) == 0 && !is_semicolon(next),
            _ => false,
        },
    }
}

/// The first place at which a program is cut off and something else is said of what is left.
fn first_wrong(alloc: Global, source: &str) -> Result<Option<usize>, Fail> {
    let tokens = lex(alloc, source.as_bytes())?;
    let tokens = tokens.as_slice();
    for place in 0..=tokens.len() {
        let before = &tokens[..place];
        let whole = is_program(before, tokens.get(place));
        let wanted = if whole { None } else { Some(place) };
        if first_bad(alloc, before)? != wanted {
            return Ok(Some(place));
        }
    }
    Ok(None)
}

#[test]
fn a_program_that_is_cut_off_is_unfinished_or_ends_after_an_item(
    rt: HostRuntime,
) -> Result<(), Fail> {
    for source in PRODUCTIONS {
        assert_eq!(rt; first_wrong(rt.alloc(), source)?, None);
    }
    assert_eq!(rt; first_wrong(rt.alloc(), P15)?, None);
    Ok(())
}
