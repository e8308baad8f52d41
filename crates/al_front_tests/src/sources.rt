//! Sources with what is read of them, by the rules of tokens and the grammar: a fault with its line, no program, or
//! the canonical text.
use al_lexer::lex;
use al_parser::parse;
use al_print::print_program;
use al_source::{LexFault, ParseFault, Program};
use std::alloc::{AllocError, Global};
use std::test::Fail;

/// A source with its canonical text.
type Row = (&'static str, &'static str);

/// Sources that spell no tokens.
const FAULTS: [(&str, LexFault); 28] = [
    ("@", LexFault::BadByte(1)),
    ("int x;\n$", LexFault::BadByte(2)),
    ("x = 08;", LexFault::BadNumber(1)),
    ("\n1a", LexFault::BadNumber(2)),
    ("0x", LexFault::BadNumber(1)),
    ("0xg", LexFault::BadNumber(1)),
    ("1.5", LexFault::BadNumber(1)),
    ("9223372036854775808", LexFault::BadNumber(1)),
    ("0x8000000000000000", LexFault::BadNumber(1)),
    ("\"abc", LexFault::BadText(1)),
    ("x\n\"%x\"", LexFault::BadText(2)),
    ("\"a\nb\"", LexFault::BadText(1)),
    ("\"\\q\"", LexFault::BadText(1)),
    ("\"5%\"", LexFault::BadText(1)),
    ("/* x", LexFault::OpenComment(1)),
    ("x\n/*/", LexFault::OpenComment(2)),
    ("/* \n */ @", LexFault::BadByte(2)),
    ("#define X 1", LexFault::BadByte(1)),
    ("x #include <a>", LexFault::BadByte(1)),
    ("x /*\n*/ #include <a>", LexFault::BadByte(2)),
    ("#pragma alter #", LexFault::BadByte(1)),
    ("# /* open", LexFault::OpenComment(1)),
    ("#define X /* open", LexFault::BadByte(1)),
    ("#\nint x;", LexFault::BadByte(1)),
    ("#includes <a>", LexFault::BadByte(1)),
    ("#include \"a/*b\"", LexFault::OpenComment(1)),
    ("'a'", LexFault::BadByte(1)),
    ("int f(void) { x = a ? b : c; }", LexFault::BadByte(1)),
];

/// Sources whose tokens derive no program.
const REFUSED: [&str; 48] = [
    "int x",
    "int ;",
    "x;",
    "1",
    "int x y;",
    "int x,;",
    "long long long x;",
    "long int int x;",
    "int *********p;",
    "int a[0];",
    "int a[4194305];",
    "int a[1][1][1][1][1];",
    "int a[];",
    "int a[n];",
    "int x = 1 + 2;",
    "int x = y;",
    "int *p = - NULL;",
    "int x = - - 1;",
    "void x;",
    "struct s { };",
    "struct { int a; };",
    "struct s { int a; }",
    "struct s { int a }; ",
    "struct s { void a; };",
    "int f(void);",
    "int f(int) {}",
    "int f(int a[2]) {}",
    "int f(void, int a) {}",
    "int f(int a,) {}",
    "int f(void) {} ;",
    "int f(void) {",
    "int f(void) }",
    "int a[2] f(void) {}",
    "int f(void) { x = 1 }",
    "int f(void) { 1; }",
    "int f(void) { x; }",
    "int f(void) { a = b = c; }",
    "int f(void) { x++ + 1; }",
    "int f(void) { x = y++; }",
    "int f(void) { else x = 1; }",
    "int f(void) { if (x) y = 1 else z = 2; }",
    "int f(void) { if x y = 1; }",
    "int f(void) { if () ; }",
    "int f(void) { if (x) int y; }",
    "int f(void) { while () ; }",
    "int f(void) { do x = 1; while (x); }",
    "int f(void) { for (;) ; }",
    "int f(void) { for (int i; ; ) ; }",
];

const ALSO_REFUSED: [&str; 48] = [
    "int f(void) { for (int i = 0, j = 0; ; ) ; }",
    "int f(void) { for (; ; int i = 0) ; }",
    "int f(void) { for (i = 0, j = 0; ; ) ; }",
    "int f(void) { switch (x) {} }",
    "int f(void) { goto x; }",
    "int f(void) { return return; }",
    "int f(void) { break 1; }",
    "int f(void) { x = +1; }",
    "int f(void) { x = (long)1; }",
    "int f(void) { x = sizeof x; }",
    "int f(void) { x = sizeof(int[2]); }",
    "int f(void) { x = sizeof(void); }",
    "int f(void) { x = calloc(1); }",
    "int f(void) { x = calloc(1, 8); }",
    "int f(void) { x = printf; }",
    "int f(void) { printf(x); }",
    "int f(void) { printf(); }",
    "int f(void) { x = printf(\"a\"); }",
    "int f(void) { printf(\"a\" \"b\"); }",
    "int f(void) { x = \"a\"; }",
    "int f(void) { x = f(1,); }",
    "int f(void) { x = f(,1); }",
    "int f(void) { x = a -- b; }",
    "int f(void) { x = a b; }",
    "int f(void) { x = (a; }",
    "int f(void) { x = a[1; }",
    "int f(void) { x = a->1; }",
    "int f(void) { x =; }",
    "int f(void) { x ==; }",
    "int f(void) { unsigned x; }",
    "int f(void) { int x[2] }",
    "int f(void) { void x; }",
    "int f(void) { struct s { int a; } x; }",
    "#pragma alter\nint x;",
    "int f(void) { \n#pragma alter\nx = 1; }",
    "int f(void) { \n#pragma alter\nwhile (1) ; }",
    "int f(void) { \n#pragma alter FAST\nfor (;;) ; }",
    "int f(void) { \n#pragma alter InOrder RAW\nfor (;;) ; }",
    "int f(void) { \n#pragma alter RAW WAW\nfor (;;) ; }",
    "int f(void) { \n#pragma alter reduce(-: s)\nfor (;;) ; }",
    "int f(void) { \n#pragma alter reduce(+ s)\nfor (;;) ; }",
    "int f(void) { \n#pragma alter reduce(+:)\nfor (;;) ; }",
    "int f(void) { \n#pragma alter reduce(+: s.t)\nfor (;;) ; }",
    "int f(void) { \n#pragma alter reduce()\nfor (;;) ; }",
    "int f(void) { \n#pragma alter\n#pragma alter\nfor (;;) ; }",
    "int f(void) { x + = 1; }",
    "int f(void) { x = f(a, (b, c)); }",
    "int f(void) { x = a+++b; }",
];

const FREES_REFUSED: [&str; 10] = [
    "int f(void) { free(); }",
    "int f(void) { free(p, q); }",
    "int f(void) { free p; }",
    "int f(void) { free(p) + 1; }",
    "int f(void) { free(p)->n = 1; }",
    "int f(void) { free = 1; }",
    "int f(void) { x = free(p); }",
    "int f(void) { free(free(p)); }",
    "int f(void) { int free; }",
    "int free(int x) { }",
];

const ITEMS: [Row; 13] = [
    ("", ""),
    ("// nothing\n/* here */", ""),
    ("#include <stdio.h>\n#pragma once\nint x;", "int x ;\n"),
    ("int x;", "int x ;\n"),
    ("long long int a, *b;", "int a ;\nint * b ;\n"),
    ("long int ********p;", "int * * * * * * * * p ;\n"),
    (
        "int a[1][2][3][4194304];",
        "int a [ 1 ] [ 2 ] [ 3 ] [ 4194304 ] ;\n",
    ),
    (
        "struct s { int a, b[0x2]; struct s *n; };",
        "struct s {\nint a ;\nint b [ 2 ] ;\nstruct s * n ;\n}\n;\n",
    ),
    (
        "int x = 5, y = -0x10, z; struct s *p = NULL;",
        "int x = 5 ;\nint y = - 16 ;\nint z ;\nstruct s * p = NULL ;\n",
    ),
    ("int x = 0, y = -0;", "int x = 0 ;\nint y = 0 ;\n"),
    (
        "void f(int a, struct s **b) { ; }",
        "void f ( int a , struct s * * b ) {\n;\n}\n",
    ),
    ("long *f() { }", "int * f ( void ) {\n}\n"),
    ("int\nf(void){}int g;", "int f ( void ) {\n}\nint g ;\n"),
];

const STATEMENTS: [Row; 13] = [
    (
        "int f(void) { x++; ++x; x--; --x; }",
        "int f ( void ) {\nx += 1 ;\nx += 1 ;\nx -= 1 ;\nx -= 1 ;\n}\n",
    ),
    ("int f(void) { *p++; }", "int f ( void ) {\n* p += 1 ;\n}\n"),
    (
        "int f(void) { int a = 1, *b, c = a; }",
        "int f ( void ) {\nint a = 1 ;\nint * b ;\nint c = a ;\n}\n",
    ),
    (
        "int f(void) { x += y; x -= y; x *= y; x /= y; x %= y; }",
        "int f ( void ) {\nx += y ;\nx -= y ;\nx *= y ;\nx /= y ;\nx %= y ;\n}\n",
    ),
    (
        "int f(void) { x &= y; x |= y; x ^= y; x <<= y; x >>= y; }",
        "int f ( void ) {\nx &= y ;\nx |= y ;\nx ^= y ;\nx <<= y ;\nx >>= y ;\n}\n",
    ),
    ("int f(void) { x+=1; }", "int f ( void ) {\nx += 1 ;\n}\n"),
    (
        "int f(void) { f(); f(1, g(), (2)); }",
        "int f ( void ) {\nf ( ) ;\nf ( 1 , g ( ) , 2 ) ;\n}\n",
    ),
    (
        "int f(void) { f(1)[2] = 3; f()->a += 1; }",
        "int f ( void ) {\nf ( 1 ) [ 2 ] = 3 ;\nf ( ) -> a += 1 ;\n}\n",
    ),
    (
        "int f(void) { printf(\"a%d%%\\n\\t\\\\\\\"\"); printf(\"%lld %ld\", x, y + 1); }",
        "int f ( void ) {\nprintf ( \"a%ld%%\\n\\t\\\\\\\"\" ) ;\nprintf ( \"%ld %ld\" , x , y + 1 ) ;\n}\n",
    ),
    (
        "int f(void) { if (a) if (b) x = 1; else y = 1; }",
        "int f ( void ) {\nif ( a ) if ( b ) x = 1 ;\nelse y = 1 ;\n}\n",
    ),
    (
        "int f(void) { if (a) { if (b) x = 1; } else y = 1; }",
        "int f ( void ) {\nif ( a ) {\nif ( b ) x = 1 ;\n}\nelse y = 1 ;\n}\n",
    ),
    (
        "int f(void) { if (a) ; else if (b) ; else ; }",
        "int f ( void ) {\nif ( a ) ;\nelse if ( b ) ;\nelse ;\n}\n",
    ),
    (
        "int f(void) { while (a) x = 1; }",
        "int f ( void ) {\nwhile ( a ) x = 1 ;\n}\n",
    ),
];

const FREES: [Row; 4] = [
    (
        "int f(void) { free(p); free(NULL); }",
        "int f ( void ) {\nfree ( p ) ;\nfree ( NULL ) ;\n}\n",
    ),
    (
        "int f(void) { free((p)); free(p->n); free(&q[1]); }",
        "int f ( void ) {\nfree ( p ) ;\nfree ( p -> n ) ;\nfree ( & q [ 1 ] ) ;\n}\n",
    ),
    (
        "int f(void) { for (free(p); ; free(q)) ; }",
        "int f ( void ) {\nfor ( free ( p ) ;\n;\nfree ( q ) ) ;\n}\n",
    ),
    (
        "int f(void) { if (p) free(p); else freed(p); }",
        "int f ( void ) {\nif ( p ) free ( p ) ;\nelse freed ( p ) ;\n}\n",
    ),
];

const LOOPS: [Row; 12] = [
    (
        "int f(void) { for (;;) break; }",
        "int f ( void ) {\nfor ( ;\n;\n) break ;\n}\n",
    ),
    (
        "int f(void) { for (int i = 0; i < n; i++) continue; }",
        "int f ( void ) {\nfor ( int i = 0 ;\ni < n ;\ni += 1 ) continue ;\n}\n",
    ),
    (
        "int f(void) { for (struct s *q = p; q; q = q->n) f(q); }",
        "int f ( void ) {\nfor ( struct s * q = p ;\nq ;\nq = q -> n ) f ( q ) ;\n}\n",
    ),
    (
        "int f(void) { for (f(); 1; printf(\"x\")) { } }",
        "int f ( void ) {\nfor ( f ( ) ;\n1 ;\nprintf ( \"x\" ) ) {\n}\n}\n",
    ),
    (
        "int f(void) { \n#pragma alter\nfor (i = 0; i < 2; ++i) ; }",
        "int f ( void ) {\n#pragma alter RAW InOrder \nfor ( i = 0 ;\ni < 2 ;\ni += 1 ) ;\n}\n",
    ),
    (
        "int f(void) { \n#pragma alter OutOfOrder\nfor (;;) ; }",
        "int f ( void ) {\n#pragma alter RAW OutOfOrder \nfor ( ;\n;\n) ;\n}\n",
    ),
    (
        "int f(void) { \n# pragma /* x */ alter FULL reduce(+: s, t) reduce(max: m) // y\nfor (;;) ; }",
        "int f ( void ) {\n#pragma alter FULL InOrder reduce ( + : s ) reduce ( + : t ) reduce ( max : m ) \
            \nfor ( ;\n;\n) ;\n}\n",
    ),
    (
        "int f(void) { \n#pragma alter WAW reduce(*: a) reduce(min: b) reduce(&: c) reduce(|: d) reduce(^: e)\n\
            for (;;) ; }",
        "int f ( void ) {\n#pragma alter WAW InOrder reduce ( * : a ) reduce ( min : b ) reduce ( & : c ) \
            reduce ( | : d ) reduce ( ^ : e ) \nfor ( ;\n;\n) ;\n}\n",
    ),
    (
        "int f(void) { if (a)\n#pragma alter NONE InOrder\nfor (;;) ; }",
        "int f ( void ) {\nif ( a ) \n#pragma alter NONE InOrder \nfor ( ;\n;\n) ;\n}\n",
    ),
    (
        "int f(void) { if (a) ; else\n#pragma alter\nfor (;;) ; }",
        "int f ( void ) {\nif ( a ) ;\nelse \n#pragma alter RAW InOrder \nfor ( ;\n;\n) ;\n}\n",
    ),
    (
        "int f(void) { { int i; { } ; } }",
        "int f ( void ) {\n{\nint i ;\n{\n}\n;\n}\n}\n",
    ),
    (
        "int f(void) { return; return x; }",
        "int f ( void ) {\nreturn ;\nreturn x ;\n}\n",
    ),
];

const SIGNS: [Row; 12] = [
    (
        "int f(void) { x = 1 - 2 - 3; }",
        "int f ( void ) {\nx = 1 - 2 - 3 ;\n}\n",
    ),
    (
        "int f(void) { x = 1 - (2 - 3); }",
        "int f ( void ) {\nx = 1 - ( 2 - 3 ) ;\n}\n",
    ),
    (
        "int f(void) { x = (a + b) * c - (d - e); }",
        "int f ( void ) {\nx = ( a + b ) * c - ( d - e ) ;\n}\n",
    ),
    (
        "int f(void) { x = (a * b) + c; }",
        "int f ( void ) {\nx = a * b + c ;\n}\n",
    ),
    (
        "int f(void) { x = a * (b + c); }",
        "int f ( void ) {\nx = a * ( b + c ) ;\n}\n",
    ),
    (
        "int f(void) { x = -(-a); }",
        "int f ( void ) {\nx = - - a ;\n}\n",
    ),
    (
        "int f(void) { x = - 1; }",
        "int f ( void ) {\nx = - 1 ;\n}\n",
    ),
    (
        "int f(void) { x = a - -b; }",
        "int f ( void ) {\nx = a - - b ;\n}\n",
    ),
    (
        "int f(void) { x = -(a + b); }",
        "int f ( void ) {\nx = - ( a + b ) ;\n}\n",
    ),
    (
        "int f(void) { x = ~!a; }",
        "int f ( void ) {\nx = ~ ! a ;\n}\n",
    ),
    (
        "int f(void) { x = !(a && b) || c; }",
        "int f ( void ) {\nx = ! ( a && b ) || c ;\n}\n",
    ),
    (
        "int f(void) { x = (a || b) && c; }",
        "int f ( void ) {\nx = ( a || b ) && c ;\n}\n",
    ),
];

const PLACES: [Row; 12] = [
    (
        "int f(void) { x = a || (b && c); }",
        "int f ( void ) {\nx = a || b && c ;\n}\n",
    ),
    (
        "int f(void) { x = (a && b) && c; }",
        "int f ( void ) {\nx = a && b && c ;\n}\n",
    ),
    (
        "int f(void) { x = a && (b && c); }",
        "int f ( void ) {\nx = a && ( b && c ) ;\n}\n",
    ),
    (
        "int f(void) { x = *(p + 1); }",
        "int f ( void ) {\nx = * ( p + 1 ) ;\n}\n",
    ),
    (
        "int f(void) { x = (*p).a; }",
        "int f ( void ) {\nx = ( * p ) . a ;\n}\n",
    ),
    (
        "int f(void) { x = *p.a; }",
        "int f ( void ) {\nx = * p . a ;\n}\n",
    ),
    (
        "int f(void) { x = (p->a)[1]; }",
        "int f ( void ) {\nx = p -> a [ 1 ] ;\n}\n",
    ),
    (
        "int f(void) { x = (&g)->b; }",
        "int f ( void ) {\nx = ( & g ) -> b ;\n}\n",
    ),
    (
        "int f(void) { x = &(a[1]); }",
        "int f ( void ) {\nx = & a [ 1 ] ;\n}\n",
    ),
    (
        "int f(void) { x = *&x; }",
        "int f ( void ) {\nx = * & x ;\n}\n",
    ),
    (
        "int f(void) { x = a[i + 1][j]; }",
        "int f ( void ) {\nx = a [ i + 1 ] [ j ] ;\n}\n",
    ),
    (
        "int f(void) { x = (a + b)[1]; }",
        "int f ( void ) {\nx = ( a + b ) [ 1 ] ;\n}\n",
    ),
];

const OPERATORS: [Row; 12] = [
    (
        "int f(void) { x = f(1); }",
        "int f ( void ) {\nx = f ( 1 ) ;\n}\n",
    ),
    (
        "int f(void) { x = ((x)); }",
        "int f ( void ) {\nx = x ;\n}\n",
    ),
    (
        "int f(void) { x = sizeof(struct s *); }",
        "int f ( void ) {\nx = sizeof ( struct s * ) ;\n}\n",
    ),
    (
        "int f(void) { x = sizeof(long long); }",
        "int f ( void ) {\nx = sizeof ( int ) ;\n}\n",
    ),
    (
        "int f(void) { x = calloc(n + 1, sizeof(long)); }",
        "int f ( void ) {\nx = calloc ( n + 1 , sizeof ( int ) ) ;\n}\n",
    ),
    (
        "int f(void) { x = NULL; }",
        "int f ( void ) {\nx = NULL ;\n}\n",
    ),
    (
        "int f(void) { x = 0xFFl + 10LL; }",
        "int f ( void ) {\nx = 255 + 10 ;\n}\n",
    ),
    (
        "int f(void) { x = a == b < c << d + e * f; }",
        "int f ( void ) {\nx = a == b < c << d + e * f ;\n}\n",
    ),
    (
        "int f(void) { x = ((a == b) < c); }",
        "int f ( void ) {\nx = ( a == b ) < c ;\n}\n",
    ),
    (
        "int f(void) { x = a == (b < c); }",
        "int f ( void ) {\nx = a == b < c ;\n}\n",
    ),
    (
        "int f(void) { x = a & b == c; }",
        "int f ( void ) {\nx = a & b == c ;\n}\n",
    ),
    (
        "int f(void) { x = (a & b) == c; }",
        "int f ( void ) {\nx = ( a & b ) == c ;\n}\n",
    ),
];

const LEVELS: [Row; 12] = [
    (
        "int f(void) { x = a | b ^ c & d; }",
        "int f ( void ) {\nx = a | b ^ c & d ;\n}\n",
    ),
    (
        "int f(void) { x = (a | b) ^ c; }",
        "int f ( void ) {\nx = ( a | b ) ^ c ;\n}\n",
    ),
    (
        "int f(void) { x = a<<1>>2; }",
        "int f ( void ) {\nx = a << 1 >> 2 ;\n}\n",
    ),
    (
        "int f(void) { x = a<=b>=c!=d; }",
        "int f ( void ) {\nx = a <= b >= c != d ;\n}\n",
    ),
    (
        "int f(void) { x = a % b / c; }",
        "int f ( void ) {\nx = a % b / c ;\n}\n",
    ),
    (
        "int f(void) { x = a % (b / c); }",
        "int f ( void ) {\nx = a % ( b / c ) ;\n}\n",
    ),
    (
        "int f(void) { x = a - - - b; }",
        "int f ( void ) {\nx = a - - - b ;\n}\n",
    ),
    (
        "int f(void) { x = !a == b; }",
        "int f ( void ) {\nx = ! a == b ;\n}\n",
    ),
    (
        "int f(void) { x = !(a == b); }",
        "int f ( void ) {\nx = ! ( a == b ) ;\n}\n",
    ),
    (
        "int f(void) { (a + b) = 1; }",
        "int f ( void ) {\n( a + b ) = 1 ;\n}\n",
    ),
    ("int f(void) { (x) = 1; }", "int f ( void ) {\nx = 1 ;\n}\n"),
    (
        "int f(void) { -x = 1; }",
        "int f ( void ) {\n- x = 1 ;\n}\n",
    ),
];

/// What reading a source comes to.
#[derive(Drop)]
enum Reading {
    Fault(LexFault),
    NoProgram,
    Read(Program),
}

fn read(alloc: Global, source: &[u8]) -> Result<Reading, AllocError> {
    match lex(alloc, source) {
        Ok(tokens) => match parse(alloc, tokens.as_slice()) {
            Ok(program) => Ok(Reading::Read(program)),
            Err(ParseFault::Syntax) => Ok(Reading::NoProgram),
            Err(ParseFault::Memory) => Err(AllocError),
        },
        Err(LexFault::Memory) => Err(AllocError),
        Err(fault) => Ok(Reading::Fault(fault)),
    }
}

fn has_fault(alloc: Global, source: &str, fault: LexFault) -> Result<bool, AllocError> {
    match read(alloc, source.as_bytes())? {
        Reading::Fault(found) => Ok(found == fault),
        Reading::NoProgram | Reading::Read(_) => Ok(false),
    }
}

/// Whether no source of these derives a program, though each spells tokens.
fn are_refused(alloc: Global, sources: &[&str]) -> Result<bool, AllocError> {
    for source in sources {
        if !matches!(read(alloc, source.as_bytes())?, Reading::NoProgram) {
            return Ok(false);
        }
    }
    Ok(true)
}

/// Whether the canonical text of a source is this one, and its own canonical text.
fn has_text(alloc: Global, source: &str, text: &str) -> Result<bool, AllocError> {
    let Reading::Read(program) = read(alloc, source.as_bytes())? else {
        return Ok(false);
    };
    let first = print_program(alloc, &program)?;
    let Reading::Read(again) = read(alloc, first.as_slice())? else {
        return Ok(false);
    };
    let second = print_program(alloc, &again)?;
    Ok(first.as_slice() == text.as_bytes() && second.as_slice() == text.as_bytes())
}

fn have_text(alloc: Global, rows: &[Row]) -> Result<bool, AllocError> {
    for (source, text) in rows {
        if !has_text(alloc, source, text)? {
            return Ok(false);
        }
    }
    Ok(true)
}

#[test]
fn sources_have_lexical_faults(rt: HostRuntime) -> Result<(), Fail> {
    for (source, fault) in FAULTS {
        assert!(rt; has_fault(rt.alloc(), source, fault)?, "{source}");
    }
    Ok(())
}

#[test]
fn sources_derive_no_program(rt: HostRuntime) -> Result<(), Fail> {
    assert!(rt; are_refused(rt.alloc(), &REFUSED)?);
    assert!(rt; are_refused(rt.alloc(), &ALSO_REFUSED)?);
    assert!(rt; are_refused(rt.alloc(), &FREES_REFUSED)?);
    Ok(())
}

#[test]
fn items_have_their_text(rt: HostRuntime) -> Result<(), Fail> {
    assert!(rt; have_text(rt.alloc(), &ITEMS)?);
    Ok(())
}

#[test]
fn statements_have_their_text(rt: HostRuntime) -> Result<(), Fail> {
    assert!(rt; have_text(rt.alloc(), &STATEMENTS)?);
    Ok(())
}

#[test]
fn frees_have_their_text(rt: HostRuntime) -> Result<(), Fail> {
    assert!(rt; have_text(rt.alloc(), &FREES)?);
    Ok(())
}

#[test]
fn loops_have_their_text(rt: HostRuntime) -> Result<(), Fail> {
    assert!(rt; have_text(rt.alloc(), &LOOPS)?);
    Ok(())
}

#[test]
fn signs_have_their_text(rt: HostRuntime) -> Result<(), Fail> {
    assert!(rt; have_text(rt.alloc(), &SIGNS)?);
    Ok(())
}

#[test]
fn places_have_their_text(rt: HostRuntime) -> Result<(), Fail> {
    assert!(rt; have_text(rt.alloc(), &PLACES)?);
    Ok(())
}

#[test]
fn operators_have_their_text(rt: HostRuntime) -> Result<(), Fail> {
    assert!(rt; have_text(rt.alloc(), &OPERATORS)?);
    Ok(())
}

#[test]
fn levels_have_their_text(rt: HostRuntime) -> Result<(), Fail> {
    assert!(rt; have_text(rt.alloc(), &LEVELS)?);
    Ok(())
}
