//! Sources with their tokens or their fault. A token is shown with its line. The values follow the rules of the
//! language as they are written down, and do not come from the lexer.

use al_lexer::lex;
use al_source::limits::SOURCE_BYTES;
use al_source::{Format, LexFault, Piece, Token, TokenKind};
use std::alloc::{AllocError, Global};
use std::test::Fail;

type Row = (&'static [u8], &'static str);

const NAMES: [Row; 10] = [
    (b"x_1 _y A0z", "w.x_1:1 w._y:1 w.A0z:1 "),
    (
        b"int integer Int NULL Null",
        "k.Int:1 w.integer:1 w.Int:1 k.Null:1 w.Null:1 ",
    ),
    (b"alter pragma include", "w.alter:1 w.pragma:1 w.include:1 "),
    (
        b"a\tb\x0bc\x0cd\re\nf",
        "w.a:1 w.b:1 w.c:1 w.d:1 w.e:1 w.f:2 ",
    ),
    (b"", ""),
    (
        b"auto break case char const continue default do double",
        "k.Auto:1 k.Break:1 k.Case:1 k.Char:1 k.Const:1 k.Continue:1 k.Default:1 k.Do:1 k.Double:1 ",
    ),
    (
        b"else enum extern float for goto if inline int long",
        "k.Else:1 k.Enum:1 k.Extern:1 k.Float:1 k.For:1 k.Goto:1 k.If:1 k.Inline:1 k.Int:1 k.Long:1 ",
    ),
    (
        b"register restrict return short signed sizeof static struct",
        "k.Register:1 k.Restrict:1 k.Return:1 k.Short:1 k.Signed:1 k.Sizeof:1 k.Static:1 k.Struct:1 ",
    ),
    (
        b"switch typedef union unsigned void volatile while _Bool",
        "k.Switch:1 k.Typedef:1 k.Union:1 k.Unsigned:1 k.Void:1 k.Volatile:1 k.While:1 k.Bool:1 ",
    ),
    (
        b"_Complex _Imaginary NULL printf calloc free",
        "k.Complex:1 k.Imaginary:1 k.Null:1 k.Printf:1 k.Calloc:1 k.Free:1 ",
    ),
];

const NUMBERS: [Row; 21] = [
    (b"0 7 10 0x1F 0XaB", "0:1 7:1 10:1 31:1 171:1 "),
    (b"1l 2L 3ll 4LL 0x5L 0L", "1:1 2:1 3:1 4:1 5:1 0:1 "),
    (b"9223372036854775807", "9223372036854775807:1 "),
    (b"0x7fffffffffffffffLL", "9223372036854775807:1 "),
    (b".5", "m.Dot:1 5:1 "),
    (b"-1", "m.Minus:1 1:1 "),
    (b"\n9223372036854775808", "BadNumber(2)"),
    (b"0x8000000000000000", "BadNumber(1)"),
    (b"99999999999999999999999999", "BadNumber(1)"),
    (b"00", "BadNumber(1)"),
    (b"017", "BadNumber(1)"),
    (b"0x", "BadNumber(1)"),
    (b"0xg", "BadNumber(1)"),
    (b"0b1", "BadNumber(1)"),
    (b"1lL", "BadNumber(1)"),
    (b"1lll", "BadNumber(1)"),
    (b"1u", "BadNumber(1)"),
    (b"1.5", "BadNumber(1)"),
    (b"1.", "BadNumber(1)"),
    (b"1_", "BadNumber(1)"),
    (b"09\n@", "BadNumber(1)"),
];

const MARKS_JOINED: [Row; 23] = [
    (b"x+=1;", "w.x:1 m.PlusAssign:1 1:1 m.Semicolon:1 "),
    (b"a<<=b", "w.a:1 m.ShiftLeftAssign:1 w.b:1 "),
    (b"---x", "m.Decrement:1 m.Minus:1 w.x:1 "),
    (b"a+++b", "w.a:1 m.Increment:1 m.Plus:1 w.b:1 "),
    (b">>>=", "m.ShiftRight:1 m.GreaterEqual:1 "),
    (b"&&&", "m.AndAnd:1 m.Ampersand:1 "),
    (b"===", "m.EqualEqual:1 m.Assign:1 "),
    (b"->>", "m.Arrow:1 m.Greater:1 "),
    (b"a*/b", "w.a:1 m.Star:1 m.Slash:1 w.b:1 "),
    (b"x\n @", "BadByte(2)"),
    (b"'", "BadByte(1)"),
    (b"?", "BadByte(1)"),
    (b"\x00", "BadByte(1)"),
    (b"\x80", "BadByte(1)"),
    (b"\\\n", "BadByte(1)"),
    (b"@ 09", "BadByte(1)"),
    (
        b"( ) [ ] { }",
        "m.LeftParen:1 m.RightParen:1 m.LeftBracket:1 m.RightBracket:1 m.LeftBrace:1 m.RightBrace:1 ",
    ),
    (
        b"; , . : -> = += -=",
        "m.Semicolon:1 m.Comma:1 m.Dot:1 m.Colon:1 m.Arrow:1 m.Assign:1 m.PlusAssign:1 m.MinusAssign:1 ",
    ),
    (
        b"*= /= %= &= |=",
        "m.StarAssign:1 m.SlashAssign:1 m.PercentAssign:1 m.AmpersandAssign:1 m.PipeAssign:1 ",
    ),
    (
        b"^= <<= >>= ++ -- +",
        "m.CaretAssign:1 m.ShiftLeftAssign:1 m.ShiftRightAssign:1 m.Increment:1 m.Decrement:1 m.Plus:1 ",
    ),
    (
        b"- * / % ~ ! & | ^",
        "m.Minus:1 m.Star:1 m.Slash:1 m.Percent:1 m.Tilde:1 m.Bang:1 m.Ampersand:1 m.Pipe:1 m.Caret:1 ",
    ),
    (
        b"&& || << >> < <= >",
        "m.AndAnd:1 m.OrOr:1 m.ShiftLeft:1 m.ShiftRight:1 m.Less:1 m.LessEqual:1 m.Greater:1 ",
    ),
    (b">= == !=", "m.GreaterEqual:1 m.EqualEqual:1 m.NotEqual:1 "),
];

const COMMENTS: [Row; 11] = [
    (b"a//b\nc", "w.a:1 w.c:2 "),
    (b"a/*b\n\n*/c", "w.a:1 w.c:3 "),
    (b"a/**/b", "w.a:1 w.b:1 "),
    (b"/*/ x */ y", "w.y:1 "),
    (b"/*\x00\xff\"@*/s", "w.s:1 "),
    (b"/* // */ z", "w.z:1 "),
    (b"// /* \nq", "w.q:2 "),
    (b"// x", ""),
    (b"/* * / **/ r", "w.r:1 "),
    (b"/*/", "OpenComment(1)"),
    (b"x\n/* y\n", "OpenComment(2)"),
];

const TEXTS: [Row; 19] = [
    (b"\"\"", "\"\":1 "),
    (b"\"ab\" \"c\"", "\"ab\":1 \"c\":1 "),
    (b"\"%d%%%ld%lld\"", "\"#|%|#|#\":1 "),
    (b"\"50%% x\"", "\"50% x\":1 "),
    (b"\"a\\n\\t\\\\\\\"b\"", "\"a\n\t\\\"b\":1 "),
    (b"\"/*\" x", "\"/*\":1 w.x:1 "),
    (b"\"//\"", "\"//\":1 "),
    (b"\"\t~\"", "\"\t~\":1 "),
    (b"\"%x\"", "BadText(1)"),
    (b"\"%l\"", "BadText(1)"),
    (b"\"%\"", "BadText(1)"),
    (b"\"%5d\"", "BadText(1)"),
    (b"\"\\r\"", "BadText(1)"),
    (b"\"\\%\"", "BadText(1)"),
    (b"\"a", "BadText(1)"),
    (b"\"a\\", "BadText(1)"),
    (b"\n\"a\nb\"", "BadText(2)"),
    (b"\"\x01\"", "BadText(1)"),
    (b"\"\x7f\"", "BadText(1)"),
];

const DIRECTIVES: [Row; 21] = [
    (b"#include <a.h>\nx", "w.x:2 "),
    (b"  # include \"x//y\"\nz", "w.z:2 "),
    (b"x\n#include\n#include @$'\ny", "w.x:1 w.y:4 "),
    (b"#include <a/*\n*/>\ny", "w.y:3 "),
    (b"/* c */ #include <a>\nb", "w.b:2 "),
    (b"/*\n*/#include <a>\nb", "w.b:3 "),
    (b"#/* c */include <a>\nb", "w.b:2 "),
    (b"# /*\n*/ include <a>\nb", "w.b:3 "),
    (b"#include \"a/*b", "OpenComment(1)"),
    (b"x /*\n*/ #include <a>", "BadByte(2)"),
    (b"x #include", "BadByte(1)"),
    (b"\n#define X /* open", "BadByte(2)"),
    (b"\n#/*\n*/define", "BadByte(2)"),
    (b"# /* open", "OpenComment(1)"),
    (b"#\nx", "BadByte(1)"),
    (b"#", "BadByte(1)"),
    (b"#5", "BadByte(1)"),
    (b"##", "BadByte(1)"),
    (b"#includes", "BadByte(1)"),
    (b"#pragmas", "BadByte(1)"),
    (b"#if 0", "BadByte(1)"),
];

const PRAGMAS: [Row; 22] = [
    (b"#pragma once\nx", "w.x:2 "),
    (b"#pragma alterx\ny", "w.y:2 "),
    (b"#pragma 5 \" @\ny", "w.y:2 "),
    (b"#pragma", ""),
    (b"#pragma\nz", "w.z:2 "),
    (b"#pragma omp \"/*\n*/ a\nb", "w.b:3 "),
    (b"#pragma x /* y", "OpenComment(1)"),
    (b"#pragma /* y", "OpenComment(1)"),
    (b"#pragma alter\nfor", "Alter:1 End:1 k.For:2 "),
    (
        b"#pragma alter RAW reduce(+: s)\n",
        "Alter:1 w.RAW:1 w.reduce:1 m.LeftParen:1 m.Plus:1 m.Colon:1 w.s:1 m.RightParen:1 End:1 ",
    ),
    (b"#pragma alter", "Alter:1 End:1 "),
    (b"#pragma/**/alter/**/", "Alter:1 End:1 "),
    (b"#/*\n*/pragma alter x", "Alter:1 w.x:2 End:2 "),
    (
        b"#pragma alter FULL /*\n*/ x\ny",
        "Alter:1 w.FULL:1 w.x:2 End:2 w.y:3 ",
    ),
    (b"#pragma alter x /*\n*/\ny", "Alter:1 w.x:1 End:2 w.y:3 "),
    (b"#pragma alter // c\nz", "Alter:1 End:1 w.z:2 "),
    (
        b"#pragma alter\n#pragma alter\n",
        "Alter:1 End:1 Alter:2 End:2 ",
    ),
    (b"#pragma alter #\n", "BadByte(1)"),
    (b"#pragma alter /*\n*/ #", "BadByte(2)"),
    (b"#pragma alter 09", "BadNumber(1)"),
    (b"#pragma alter \"", "BadText(1)"),
    (b"#pragma alter a /*", "OpenComment(1)"),
];

fn push_bytes(out: &mut String, bytes: &[u8]) -> Result<(), AllocError> {
    for b in bytes {
        out.push(char::from(*b))?;
    }
    Ok(())
}

fn push_format(out: &mut String, format: &Format) -> Result<(), AllocError> {
    let mut is_first = true;
    for piece in format.as_slice() {
        if !is_first {
            out.push('|')?;
        }
        is_first = false;
        match piece {
            Piece::Plain(bytes) => push_bytes(out, bytes.as_slice())?,
            Piece::Number => out.push('#')?,
        }
    }
    Ok(())
}

fn push_kind(alloc: Global, out: &mut String, kind: &TokenKind) -> Result<(), AllocError> {
    match kind {
        TokenKind::Word(name) => {
            out.push_str("w.")?;
            push_bytes(out, name.as_slice())
        }
        TokenKind::Key(key) => out.push_str(&format!(in alloc; "k.{key:?}")?),
        TokenKind::Number(n) => out.push_str(&format!(in alloc; "{n}")?),
        TokenKind::Text(format) => {
            out.push('"')?;
            push_format(out, format)?;
            out.push('"')
        }
        TokenKind::Mark(mark) => out.push_str(&format!(in alloc; "m.{mark:?}")?),
        TokenKind::Alter => out.push_str("Alter"),
        TokenKind::EndAlter => out.push_str("End"),
    }
}

fn push_tokens(alloc: Global, out: &mut String, tokens: &[Token]) -> Result<(), AllocError> {
    for token in tokens {
        push_kind(alloc, out, &token.kind)?;
        let line = token.line;
        out.push_str(&format!(in alloc; ":{line} ")?)?;
    }
    Ok(())
}

/// The tokens of a source, or its fault.
fn shown(alloc: Global, source: &[u8]) -> Result<String, AllocError> {
    match lex(alloc, source) {
        Ok(tokens) => {
            let mut out = String::new(alloc);
            push_tokens(alloc, &mut out, tokens.as_slice())?;
            Ok(out)
        }
        Err(fault) => format!(in alloc; "{fault:?}"),
    }
}

/// The place of the first row whose source is shown otherwise than is wanted.
fn first_wrong(alloc: Global, rows: &[Row]) -> Result<Option<usize>, AllocError> {
    for (place, (source, wanted)) in rows.iter().enumerate() {
        if shown(alloc, source)?.as_str() != *wanted {
            return Ok(Some(place));
        }
    }
    Ok(None)
}

#[test]
fn names_are_as_written(rt: HostRuntime) -> Result<(), Fail> {
    assert_eq!(rt; first_wrong(rt.alloc(), &NAMES)?, None);
    Ok(())
}

#[test]
fn numbers_are_as_written(rt: HostRuntime) -> Result<(), Fail> {
    assert_eq!(rt; first_wrong(rt.alloc(), &NUMBERS)?, None);
    Ok(())
}

#[test]
fn marks_joined_are_as_written(rt: HostRuntime) -> Result<(), Fail> {
    assert_eq!(rt; first_wrong(rt.alloc(), &MARKS_JOINED)?, None);
    Ok(())
}

#[test]
fn comments_are_as_written(rt: HostRuntime) -> Result<(), Fail> {
    assert_eq!(rt; first_wrong(rt.alloc(), &COMMENTS)?, None);
    Ok(())
}

#[test]
fn texts_are_as_written(rt: HostRuntime) -> Result<(), Fail> {
    assert_eq!(rt; first_wrong(rt.alloc(), &TEXTS)?, None);
    Ok(())
}

#[test]
fn directives_are_as_written(rt: HostRuntime) -> Result<(), Fail> {
    assert_eq!(rt; first_wrong(rt.alloc(), &DIRECTIVES)?, None);
    Ok(())
}

#[test]
fn pragmas_are_as_written(rt: HostRuntime) -> Result<(), Fail> {
    assert_eq!(rt; first_wrong(rt.alloc(), &PRAGMAS)?, None);
    Ok(())
}

/// The first and the past-the-end place of each token, where the source has any.
fn has_spans(alloc: Global, source: &[u8], spans: &[(u32, u32)]) -> bool {
    match lex(alloc, source) {
        Ok(tokens) => tokens
            .as_slice()
            .iter()
            .map(|t| (t.start, t.end))
            .eq(spans.iter().copied()),
        Err(_) => false,
    }
}

#[test]
fn tokens_span_their_bytes(rt: HostRuntime) {
    assert!(rt;
        has_spans(
            rt.alloc(),
            b"ab += 10;\n#pragma alter\n",
            &[(0, 2), (3, 5), (6, 8), (8, 9), (10, 23), (23, 23)]
        )
    );
    assert!(rt; has_spans(rt.alloc(), b"/**/\"%d\" # ", &[]) == false);
    assert!(rt;
        has_spans(
            rt.alloc(),
            b"# pragma /**/ alter x /**/",
            &[(0, 19), (20, 21), (26, 26)]
        )
    );
}

#[test]
fn a_source_has_at_most_a_mebibyte(rt: HostRuntime) -> Result<(), Fail> {
    let mut source = vec![in rt.alloc(); b' '; SOURCE_BYTES]?;
    assert!(rt; lex(rt.alloc(), &source)?.is_empty());
    source.push(b' ')?;
    assert_eq!(rt; lex(rt.alloc(), &source).err(), Some(LexFault::TooLong));
    Ok(())
}
