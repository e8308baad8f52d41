//! The first bad tokens. The places follow the grammar as it is written down, and do not come from the parser.
//!
//! Tokens are written as words, with a `?` before the first bad one; the tokens of a program have none. `3**-` is
//! `- - -`, `#note` and `#end` are the ends of an annotation, and `text` is a text.

use al_grammar::{KEYS, MARKS, key_text, mark_text};
use al_parser::first_bad;
use al_source::{Token, TokenKind};
use sqlite_items::Items;
use std::alloc::{AllocError, Global};
use std::test::Fail;

const ITEMS: [&str; 24] = [
    "",
    "int x ?",
    "int x ; ? }",
    "? #note RAW #end",
    "? x ;",
    "void x ? ;",
    "long long int x ; long int y ; long long ? long z ;",
    "struct s { ? } ;",
    "struct s { int x ? } ;",
    "struct s { int x , * y [ 2 ] ; struct t z ; } ; struct s * p , q [ 3 ] ;",
    "int x = 1 , * y = NULL , z = - 2 ;",
    "int x = - ? - 1 ;",
    "int x = - ? NULL ;",
    "int x = 1 ? + 1 ;",
    "int x = ? y ;",
    "int 8*** x ;",
    "int 8*** ? * x ;",
    "int x [ 1 ] [ 2 ] [ 3 ] [ 4194304 ] ;",
    "int x [ 1 ] [ 1 ] [ 1 ] [ 1 ] ? [ 1 ] ;",
    "int x [ ? 0 ] ;",
    "int x [ ? 4194305 ] ;",
    "int f ( ) ? ;",
    "void * f ( int x , struct s * y ) { } int g ( void ? , int z ) { }",
    "int f ( int x ? [ 1 ] ) { }",
];

const STATEMENTS: [&str; 23] = [
    "int main ( void ) { printf ( text , 2 + ?",
    "int main ( void ) { return 1 + ? ; }",
    "int f ( ) { return ? }",
    "int f ( ) { if ( 1 ) if ( 2 ) ; else ; else ; ? else ; }",
    "int f ( ) { while ( ? ) ; }",
    "int f ( ) { x ? ; }",
    "int f ( ) { x = 1 ? = 2 ; }",
    "int f ( ) { 1 = 2 ; * x ++ ; ++ x . y ; -- * x ; x += 1 ; int x , y = 1 ; { } break ; return ; }",
    "int f ( ) { x = calloc ( 1 , sizeof ( int 8*** ) ) ; x = sizeof ( int 8*** ? * ) ; }",
    "int f ( ) { x = calloc ( 1 ? ) ; }",
    "int f ( ) { calloc ? = 1 ; }",
    "int f ( ) { for ( int i ? ; ; ) ; }",
    "int f ( ) { for ( int i = 0 ? , j = 0 ; ; ) ; }",
    "int f ( ) { for ( int i [ 2 ] = 0 ; i < 2 ; f ( i ) ) ; for ( ; ; ) ; }",
    "int f ( ) { for ( ; ; i ++ ? ; ) ; }",
    "int f ( ) { #note #end for ( ; ; ) ; #note #end ? while ( 1 ) ; }",
    "int f ( ) { #note NONE OutOfOrder reduce ( max : s , t ) reduce ( * : u ) #end for ( ; ; ) ; }",
    "int f ( ) { #note InOrder ? FULL #end for ( ; ; ) ; }",
    "int f ( ) { #note reduce ( + : s ) ? RAW #end for ( ; ; ) ; }",
    "int f ( ) { #note reduce ( ? - : s ) #end for ( ; ; ) ; }",
    "int f ( ) { #note ? x #end for ( ; ; ) ; }",
    "int f ( ) { #note ? for ( ; ; ) ; }",
    "int f ( ) { { } ?",
];

const CALLS: [&str; 17] = [
    "int f ( ) { f ( ) ; f ( 1 , x ) ; printf ( text ) ; printf ( text , 1 ) ; }",
    "int f ( ) { f ( 1 ) ? + 1 ; }",
    "int f ( ) { f ( 1 , ? ) ; }",
    "int f ( ) { printf ( ? 1 ) ; }",
    "int f ( ) { f ( 1 ) = 1 ; f ( 1 ) . x [ 2 ] ++ ; }",
    "int f ( ) { f ( 128**- 1 , 128**- 1 ) ; printf ( text , 128**- 1 , 128**- 1 ) ; }",
    "int f ( ) { f ( 128**- ? - 1 ) ; }",
    "int f ( ) { printf ( text , 128**- ? - 1 ) ; }",
    "int f ( ) { f ( 127**- 1 ) = 128**- 1 ; f ( 126**- 1 ) [ 0 ] ++ ; }",
    "int f ( ) { f ( 128**- 1 ) ? = 1 ; }",
    "int f ( ) { f ( 128**- 1 ) ? += 1 ; }",
    "int f ( ) { f ( 128**- 1 ) ? ++ ; }",
    "int f ( ) { f ( 128**- 1 ) ? -- ; }",
    "int f ( ) { f ( 128**- 1 ) ? . x = 1 ; }",
    "int f ( ) { f ( 128**- 1 ) ? -> x = 1 ; }",
    "int f ( ) { f ( 128**- 1 ) ? [ 0 ] = 1 ; }",
    "int f ( ) { x = f ( 127**- ? - 1 ) ; }",
];

const FREES: [&str; 14] = [
    "int f ( ) { free ( p ) ; free ( NULL ) ; free ( ( p ) ) ; }",
    "int f ( ) { for ( free ( p ) ; ; free ( q ) ) ; }",
    "int f ( ) { free ( ? ) ; }",
    "int f ( ) { free ( p ? , q ) ; }",
    "int f ( ) { free ? p ; }",
    "int f ( ) { free ( p ) ? = 1 ; }",
    "int f ( ) { free ( p ) ? + 1 ; }",
    "int f ( ) { x = ? free ( p ) ; }",
    "int f ( ) { return ? free ( p ) ; }",
    "int f ( ) { free ( ? free ( p ) ) ; }",
    "int f ( ) { free ( 128**- 1 ) ; }",
    "int f ( ) { free ( 128**- ? - 1 ) ; }",
    "int f ( ) { 127**{ free ( p ) ; 127**} }",
    "int ? free ( ) { }",
];

const OPERATORS: [&str; 17] = [
    "int f ( ) { return 128**- 1 ; }",
    "int f ( ) { return 128**- ? - 1 ; }",
    "int f ( ) { return 128**( 1 128**) ; }",
    "int f ( ) { return 128**- ? ( 1 ) ; }",
    "int f ( ) { return 128**- x ? ( 1 ) ; }",
    "int f ( ) { return 128**- x ? [ 1 ] ; }",
    "int f ( ) { return 128**- x ? . y ; }",
    "int f ( ) { return 128**- x ? -> y ; }",
    "int f ( ) { return 128**- x ? < y ; }",
    "int f ( ) { return 127**- sizeof ( int * * ) ; }",
    "int f ( ) { return 128**- ? sizeof ( int ) ; }",
    "int f ( ) { return 126**- calloc ( 1 , sizeof ( int * ) ) ; }",
    "int f ( ) { return 127**- ? calloc ( 1 , sizeof ( int ) ) ; }",
    "int f ( ) { return 125**- calloc ( - 1 , sizeof ( int ) ) ; }",
    "int f ( ) { return 126**- calloc ( ? - 1 , sizeof ( int ) ) ; }",
    "int f ( ) { 128**- x = 128**- 1 ; ++ 128**- x ; }",
    "int f ( ) { 128**- ? - x = 1 ; }",
];

const NESTING: [&str; 17] = [
    "int f ( ) { 128**{ 128**} }",
    "int f ( ) { 128**{ ?",
    "int f ( ) { 128**{ ? { } 128**} }",
    "int f ( ) { 128**{ ? ; 128**} }",
    "int f ( ) { 128**{ ? int x ; 128**} }",
    "int f ( ) { 127**{ ; int x ; x = 128**( 1 128**) ; 127**} }",
    "int f ( ) { 127**{ ? if ( 1 ) ; 127**} }",
    "int f ( ) { 127**{ ? while ( 1 ) ; 127**} }",
    "int f ( ) { 127**{ ? for ( ; ; ) ; 127**} }",
    "int f ( ) { 127**{ ? #note #end for ( ; ; ) ; 127**} }",
    "int f ( ) { 126**{ if ( 1 ) ; else ; 126**} }",
    "int f ( ) { 126**{ while ( 1 ) ; 126**} }",
    "int f ( ) { 126**{ for ( int i = 0 ; ; i ++ ) ; 126**} }",
    "int f ( ) { 126**{ #note #end for ( ; ; ) ; 126**} }",
    "int f ( ) { 126**{ if ( 1 ) ; else ? if ( 2 ) ; 126**} }",
    "int f ( ) { 126**{ while ( 1 ) { } 126**} }",
    "int f ( ) { 126**{ while ( 1 ) { ? ; } 126**} }",
];

fn named(alloc: Global, word: &str) -> Result<TokenKind, AllocError> {
    match word {
        "#note" => Ok(TokenKind::Alter),
        "#end" => Ok(TokenKind::EndAlter),
        "text" => Ok(TokenKind::Text(Items::new(alloc))),
        _ => match word.parse::<i64>() {
            Ok(value) => Ok(TokenKind::Number(value)),
            Err(_) => Ok(TokenKind::Word(Items::from_slice(alloc, word.as_bytes())?)),
        },
    }
}

fn kind_of(alloc: Global, word: &str) -> Result<TokenKind, AllocError> {
    for key in KEYS {
        if key_text(key) == word.as_bytes() {
            return Ok(TokenKind::Key(key));
        }
    }
    for mark in MARKS {
        if mark_text(mark) == word.as_bytes() {
            return Ok(TokenKind::Mark(mark));
        }
    }
    named(alloc, word)
}

fn times(word: &str) -> (u32, &str) {
    match word.split_once("**") {
        Some((count, word)) => (count.parse().unwrap_or(0), word),
        None => (1, word),
    }
}

/// The tokens of a row, without its `?`.
fn tokens_of(alloc: Global, row: &str) -> Result<Vec<Token>, AllocError> {
    let mut tokens = Vec::new(alloc);
    for word in row.split_ascii_whitespace() {
        if word != "?" {
            let (count, word) = times(word);
            for _ in 0..count {
                tokens.push(Token {
                    kind: kind_of(alloc, word)?,
                    start: 0,
                    end: 0,
                    line: 1,
                })?;
            }
        }
    }
    Ok(tokens)
}

/// How many tokens a row has before its `?`.
fn wanted(alloc: Global, row: &str) -> Result<Option<usize>, AllocError> {
    match row.split_once('?') {
        Some((before, _)) => Ok(Some(tokens_of(alloc, before)?.len())),
        None => Ok(None),
    }
}

/// The first row whose first bad token is another.
fn first_wrong<'a>(alloc: Global, rows: &[&'a str]) -> Result<Option<&'a str>, AllocError> {
    for row in rows {
        let tokens = tokens_of(alloc, row)?;
        if first_bad(alloc, &tokens)? != wanted(alloc, row)? {
            return Ok(Some(row));
        }
    }
    Ok(None)
}

#[test]
fn stops_at_the_first_bad_token(rt: HostRuntime) -> Result<(), Fail> {
    for rows in [
        ITEMS.as_slice(),
        STATEMENTS.as_slice(),
        CALLS.as_slice(),
        FREES.as_slice(),
        OPERATORS.as_slice(),
        NESTING.as_slice(),
    ] {
        assert_eq!(rt; first_wrong(rt.alloc(), rows)?, None);
    }
    Ok(())
}
