use crate::texts::{Format, Name};

/// A token, with the places of its first byte and past its last byte, and the line of its first byte, from 1.
#[derive(Drop)]
pub struct Token {
    pub kind: TokenKind,
    pub start: u32,
    pub end: u32,
    pub line: u32,
}

#[derive(Drop)]
pub enum TokenKind {
    /// A name that is not reserved.
    Word(Name),
    Key(Key),
    Number(i64),
    Text(Format),
    Mark(Mark),
    /// The front of an annotation line, `#pragma alter`.
    Alter,
    /// The end of an annotation line.
    EndAlter,
}

/// The reserved words: the keywords of C99 6.4.1, then four of the language's own.
#[derive(Clone, Copy, Debug, PartialEq, Eq)]
pub enum Key {
    Auto,
    Break,
    Case,
    Char,
    Const,
    Continue,
    Default,
    Do,
    Double,
    Else,
    Enum,
    Extern,
    Float,
    For,
    Goto,
    If,
    Inline,
    Int,
    Long,
    Register,
    Restrict,
    Return,
    Short,
    Signed,
    Sizeof,
    Static,
    Struct,
    Switch,
    Typedef,
    Union,
    Unsigned,
    Void,
    Volatile,
    While,
    Bool,
    Complex,
    Imaginary,
    Null,
    Printf,
    Calloc,
    Free,
}

/// The punctuators, each named for its bytes.
#[derive(Clone, Copy, Debug, PartialEq, Eq)]
pub enum Mark {
    LeftParen,
    RightParen,
    LeftBracket,
    RightBracket,
    LeftBrace,
    RightBrace,
    Semicolon,
    Comma,
    Dot,
    Colon,
    Arrow,
    Assign,
    PlusAssign,
    MinusAssign,
    StarAssign,
    SlashAssign,
    PercentAssign,
    AmpersandAssign,
    PipeAssign,
    CaretAssign,
    ShiftLeftAssign,
    ShiftRightAssign,
    Increment,
    Decrement,
    Plus,
    Minus,
    Star,
    Slash,
    Percent,
    Tilde,
    Bang,
    Ampersand,
    Pipe,
    Caret,
    AndAnd,
    OrOr,
    ShiftLeft,
    ShiftRight,
    Less,
    LessEqual,
    Greater,
    GreaterEqual,
    EqualEqual,
    NotEqual,
}
