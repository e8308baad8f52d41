//! What a single token says in an expression, a statement or an annotation.

ghost use Rattle.std.specs.Prelude.{◌≡◌, IfOk};
ghost use Rattle.std.specs.Str.{bytes_eq};
ghost use Rattle.al_source.specs.declared.tokens.TokenKind.TheVariants as token;
ghost use Rattle.al_grammar.specs.Operators as spec;

use al_source::{BinOp, CommitOrder, Expr, Mark, Policy, RedOp, TokenKind, UnOp};
use sqlite_items::Boxed;
use std::alloc::{AllocError, Global};

/// What an operator between two expressions makes of them.
#[derive(Clone, Copy, Debug, PartialEq, Eq)]
pub enum Joint {
    Or,
    And,
    Op(BinOp),
}

/// What an operator before an expression makes of it.
#[derive(Clone, Copy, Debug, PartialEq, Eq)]
pub enum Prefix {
    Op(UnOp),
    Deref,
    Address,
}

/// What a token says in an annotation.
#[derive(Clone, Copy, Debug, PartialEq, Eq)]
pub enum NoteWord {
    Policy(Policy),
    Order(CommitOrder),
    Reduce,
    Operator(RedOp),
}

/// How many levels of binary operators there are.
pub const LEVELS: u8 = 10;

/// A binary operator's level, from 0, the loosest, and what it makes of its operands.
pub fn infix_of(kind: &TokenKind) -> Option<(u8, Joint)>
    ensures { result ≡ spec.infix_of kind.now }
{
    match kind {
        TokenKind::Mark(mark) => infix_mark(*mark),
        _ => None,
    }
}

fn infix_mark(mark: Mark) -> Option<(u8, Joint)>
    ensures { result ≡ spec.infix_of (token.Mark mark) }
{
    match mark {
        Mark::OrOr => Some((0, Joint::Or)),
        Mark::AndAnd => Some((1, Joint::And)),
        Mark::Pipe => Some((2, Joint::Op(BinOp::BitOr))),
        Mark::Caret => Some((3, Joint::Op(BinOp::BitXor))),
        Mark::Ampersand => Some((4, Joint::Op(BinOp::BitAnd))),
        Mark::EqualEqual => Some((5, Joint::Op(BinOp::Eq))),
        Mark::NotEqual => Some((5, Joint::Op(BinOp::Ne))),
        Mark::Less => Some((6, Joint::Op(BinOp::Lt))),
        Mark::LessEqual => Some((6, Joint::Op(BinOp::Le))),
        Mark::Greater => Some((6, Joint::Op(BinOp::Gt))),
        Mark::GreaterEqual => Some((6, Joint::Op(BinOp::Ge))),
        Mark::ShiftLeft => Some((7, Joint::Op(BinOp::Shl))),
        Mark::ShiftRight => Some((7, Joint::Op(BinOp::Shr))),
        Mark::Plus => Some((8, Joint::Op(BinOp::Add))),
        Mark::Minus => Some((8, Joint::Op(BinOp::Sub))),
        Mark::Star => Some((9, Joint::Op(BinOp::Mul))),
        Mark::Slash => Some((9, Joint::Op(BinOp::Div))),
        Mark::Percent => Some((9, Joint::Op(BinOp::Rem))),
        _ => None,
    }
}

/// What an operator before an expression is.
pub fn prefix_of(kind: &TokenKind) -> Option<Prefix>
    ensures { result ≡ spec.prefix_of kind.now }
{
    match kind {
        TokenKind::Mark(Mark::Minus) => Some(Prefix::Op(UnOp::Neg)),
        TokenKind::Mark(Mark::Tilde) => Some(Prefix::Op(UnOp::BitNot)),
        TokenKind::Mark(Mark::Bang) => Some(Prefix::Op(UnOp::Not)),
        TokenKind::Mark(Mark::Star) => Some(Prefix::Deref),
        TokenKind::Mark(Mark::Ampersand) => Some(Prefix::Address),
        _ => None,
    }
}

/// The operator of an assignment such as `+=`.
pub fn update_of(kind: &TokenKind) -> Option<BinOp>
    ensures { result ≡ spec.update_of kind.now }
{
    match kind {
        TokenKind::Mark(Mark::PlusAssign) => Some(BinOp::Add),
        TokenKind::Mark(Mark::MinusAssign) => Some(BinOp::Sub),
        TokenKind::Mark(Mark::StarAssign) => Some(BinOp::Mul),
        TokenKind::Mark(Mark::SlashAssign) => Some(BinOp::Div),
        TokenKind::Mark(Mark::PercentAssign) => Some(BinOp::Rem),
        TokenKind::Mark(Mark::AmpersandAssign) => Some(BinOp::BitAnd),
        TokenKind::Mark(Mark::PipeAssign) => Some(BinOp::BitOr),
        TokenKind::Mark(Mark::CaretAssign) => Some(BinOp::BitXor),
        TokenKind::Mark(Mark::ShiftLeftAssign) => Some(BinOp::Shl),
        TokenKind::Mark(Mark::ShiftRightAssign) => Some(BinOp::Shr),
        _ => None,
    }
}

/// `++` adds 1 and `--` takes 1 away.
pub fn step_of(kind: &TokenKind) -> Option<BinOp>
    ensures { result ≡ spec.step_of kind.now }
{
    match kind {
        TokenKind::Mark(Mark::Increment) => Some(BinOp::Add),
        TokenKind::Mark(Mark::Decrement) => Some(BinOp::Sub),
        _ => None,
    }
}

/// What a token says in an annotation.
pub fn note_word_of(kind: &TokenKind) -> Option<NoteWord>
    ensures { result ≡ spec.note_word_of kind.now }
{
    match kind {
        TokenKind::Mark(Mark::Plus) => Some(NoteWord::Operator(RedOp::Add)),
        TokenKind::Mark(Mark::Star) => Some(NoteWord::Operator(RedOp::Mul)),
        TokenKind::Mark(Mark::Ampersand) => Some(NoteWord::Operator(RedOp::BitAnd)),
        TokenKind::Mark(Mark::Pipe) => Some(NoteWord::Operator(RedOp::BitOr)),
        TokenKind::Mark(Mark::Caret) => Some(NoteWord::Operator(RedOp::BitXor)),
        TokenKind::Word(name) => note_name(name.as_slice()),
        _ => None,
    }
}

fn is_word(name: &[u8], word: &[u8]) -> bool
    ensures { result ≡ bytes_eq name.now word.now }
{
    name == word
}

fn note_name(name: &[u8]) -> Option<NoteWord>
    ensures { result ≡ spec.note_name name.now }
{
    if is_word(name, b"FULL") {
        Some(NoteWord::Policy(Policy::Full))
    } else if is_word(name, b"RAW") {
        Some(NoteWord::Policy(Policy::Raw))
    } else if is_word(name, b"WAW") {
        Some(NoteWord::Policy(Policy::Waw))
    } else if is_word(name, b"NONE") {
        Some(NoteWord::Policy(Policy::None))
    } else if is_word(name, b"InOrder") {
        Some(NoteWord::Order(CommitOrder::InOrder))
    } else if is_word(name, b"OutOfOrder") {
        Some(NoteWord::Order(CommitOrder::OutOfOrder))
    } else if is_word(name, b"reduce") {
        Some(NoteWord::Reduce)
    } else if is_word(name, b"min") {
        Some(NoteWord::Operator(RedOp::Min))
    } else if is_word(name, b"max") {
        Some(NoteWord::Operator(RedOp::Max))
    } else {
        None
    }
}

/// What a binary operator makes of its operands.
pub fn join(alloc: Global, op: Joint, x: Expr, y: Expr) -> Result<Expr, AllocError>
    ensures { IfOk result (λ e. e ≡ spec.join op x y) }
{
    let x = Boxed::new(alloc, x)?;
    let y = Boxed::new(alloc, y)?;
    match op {
        Joint::Or => Ok(Expr::Or(x, y)),
        Joint::And => Ok(Expr::And(x, y)),
        Joint::Op(op) => Ok(Expr::Binary(op, x, y)),
    }
}

/// What an operator before an expression makes of it.
pub fn apply(alloc: Global, op: Prefix, x: Expr) -> Result<Expr, AllocError>
    ensures { IfOk result (λ e. e ≡ spec.apply op x) }
{
    let x = Boxed::new(alloc, x)?;
    match op {
        Prefix::Op(op) => Ok(Expr::Unary(op, x)),
        Prefix::Deref => Ok(Expr::Deref(x)),
        Prefix::Address => Ok(Expr::Address(x)),
    }
}
