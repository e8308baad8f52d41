use al_core::{TExpr, TPlace};
use al_source::CType;

/// What an expression is to the expression or statement that it is a part of.
#[derive(Drop)]
pub enum Operand {
    /// A literal number, of which 0 may stand for a null pointer.
    Literal(i64),
    /// `NULL`.
    Null,
    /// Any other value, of this type.
    Value(CType, TExpr),
    /// A local, by its number.
    Variable(u32, CType),
    /// A place in memory.
    Place(CType, TPlace),
}

/// What an expression is where a value is wanted.
#[derive(Drop)]
pub enum Value {
    Int(TExpr),
    /// A pointer to this type, or a null pointer, which fits every pointer type.
    Pointer(Option<CType>, TExpr),
    /// Nothing that may be used: a struct, an array of arrays, or the result of a `void` function.
    Useless,
}
