ghost use Rattle.std.specs.Prelude.{◌≡◌};
ghost use Rattle.al_rules.specs.Faults as spec;

use al_source::LexFault;
use std::alloc::AllocError;
use thiserror::Error;

/// Why a source has no tokens. A number is a line, from 1.
#[derive(Clone, Copy, Debug, PartialEq, Eq)]
pub enum LexicalCause {
    /// It has more than `SOURCE_BYTES` bytes.
    TooLong,
    BadByte(u32),
    BadNumber(u32),
    BadText(u32),
    OpenComment(u32),
}

/// Why the structs and globals of a program have no layout. A number is the line of an item, from 1.
#[derive(Clone, Copy, Debug, PartialEq, Eq)]
pub enum LayoutCause {
    SelfHolding(u32),
    /// A struct, or the globals so far, have more than `OBJECT_WORDS` words.
    TooLarge(u32),
}

/// The cause, or want of memory.
#[derive(Clone, Copy, Debug, PartialEq, Eq, Error)]
#[error("the program has no layout")]
pub enum LayoutFault {
    SelfHolding(u32),
    TooLarge(u32),
    Memory,
}

impl LayoutFault {
    /// The cause, unless it is want of memory.
    pub fn cause(self) -> Option<LayoutCause>
        ensures { result ≡ spec.laid self }
    {
        match self {
            LayoutFault::SelfHolding(line) => Some(LayoutCause::SelfHolding(line)),
            LayoutFault::TooLarge(line) => Some(LayoutCause::TooLarge(line)),
            LayoutFault::Memory => None,
        }
    }
}

impl From<AllocError> for LayoutFault {
    ghost use Rattle.std.specs.Prelude.{◌≡◌};
    ghost use Rattle.al_rules.specs.declared.faults.LayoutFault.TheVariants.{Memory};

    ghost from_gives = { λ _ e. e ≡ Memory };

    fn from(_: AllocError) -> LayoutFault {
        LayoutFault::Memory
    }
}

/// What is wrong with a name or a type.
#[derive(Clone, Copy, Debug, PartialEq, Eq)]
pub enum TypeKind {
    /// A struct, a field of one struct, a global or function, or a name of one scope is defined again.
    Twice,
    /// A struct, field, variable or function is not known.
    Unknown,
    /// A type that may not stand where it does.
    Shape,
    /// A part has another type than is wanted.
    Mismatch,
    /// What is assigned to, or what an address is taken of, is no place.
    NotPlace,
    LocalAddress,
    /// A call or a `printf` has a wrong number of arguments.
    Count,
    /// A `return` has a value in a `void` function, or none in another.
    Return,
    /// A `break` or `continue` is outside all loops.
    Outside,
    /// There is no function `main` without parameters whose result is an integer.
    Main,
}

/// Why a program has no types: what is wrong, and the line of its statement or item, from 1.
#[derive(Clone, Copy, Debug, PartialEq, Eq)]
pub struct TypeCause {
    pub kind: TypeKind,
    pub line: u32,
}

/// The cause, or want of memory.
#[derive(Clone, Copy, Debug, PartialEq, Eq, Error)]
#[error("the program has no types")]
pub enum TypeFault {
    At(TypeKind, u32),
    Memory,
}

impl TypeFault {
    /// The cause, unless it is want of memory.
    pub fn cause(self) -> Option<TypeCause>
        ensures { result ≡ spec.typed self }
    {
        match self {
            TypeFault::At(kind, line) => Some(TypeCause { kind, line }),
            TypeFault::Memory => None,
        }
    }
}

impl From<AllocError> for TypeFault {
    ghost use Rattle.std.specs.Prelude.{◌≡◌};
    ghost use Rattle.al_rules.specs.declared.faults.TypeFault.TheVariants.{Memory};

    ghost from_gives = { λ _ e. e ≡ Memory };

    fn from(_: AllocError) -> TypeFault {
        TypeFault::Memory
    }
}

/// What is wrong with an annotated loop.
#[derive(Clone, Copy, Debug, PartialEq, Eq)]
pub enum NoteKind {
    /// A part of the `for` has another form.
    Form,
    /// The body assigns the counter.
    IndexChanges,
    /// The body assigns the bound.
    BoundChanges,
    /// The body has a `return`, or a `break` of this loop.
    Leaves,
    /// A variable stands twice in the annotation, or is the counter or the bound.
    ReductionName,
    /// The address of a reduction variable is taken.
    ReductionAddress,
    /// A reduction variable is used otherwise than in updates by its operator.
    ReductionUsed,
}

/// Why an annotated loop is refused: what is wrong with it, and the line of its `for`, from 1.
#[derive(Clone, Copy, Debug, PartialEq, Eq)]
pub struct NoteCause {
    pub kind: NoteKind,
    pub line: u32,
}

/// The cause, or want of memory.
#[derive(Clone, Copy, Debug, PartialEq, Eq, Error)]
#[error("an annotated loop is refused")]
pub enum NoteFault {
    At(NoteKind, u32),
    Memory,
}

impl NoteFault {
    /// The cause, unless it is want of memory.
    pub fn cause(self) -> Option<NoteCause>
        ensures { result ≡ spec.noted self }
    {
        match self {
            NoteFault::At(kind, line) => Some(NoteCause { kind, line }),
            NoteFault::Memory => None,
        }
    }
}

impl From<AllocError> for NoteFault {
    ghost use Rattle.std.specs.Prelude.{◌≡◌};
    ghost use Rattle.al_rules.specs.declared.faults.NoteFault.TheVariants.{Memory};

    ghost from_gives = { λ _ e. e ≡ Memory };

    fn from(_: AllocError) -> NoteFault {
        NoteFault::Memory
    }
}

/// Why a typed program is not lowered.
#[derive(Clone, Copy, Debug, PartialEq, Eq, Error)]
#[error("the program is not lowered")]
pub enum LowerFault {
    /// Its source has more than `SOURCE_NODES` statements and expressions.
    TooLarge,
    Memory,
}

impl From<AllocError> for LowerFault {
    ghost use Rattle.std.specs.Prelude.{◌≡◌};
    ghost use Rattle.al_rules.specs.declared.faults.LowerFault.TheVariants.{Memory};

    ghost from_gives = { λ _ e. e ≡ Memory };

    fn from(_: AllocError) -> LowerFault {
        LowerFault::Memory
    }
}

/// Why a source is refused.
#[derive(Clone, Copy, Debug, PartialEq, Eq)]
pub enum Refusal {
    Lexical(LexicalCause),
    /// Its tokens are no program.
    Grammar,
    Layout(LayoutCause),
    Types(TypeCause),
    Notes(NoteCause),
    /// It has more than `SOURCE_NODES` statements and expressions.
    TooManyNodes,
}

/// The cause of a lexical fault, unless it is want of memory.
pub fn lexical_cause(fault: LexFault) -> Option<LexicalCause>
    ensures { result ≡ spec.spelled fault }
{
    match fault {
        LexFault::TooLong => Some(LexicalCause::TooLong),
        LexFault::BadByte(line) => Some(LexicalCause::BadByte(line)),
        LexFault::BadNumber(line) => Some(LexicalCause::BadNumber(line)),
        LexFault::BadText(line) => Some(LexicalCause::BadText(line)),
        LexFault::OpenComment(line) => Some(LexicalCause::OpenComment(line)),
        LexFault::Memory => None,
    }
}
