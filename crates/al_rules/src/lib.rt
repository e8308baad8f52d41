//! The static rules of the language: how large its types are, what its names mean, and what an annotated loop may be.
#![tactic(auto)]

mod faults;
mod layout;
mod operands;

pub use faults::{
    LayoutCause, LayoutFault, LexicalCause, LowerFault, NoteCause, NoteFault, NoteKind, Refusal,
    TypeCause, TypeFault, TypeKind, lexical_cause,
};
pub use layout::{Layout, StructLayout};
pub use operands::{Operand, Value};
