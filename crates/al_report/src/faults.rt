//! What is said of the faults of sources and inputs.

ghost use Rattle.std.specs.Prelude.{◌≡◌, ◌≢◌, IfOk};
ghost use Rattle.al_report.specs.Faults as spec;

use crate::lines::{of_file, of_line};
use al_rules::{
    LayoutCause, LayoutFault, LexicalCause, LowerFault, NoteFault, NoteKind, Refusal, TypeFault,
    TypeKind, lexical_cause,
};
use al_source::{Bytes, LexFault, ParseFault};
use al_text::{InputCause, InputFault};
use sqlite_items::Items;
use std::alloc::{AllocError, Global};

fn type_kind_name(kind: TypeKind) -> &'static [u8]
    ensures { result.now ≡ spec.type_kind_name kind }
{
    match kind {
        TypeKind::Twice => b"name defined twice",
        TypeKind::Unknown => b"unknown name",
        TypeKind::Shape => b"type not allowed here",
        TypeKind::Mismatch => b"wrong type",
        TypeKind::NotPlace => b"not a place",
        TypeKind::LocalAddress => b"address of a local",
        TypeKind::Count => b"wrong number of arguments",
        TypeKind::Return => b"wrong return",
        TypeKind::Outside => b"break or continue outside a loop",
        TypeKind::Main => b"no main function",
    }
}

fn note_kind_name(kind: NoteKind) -> &'static [u8]
    ensures { result.now ≡ spec.note_kind_name kind }
{
    match kind {
        NoteKind::Form => b"loop form",
        NoteKind::IndexChanges => b"counter changes",
        NoteKind::BoundChanges => b"bound changes",
        NoteKind::Leaves => b"loop is left",
        NoteKind::ReductionName => b"reduction name",
        NoteKind::ReductionAddress => b"reduction address",
        NoteKind::ReductionUsed => b"reduction used",
    }
}

fn lexical_text(alloc: Global, name: &str, cause: LexicalCause) -> Result<Bytes, AllocError>
    ensures { IfOk result (λ text. text ≡ spec.lexical_text name.now cause) }
{
    match cause {
        LexicalCause::TooLong => of_file(alloc, name, b"source too long"),
        LexicalCause::BadByte(line) => of_line(alloc, name, line, b"bad byte"),
        LexicalCause::BadNumber(line) => of_line(alloc, name, line, b"bad number"),
        LexicalCause::BadText(line) => of_line(alloc, name, line, b"bad text"),
        LexicalCause::OpenComment(line) => of_line(alloc, name, line, b"open comment"),
    }
}

fn sizes_text(alloc: Global, name: &str, cause: LayoutCause) -> Result<Bytes, AllocError>
    ensures { IfOk result (λ text. text ≡ spec.sizes_text name.now cause) }
{
    match cause {
        LayoutCause::SelfHolding(line) => of_line(alloc, name, line, b"struct holds itself"),
        LayoutCause::TooLarge(line) => of_line(alloc, name, line, b"too many words"),
    }
}

/// The line about a source that is refused.
pub fn refusal_text(alloc: Global, name: &str, cause: Refusal) -> Result<Bytes, AllocError>
    ensures { IfOk result (λ text. text ≡ spec.refusal_text name.now cause) }
{
    match cause {
        Refusal::Lexical(cause) => lexical_text(alloc, name, cause),
        Refusal::Grammar => of_file(alloc, name, b"not a program"),
        Refusal::Layout(cause) => sizes_text(alloc, name, cause),
        Refusal::Types(cause) => of_line(alloc, name, cause.line, type_kind_name(cause.kind)),
        Refusal::Notes(cause) => of_line(alloc, name, cause.line, note_kind_name(cause.kind)),
        Refusal::TooManyNodes => of_file(alloc, name, b"too many nodes"),
    }
}

/// The line about an input that is refused.
pub fn input_cause_text(alloc: Global, name: &str, cause: InputCause) -> Result<Bytes, AllocError>
    ensures { IfOk result (λ text. text ≡ spec.input_cause_text name.now cause) }
{
    match cause {
        InputCause::TooLong => of_file(alloc, name, b"input too long"),
        InputCause::NotNumber(line) => of_line(alloc, name, line, b"not a number"),
        InputCause::OutOfRange(line) => of_line(alloc, name, line, b"out of range"),
        InputCause::TooMany => of_file(alloc, name, b"too many numbers"),
    }
}

/// The line about a cause, where there is one.
fn told(alloc: Global, name: &str, cause: Option<Refusal>) -> Result<Bytes, AllocError>
    ensures { IfOk result (λ text. text ≡ spec.told name.now cause) }
{
    match cause {
        Some(cause) => refusal_text(alloc, name, cause),
        None => Ok(Items::new(alloc)),
    }
}

/// The line about a source that has no tokens.
pub fn lex_text(alloc: Global, name: &str, fault: &LexFault) -> Result<Bytes, AllocError>
    requires { fault.now ≢ LexFault.Memory }
    ensures { IfOk result (λ text. text ≡ spec.lex_text name.now fault.now) }
{
    let cause = lexical_cause(*fault);
    told(alloc, name, cause.map(|cause| Refusal::Lexical(cause)))
}

/// The line about tokens that are no program.
pub fn parse_text(alloc: Global, name: &str, fault: &ParseFault) -> Result<Bytes, AllocError>
    requires { fault.now ≢ ParseFault.Memory }
    ensures { IfOk result (λ text. text ≡ spec.parse_text name.now fault.now) }
{
    match fault {
        ParseFault::Syntax => told(alloc, name, Some(Refusal::Grammar)),
        ParseFault::Memory => told(alloc, name, None),
    }
}

/// The line about structs or globals that have no layout.
pub fn layout_text(alloc: Global, name: &str, fault: &LayoutFault) -> Result<Bytes, AllocError>
    requires { fault.now ≢ LayoutFault.Memory }
    ensures { IfOk result (λ text. text ≡ spec.layout_text name.now fault.now) }
{
    let cause = fault.cause();
    told(alloc, name, cause.map(|cause| Refusal::Layout(cause)))
}

/// The line about a program that has no types.
pub fn type_text(alloc: Global, name: &str, fault: &TypeFault) -> Result<Bytes, AllocError>
    requires { fault.now ≢ TypeFault.Memory }
    ensures { IfOk result (λ text. text ≡ spec.type_text name.now fault.now) }
{
    let cause = fault.cause();
    told(alloc, name, cause.map(|cause| Refusal::Types(cause)))
}

/// The line about an annotated loop that is refused.
pub fn note_text(alloc: Global, name: &str, fault: &NoteFault) -> Result<Bytes, AllocError>
    requires { fault.now ≢ NoteFault.Memory }
    ensures { IfOk result (λ text. text ≡ spec.note_text name.now fault.now) }
{
    let cause = fault.cause();
    told(alloc, name, cause.map(|cause| Refusal::Notes(cause)))
}

/// The line about a typed program that is not lowered.
pub fn lower_text(alloc: Global, name: &str, fault: &LowerFault) -> Result<Bytes, AllocError>
    requires { fault.now ≢ LowerFault.Memory }
    ensures { IfOk result (λ text. text ≡ spec.lower_text name.now fault.now) }
{
    match fault {
        LowerFault::TooLarge => told(alloc, name, Some(Refusal::TooManyNodes)),
        LowerFault::Memory => told(alloc, name, None),
    }
}

/// The line about an input that is no list of numbers.
pub fn input_text(alloc: Global, name: &str, fault: &InputFault) -> Result<Bytes, AllocError>
    requires { fault.now ≢ InputFault.Memory }
    ensures { IfOk result (λ text. text ≡ spec.input_text name.now fault.now) }
{
    match fault.cause() {
        Some(cause) => input_cause_text(alloc, name, cause),
        None => Ok(Items::new(alloc)),
    }
}
