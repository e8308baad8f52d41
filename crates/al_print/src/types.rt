//! Types and declared names.

ghost use Rattle.std.specs.Prelude.{◌≡◌, OnOk};
ghost use Rattle.al_print.specs.Tokens as spec;
ghost use Rattle.al_print.specs.Writing.{all_written};

use crate::writer::Writer;
use al_source::{CType, Field, Key, Mark};
use std::alloc::AllocError;

/// What stands before a name of the type: the base and the stars.
#[tactic(auto, using(crate::proofs::Cases::type_fronts))]
pub fn type_front(w: &mut Writer, ty: &CType) -> Result<(), AllocError>
    ensures { OnOk result (w.new ≡ all_written w.old (spec.type_front ty.now)) }
{
    match ty {
        CType::Int => w.key(Key::Int),
        CType::Void => w.key(Key::Void),
        CType::Struct(name) => {
            w.key(Key::Struct)?;
            w.word(name.as_slice())
        }
        CType::Ptr(target) => {
            type_front(w, target.get())?;
            w.mark(Mark::Star)
        }
        CType::Array(element, _) => type_front(w, element.get()),
    }
}

/// What stands after the name: the dimensions.
#[tactic(auto, using(crate::proofs::Cases::all_dimensions))]
fn dimensions(w: &mut Writer, ty: &CType) -> Result<(), AllocError>
    ensures { OnOk result (w.new ≡ all_written w.old (spec.dimensions ty.now)) }
{
    match ty {
        CType::Int | CType::Void | CType::Struct(_) => Ok(()),
        CType::Ptr(target) => dimensions(w, target.get()),
        CType::Array(element, len) => {
            w.mark(Mark::LeftBracket)?;
            w.natural(*len as u64)?;
            w.mark(Mark::RightBracket)?;
            dimensions(w, element.get())
        }
    }
}

/// A name with its type.
pub fn declared(w: &mut Writer, ty: &CType, name: &[u8]) -> Result<(), AllocError>
    ensures { OnOk result (w.new ≡ all_written w.old (spec.declared ty.now name.now)) }
{
    type_front(w, ty)?;
    w.word(name)?;
    dimensions(w, ty)
}

/// A field of a struct.
pub fn field(w: &mut Writer, field: &Field) -> Result<(), AllocError>
    ensures { OnOk result (w.new ≡ all_written w.old (spec.field field.now)) }
{
    declared(w, &field.ty, field.name.as_slice())?;
    w.mark(Mark::Semicolon)
}

pub fn size_of(w: &mut Writer, ty: &CType) -> Result<(), AllocError>
    ensures { OnOk result (w.new ≡ all_written w.old (spec.size_of ty.now)) }
{
    w.key(Key::Sizeof)?;
    w.mark(Mark::LeftParen)?;
    type_front(w, ty)?;
    w.mark(Mark::RightParen)
}
