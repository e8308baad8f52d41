ghost use Rattle.std.specs.Prelude.{◌≡◌, is_none, is_some, option_map, Ok, IfOk};
ghost use Rattle.al_source.specs.declared.source_tree.CType.TheVariants as ctype;
ghost use Rattle.al_core.specs.declared.typed_tree.TExpr.TheVariants as e;
ghost use Rattle.al_core.specs.declared.typed_tree.TPlace.TheVariants as tplace;
ghost use Rattle.al_rules.specs.declared.faults.TypeKind.TheVariants.{Mismatch};
ghost use Rattle.al_rules.specs.declared.operands.Operand.TheVariants as operand;
ghost use Rattle.al_rules.specs.Checks as check;
ghost use Rattle.al_source.specs.Steps.{and_then};
ghost use Rattle.al_rules.specs.Checks.{some_or};
ghost use Rattle.al_rules.specs.Types as types;
ghost use Rattle.al_rules.specs.Operands as spec;
ghost use Rattle.al_type_operands.specs.Arrays.{base_of};
ghost use Rattle.al_type_names.specs.Meanings.{variable_of};
ghost use Rattle.al_source.specs.Answers.{Gives};
ghost use Rattle.al_type_names.specs.Steps.{kind_of};

use crate::operands::{integer, target};
use al_ast::copy_type;
use al_core::{TExpr, TPlace};
use al_rules::{Operand, TypeKind};
use al_source::CType;
use al_type_names::fault::{Fault, ensure};
use al_type_names::known::{Known, Variable};
use al_type_names::types::{element, struct_name};
use sqlite_items::Boxed;
use std::alloc::{AllocError, Global};

const MISMATCH: Fault = Fault::Kind(TypeKind::Mismatch);

/// A local, or the place of a global.
pub fn of_variable(alloc: Global, v: Variable<'_>) -> Result<Boxed<Operand>, AllocError>
    ensures { IfOk result (λ x. x ≡ spec.of_variable (variable_of v.entry)) }
{
    match v {
        Variable::Local(k, ty) => Boxed::new(alloc, Operand::Variable(k, copy_type(alloc, ty)?)),
        Variable::Global(k, ty) => Boxed::new(
            alloc,
            Operand::Place(copy_type(alloc, ty)?, TPlace::Global(k)),
        ),
    }
}

fn place(alloc: Global, ty: Boxed<CType>, q: TPlace) -> Result<Boxed<Operand>, AllocError>
    ensures { IfOk result (λ x. x ≡ operand.Place ty q) }
{
    Boxed::new(alloc, Operand::Place(ty.into_inner(), q))
}

/// The element of this number, of elements of this type from a place on.
fn element_place(
    alloc: Global,
    known: &Known<'_>,
    of: Boxed<CType>,
    from: Boxed<TPlace>,
    i: Boxed<Operand>,
) -> Result<Boxed<Operand>, Fault>
    ensures { Gives kind_of (spec.element_place known.now of from i) result }
{
    let n = integer(alloc, i)?;
    let words = known.size(of.get())?;
    Ok(place(alloc, of, TPlace::Elem(from, n.into_inner(), words))?)
}

fn is_array(x: &Operand) -> bool
    ensures { result ≡ is_some (spec.array_in x.now) }
{
    match x {
        Operand::Place(ty, _) => element(ty).is_some(),
        Operand::Literal(_) | Operand::Null | Operand::Value(_, _) | Operand::Variable(_, _) => {
            false
        }
    }
}

/// The same two, each in a box of its own.
pub fn boxed_place(
    alloc: Global,
    ty: CType,
    q: TPlace,
) -> Result<(Boxed<CType>, Boxed<TPlace>), AllocError>
    ensures { IfOk result (λ p. p ≡ (ty, q)) }
{
    let q = Boxed::new(alloc, q)?;
    Ok((Boxed::new(alloc, ty)?, q))
}

#[tactic(auto, unfolding(al_rules::specs::Types::element))]
fn elements(ty: CType, q: Boxed<TPlace>) -> Result<(Boxed<CType>, Boxed<TPlace>), Fault>
    ensures { Gives kind_of (some_or (option_map (λ of. (of, q)) (types.element ty)) Mismatch) result }
{
    match ty {
        CType::Array(of, _) => Ok((of, q)),
        CType::Int | CType::Void | CType::Struct(_) | CType::Ptr(_) => Err(MISMATCH),
    }
}

/// The elements' type and the place of an array.
fn array_in(alloc: Global, x: Operand) -> Result<(Boxed<CType>, Boxed<TPlace>), Fault>
    ensures { Gives kind_of (some_or (spec.array_in x) Mismatch) result }
{
    match x {
        Operand::Place(ty, q) => {
            let (ty, q) = boxed_place(alloc, ty, q)?;
            elements(ty.into_inner(), q)
        }
        Operand::Literal(_) | Operand::Null | Operand::Value(_, _) | Operand::Variable(_, _) => {
            Err(MISMATCH)
        }
    }
}

/// What a pointer leads to.
fn behind(alloc: Global, x: Boxed<Operand>) -> Result<(Boxed<CType>, Boxed<TPlace>), Fault>
    ensures { Gives kind_of (and_then (spec.target x) (λ a. Ok (a.0, tplace.At a.1))) result }
{
    let (to, x) = target(alloc, x)?;
    Ok((to, Boxed::new(alloc, TPlace::At(x.into_inner()))?))
}

/// The first element of an array, or of what a pointer leads to.
#[tactic(auto, using(crate::proofs::ArrayCases::bases))]
fn base(alloc: Global, x: Boxed<Operand>) -> Result<(Boxed<CType>, Boxed<TPlace>), Fault>
    ensures { Gives kind_of (base_of x) result }
{
    if is_array(x.get()) {
        array_in(alloc, x.into_inner())
    } else {
        behind(alloc, x)
    }
}

/// An element of an array, or of what a pointer leads to (C99 6.5.2.1p2). `Mismatch` of the array, and then of the
/// index.
#[tactic(auto, using(crate::proofs::ArrayCases::indexed_is))]
pub fn indexed(
    alloc: Global,
    known: &Known<'_>,
    x: Boxed<Operand>,
    i: Boxed<Operand>,
) -> Result<Boxed<Operand>, Fault>
    ensures { Gives kind_of (spec.indexed known.now x i) result }
{
    let (of, from) = base(alloc, x)?;
    element_place(alloc, known, of, from, i)
}

fn field_place(
    alloc: Global,
    known: &Known<'_>,
    ty: &CType,
    of: Boxed<TPlace>,
    field: &[u8],
) -> Result<Boxed<Operand>, Fault>
    ensures { Gives kind_of (spec.field_place known.now ty.now of field.now) result }
{
    let Some(name) = struct_name(ty) else {
        return Err(MISMATCH);
    };
    let Some((ty, offset)) = known.field_of(name, field) else {
        return Err(Fault::Kind(TypeKind::Unknown));
    };
    let ty = Boxed::new(alloc, copy_type(alloc, ty)?)?;
    Ok(place(alloc, ty, TPlace::Plus(of, offset))?)
}

/// A field of a place (C99 6.5.2.3p3). `Mismatch` where it is no struct, and `Unknown` where the struct has no such
/// field.
#[tactic(auto, unfolding(al_rules::specs::Operands::member))]
pub fn member(
    alloc: Global,
    known: &Known<'_>,
    x: Boxed<Operand>,
    field: &[u8],
) -> Result<Boxed<Operand>, Fault>
    ensures { Gives kind_of (spec.member known.now x field.now) result }
{
    match x.into_inner() {
        Operand::Place(ty, q) => {
            let (ty, of) = boxed_place(alloc, ty, q)?;
            field_place(alloc, known, ty.get(), of, field)
        }
        Operand::Literal(_) | Operand::Null | Operand::Value(_, _) | Operand::Variable(_, _) => {
            Err(MISMATCH)
        }
    }
}

/// A field of what a pointer leads to (C99 6.5.2.3p4). `Mismatch` where that is no struct, and `Unknown` where the
/// struct has no such field.
#[tactic(auto, unfolding(al_rules::specs::Operands::member_behind))]
pub fn member_behind(
    alloc: Global,
    known: &Known<'_>,
    x: Boxed<Operand>,
    field: &[u8],
) -> Result<Boxed<Operand>, Fault>
    ensures { Gives kind_of (spec.member_behind known.now x field.now) result }
{
    let (to, of) = behind(alloc, x)?;
    field_place(alloc, known, to.get(), of, field)
}

/// The place that a pointer leads to (C99 6.5.3.2p4). Else `Mismatch`.
#[tactic(auto, unfolding(al_rules::specs::Operands::followed))]
pub fn followed(alloc: Global, x: Boxed<Operand>) -> Result<Boxed<Operand>, Fault>
    ensures { Gives kind_of (spec.followed x) result }
{
    let (to, x) = target(alloc, x)?;
    Ok(place(alloc, to, TPlace::At(x.into_inner()))?)
}

fn address_in(alloc: Global, ty: Boxed<CType>, q: Boxed<TPlace>) -> Result<Boxed<Operand>, Fault>
    ensures { Gives kind_of
        (and_then (check.ensure (is_none (types.element ty)) Mismatch)
        (λ _. Ok (operand.Value (ctype.Ptr ty) (e.Addr q))))
        result }
{
    ensure(element(ty.get()).is_none(), TypeKind::Mismatch)?;
    Ok(Boxed::new(alloc, Operand::Value(CType::Ptr(ty), TExpr::Addr(q)))?)
}

/// The address of a place (C99 6.5.3.2p3). `LocalAddress` of a local, `NotPlace` of a value, and `Mismatch` of an
/// array.
#[tactic(auto, unfolding(al_rules::specs::Operands::address))]
pub fn address(alloc: Global, x: Boxed<Operand>) -> Result<Boxed<Operand>, Fault>
    ensures { Gives kind_of (spec.address x) result }
{
    match x.into_inner() {
        Operand::Place(ty, q) => {
            let (ty, q) = boxed_place(alloc, ty, q)?;
            address_in(alloc, ty, q)
        }
        Operand::Variable(_, _) => Err(Fault::Kind(TypeKind::LocalAddress)),
        Operand::Literal(_) | Operand::Null | Operand::Value(_, _) => {
            Err(Fault::Kind(TypeKind::NotPlace))
        }
    }
}
