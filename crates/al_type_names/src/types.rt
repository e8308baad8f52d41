ghost use Rattle.std.specs.Prelude.{◌≡◌, option_map, is_some};
ghost use Rattle.al_rules.specs.Types as spec;
ghost use Rattle.al_rules.specs.Statements as statements;
ghost use Rattle.al_type_names.specs.Forms.{kept_form};
ghost use Rattle.al_type_names.specs.NameLists.{named_in};
ghost use Rattle.al_type_names.specs.Roles.{allowed_for};
ghost use Rattle.al_source.specs.Answers.{Gives};
ghost use Rattle.al_type_names.specs.Steps.{kind_of};

use crate::fault::{Fault, ensure};
use crate::names::Names;
use al_core::Kind;
use al_rules::TypeKind;
use al_source::CType;

/// `void`; an integer or a pointer; a struct; an array; or what no declaration has.
#[derive(Clone, Copy, Debug, PartialEq, Eq)]
enum Form {
    Nothing,
    Scalar,
    Structure,
    Sequence,
    Malformed,
}

/// What a type is for.
#[derive(Clone, Copy, Debug, PartialEq, Eq)]
pub enum Role {
    /// A field or a global.
    Held,
    /// A local or a parameter.
    Local,
    /// What a function gives.
    Given,
    /// What `sizeof` and `calloc` take.
    Measured,
}

impl Role {
    fn allows(self, form: Form) -> bool
        ensures { result ≡ allowed_for self (kept_form form) }
    {
        match self {
            Role::Held => matches!(form, Form::Scalar | Form::Structure | Form::Sequence),
            Role::Local => matches!(form, Form::Scalar),
            Role::Given => matches!(form, Form::Scalar | Form::Nothing),
            Role::Measured => matches!(form, Form::Scalar | Form::Structure),
        }
    }
}

fn pointer_form(to: Form) -> Form
    ensures { kept_form result ≡ spec.pointer_form (kept_form to) }
{
    match to {
        Form::Scalar | Form::Structure => Form::Scalar,
        Form::Nothing | Form::Sequence | Form::Malformed => Form::Malformed,
    }
}

fn array_form(length: u32, of: Form) -> Form
    ensures { kept_form result ≡ spec.array_form length (kept_form of) }
{
    if length == 0 {
        return Form::Malformed;
    }
    match of {
        Form::Scalar | Form::Structure | Form::Sequence => Form::Sequence,
        Form::Nothing | Form::Malformed => Form::Malformed,
    }
}

#[tactic(auto, using(al_rules::proofs::TypeNodes::form_nodes))]
fn form_of(ty: &CType) -> Form
    ensures { kept_form result ≡ spec.form ty.now }
{
    match ty {
        CType::Int => Form::Scalar,
        CType::Void => Form::Nothing,
        CType::Struct(_) => Form::Structure,
        CType::Ptr(to) => pointer_form(form_of(to.get())),
        CType::Array(of, length) => array_form(*length, form_of(of.get())),
    }
}

/// Whether the structs of a type are known: by value by the first names, and behind a pointer by the others.
#[tactic(auto, using(al_rules::proofs::TypeNodes::known_nodes))]
fn are_known(earlier: &Names<'_>, anywhere: &Names<'_>, ty: &CType) -> (bool, bool)
    ensures { result ≡ spec.are_known (named_in earlier.now) (named_in anywhere.now) ty.now }
{
    match ty {
        CType::Int | CType::Void => (true, true),
        CType::Struct(name) => (earlier.has(name.as_slice()), anywhere.has(name.as_slice())),
        CType::Ptr(to) => {
            let known = are_known(earlier, anywhere, to.get());
            (known.1, known.1)
        }
        CType::Array(of, _) => are_known(earlier, anywhere, of.get()),
    }
}

/// A type whose structs are known and whose form may stand where it does.
pub fn check_type(
    earlier: &Names<'_>,
    anywhere: &Names<'_>,
    role: Role,
    ty: &CType,
) -> Result<(), Fault>
    ensures { Gives kind_of
        (spec.type_checked (named_in earlier.now) (named_in anywhere.now) (allowed_for role) ty.now) result }
{
    ensure(are_known(earlier, anywhere, ty).0, TypeKind::Unknown)?;
    ensure(role.allows(form_of(ty)), TypeKind::Shape)
}

#[tactic(auto, using(al_rules::proofs::TypeNodes::same_nodes, crate::proofs::TypeOuts::outs))]
pub fn same_type(a: &CType, b: &CType) -> bool
    ensures { result ≡ spec.same_type a.now b.now }
{
    match a {
        CType::Int => matches!(b, CType::Int),
        CType::Void => matches!(b, CType::Void),
        CType::Struct(name) => match b {
            CType::Struct(other) => name.as_slice() == other.as_slice(),
            _ => false,
        },
        CType::Ptr(to) => match b {
            CType::Ptr(other) => same_type(to.get(), other.get()),
            _ => false,
        },
        CType::Array(of, length) => match b {
            CType::Array(other, count) => same_type(of.get(), other.get()) && length == count,
            _ => false,
        },
    }
}

#[tactic(auto, using(al_rules::proofs::TypeNodes::part_nodes))]
pub fn is_int(ty: &CType) -> bool
    ensures { result ≡ spec.is_int ty.now }
{
    match ty {
        CType::Int => true,
        CType::Void | CType::Struct(_) | CType::Ptr(_) | CType::Array(_, _) => false,
    }
}

#[tactic(auto, using(al_rules::proofs::TypeNodes::part_nodes))]
pub fn is_pointer(ty: &CType) -> bool
    ensures { result ≡ is_some (spec.pointee ty.now) }
{
    match ty {
        CType::Ptr(_) => true,
        CType::Int | CType::Void | CType::Struct(_) | CType::Array(_, _) => false,
    }
}

#[tactic(auto, using(crate::proofs::TypeOuts::outs), unfolding(al_rules::specs::Statements::is_void))]
pub fn is_void(ty: &CType) -> bool
    ensures { result ≡ statements.is_void ty.now }
{
    matches!(ty, CType::Void)
}

/// What an array has.
#[tactic(auto, using(al_rules::proofs::TypeNodes::part_nodes))]
pub fn element(ty: &CType) -> Option<&CType>
    ensures { option_map (λ a. a.now) result ≡ spec.element ty.now }
{
    match ty {
        CType::Array(of, _) => Some(of.get()),
        CType::Int | CType::Void | CType::Struct(_) | CType::Ptr(_) => None,
    }
}

#[tactic(auto, using(al_rules::proofs::TypeNodes::part_nodes))]
pub fn struct_name(ty: &CType) -> Option<&[u8]>
    ensures { option_map (λ n. n.now) result ≡ spec.struct_name ty.now }
{
    match ty {
        CType::Struct(name) => Some(name.as_slice()),
        CType::Int | CType::Void | CType::Ptr(_) | CType::Array(_, _) => None,
    }
}

/// What a word of this type is read as.
#[tactic(auto, using(al_rules::proofs::TypeNodes::part_nodes))]
pub fn kind_of(ty: &CType) -> Option<Kind>
    ensures { result ≡ spec.kind_of ty.now }
{
    match ty {
        CType::Int => Some(Kind::Int),
        CType::Ptr(_) => Some(Kind::Ptr),
        CType::Void | CType::Struct(_) | CType::Array(_, _) => None,
    }
}
