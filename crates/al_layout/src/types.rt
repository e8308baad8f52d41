ghost use Rattle.std.specs.Prelude.{◌≡◌, min};
ghost use Rattle.std.specs.List.{find};
ghost use Rattle.std.specs.Option.{option_copied};
ghost use Rattle.std.specs.Str.{bytes_eq};
ghost use Rattle.al_rules.specs.Layouts as spec;

use al_rules::StructLayout;
use al_source::CType;

fn struct_named<'a>(structs: &'a [StructLayout], name: &[u8]) -> Option<&'a StructLayout>
    ensures { option_copied result ≡ find (λ s. bytes_eq s.name name.now) structs.now }
{
    structs.iter().find(|s| s.name.as_slice() == name)
}

fn struct_words(structs: &[StructLayout], name: &[u8]) -> u32
    ensures { result ≡ spec.words_or_none (find (λ s. bytes_eq s.name name.now) structs.now) }
{
    match struct_named(structs, name) {
        Some(known) => known.words,
        None => 0,
    }
}

/// The words of a type where these structs are known, or 4,294,967,295 where there are more.
#[tactic(auto, using(al_rules::proofs::LayoutNodes::words_nodes))]
pub fn words(structs: &[StructLayout], ty: &CType) -> u32
    ensures { result ≡ min (spec.words_of structs.now ty.now) 4294967295 }
{
    match ty {
        CType::Int | CType::Ptr(_) => 1,
        CType::Void => 0,
        CType::Struct(name) => struct_words(structs, name.as_slice()),
        CType::Array(element, length) => words(structs, element.get()).saturating_mul(*length),
    }
}

/// Whether a value of the type holds a struct of this name by value.
#[tactic(auto, using(al_rules::proofs::LayoutNodes::holds_nodes))]
pub fn holds(name: &[u8], ty: &CType) -> bool
    ensures { result ≡ spec.holds name.now ty.now }
{
    match ty {
        CType::Int | CType::Void | CType::Ptr(_) => false,
        CType::Struct(other) => other.as_slice() == name,
        CType::Array(element, _) => holds(name, element.get()),
    }
}
