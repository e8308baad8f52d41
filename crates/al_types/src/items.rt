ghost use Rattle.std.specs.Prelude.{◌≡◌, ◌||◌, not, List, [], ◌∷◌, ◌++◌, Ok, IfOk, OnOk};
ghost use Rattle.al_source.specs.declared.source_tree.Item as tree;
ghost use Rattle.al_rules.specs.declared.faults.TypeKind.TheVariants.{Twice};
ghost use Rattle.al_source.specs.Steps.{and_then};
ghost use Rattle.al_rules.specs.Checks.{ensure};
ghost use Rattle.al_rules.specs.Names.{Name, any_named};
ghost use Rattle.al_rules.specs.Programs as spec;
ghost use Rattle.al_rules.specs.Scopes.{is_struct, structs_in, known_of};
ghost use Rattle.al_type_names.specs.Definitions as by;
ghost use Rattle.al_type_names.specs.NameLists.{named_in};
ghost use Rattle.al_type_names.specs.Roles.{allowed_for};
ghost use Rattle.al_source.specs.Answers.{Gives};
ghost use Rattle.al_rules.specs.Faults.{typed};
ghost use Rattle.al_type_names.specs.Steps.{kind_of};

use al_layout::Layout;
use al_rules::{TypeFault, TypeKind};
use al_source::{CType, Field, Func, GlobalDef, Item, Program, Start, StructDef};
use al_type_names::fault::{Fault, at_line, ensure};
use al_type_names::known::Known;
use al_type_names::names::Names;
use al_type_names::types::{Role, is_int, is_pointer};
use al_type_operands::operands::is_zero;
use std::alloc::{AllocError, Global};

/// A name that is not there yet.
fn add_new<'f>(names: &mut Names<'f>, name: &'f [u8]) -> Result<(), Fault>
    ensures checked { Gives kind_of (ensure (not (any_named (λ n. n) name.entry.now names.old)) Twice) result }
    ensures named { OnOk result (names.new ≡ names.old ++ name.entry.now ∷ []) }
{
    let is_new = names.add(name)?;
    ensure(is_new, TypeKind::Twice)
}

/// Its name is new among those before it, and then its type is looked at.
fn check_field<'f>(
    known: &Known<'_>,
    anywhere: &Names<'_>,
    role: Role,
    names: &mut Names<'f>,
    field: &'f Field,
) -> Result<(), Fault>
    ensures checked { Gives kind_of
        (by.field_by (is_struct known.now.structs) (named_in anywhere.now) (allowed_for role)
        names.old field.entry.now)
        result }
    ensures named { OnOk result (names.new ≡ names.old ++ field.entry.now.name ∷ []) }
{
    add_new(names, field.name.as_slice())?;
    known.check_item_type(anywhere, role, &field.ty)
}

fn check_fields(
    alloc: Global,
    known: &Known<'_>,
    anywhere: &Names<'_>,
    role: Role,
    mut fields: &[Field],
) -> Result<(), Fault>
    ensures { Gives kind_of
        (by.fields_by (is_struct known.now.structs) (named_in anywhere.now) (allowed_for role)
        [] fields.entry.now)
        result }
{
    let mut names = Names::new(alloc);
    while let [field, rest @ ..] = fields {
        check_field(known, anywhere, role, &mut names, field)?;
        fields = rest;
    }
    Ok(())
}

fn check_struct(
    alloc: Global,
    known: &Known<'_>,
    anywhere: &Names<'_>,
    s: &StructDef,
) -> Result<(), Fault>
    ensures { Gives kind_of (by.struct_by known.now (named_in anywhere.now) s.now) result }
{
    ensure(!known.is_struct(s.name.as_slice()), TypeKind::Twice)?;
    ensure(!s.fields.is_empty(), TypeKind::Shape)?;
    check_fields(alloc, known, anywhere, Role::Held, s.fields.as_slice())
}

/// A number starts an integer, and null a pointer. The number 0 is null too.
fn may_start(start: Start, ty: &CType) -> bool
    ensures { result ≡ spec.may_start start ty.now }
{
    match start {
        Start::Zero => true,
        Start::Number(n) => is_int(ty) || (is_pointer(ty) && is_zero(n)),
        Start::Null => is_pointer(ty),
    }
}

fn check_global(known: &Known<'_>, anywhere: &Names<'_>, g: &GlobalDef) -> Result<(), Fault>
    ensures { Gives kind_of (by.global_by known.now (named_in anywhere.now) g.now) result }
{
    ensure(!known.is_taken(g.name.as_slice()), TypeKind::Twice)?;
    known.check_item_type(anywhere, Role::Held, &g.ty)?;
    ensure(may_start(g.start, &g.ty), TypeKind::Mismatch)
}

fn check_func(alloc: Global, known: &Known<'_>, anywhere: &Names<'_>, f: &Func) -> Result<(), Fault>
    ensures { Gives kind_of (by.func_by known.now (named_in anywhere.now) f.now) result }
{
    ensure(!known.is_taken(f.name.as_slice()), TypeKind::Twice)?;
    known.check_item_type(anywhere, Role::Given, &f.result)?;
    check_fields(alloc, known, anywhere, Role::Local, f.params.as_slice())
}

fn with_item<'a>(
    alloc: Global,
    known: Known<'a>,
    anywhere: &Names<'_>,
    item: &'a Item,
) -> Result<Known<'a>, TypeFault>
    ensures { Gives typed
        (and_then (by.item_by known.entry (named_in anywhere.now) item.entry.now)
        (λ _. Ok (by.with_definition known.entry item.entry.now)))
        result }
{
    match item {
        Item::Struct(s) => {
            at_line(s.line, check_struct(alloc, &known, anywhere, s))?;
            Ok(known.with_struct(s)?)
        }
        Item::Global(g) => {
            at_line(g.line, check_global(&known, anywhere, g))?;
            Ok(known.with_global(g)?)
        }
        Item::Func(f) => {
            at_line(f.line, check_func(alloc, &known, anywhere, f))?;
            Ok(known.with_func(f)?)
        }
    }
}

/// With the name of the struct that an item defines.
fn add_name<'a>(names: &mut Names<'a>, item: &'a Item) -> Result<(), AllocError>
    ensures { OnOk result ((q : Name) (rest : List tree.Item)
        → (named_in names.new q || is_struct (structs_in rest) q)
        ≡ (named_in names.old q || is_struct (structs_in (item.entry.now ∷ rest)) q)) }
{
    match item {
        Item::Struct(s) => {
            names.add(s.name.as_slice())?;
            Ok(())
        }
        Item::Global(_) | Item::Func(_) => Ok(()),
    }
}

/// The names of all structs.
fn struct_names<'a>(alloc: Global, mut items: &'a [Item]) -> Result<Names<'a>, AllocError>
    ensures { IfOk result (λ names. (q : Name) → named_in names q ≡ is_struct (structs_in items.entry.now) q) }
{
    let mut names = Names::new(alloc);
    while let [item, rest @ ..] = items {
        add_name(&mut names, item)?;
        items = rest;
    }
    Ok(names)
}

/// The items in order behind those that are known.
fn with_items<'a>(
    alloc: Global,
    mut known: Known<'a>,
    anywhere: &Names<'_>,
    mut items: &'a [Item],
) -> Result<Known<'a>, TypeFault>
    ensures { Gives typed (by.items_by known.entry (named_in anywhere.now) items.entry.now) result }
{
    while let [item, rest @ ..] = items {
        known = with_item(alloc, known, anywhere, item)?;
        items = rest;
    }
    Ok(known)
}

/// What a program defines, where its items have no fault.
pub fn definitions<'a>(
    alloc: Global,
    program: &'a Program,
    layout: &'a Layout,
) -> Result<Known<'a>, TypeFault>
    ensures { Gives typed
        (and_then (spec.items_checked program.entry.now.items [] program.entry.now.items)
        (λ _. Ok (known_of layout.entry.now program.entry.now.items)))
        result }
{
    let items = program.items.as_slice();
    let anywhere = struct_names(alloc, items)?;
    with_items(alloc, Known::new(alloc, layout), &anywhere, items)
}
