ghost use Rattle.std.specs.Prelude.{◌≡◌, false, [], map, option_map, slice_get, slice_index, IfOk};
ghost use Rattle.std.specs.List.{find};
ghost use Rattle.std.specs.Option.{option_copied};
ghost use Rattle.std.specs.Str.{bytes_eq};
ghost use Rattle.al_source.specs.declared.source_tree.Item.TheVariants as item;
ghost use Rattle.al_rules.specs.Names.{place_named};
ghost use Rattle.al_rules.specs.Scopes as spec;
ghost use Rattle.al_rules.specs.Types.{type_checked};
ghost use Rattle.al_type_names.specs.Definitions.{is_taken_in, with_definition};
ghost use Rattle.al_type_names.specs.NameLists.{named_in};
ghost use Rattle.al_type_names.specs.Roles.{allowed_for};
ghost use Rattle.al_type_names.specs.Meanings.{field_seen, variable_of, callee_of, map_ok};
ghost use Rattle.al_source.specs.Answers.{Gives};
ghost use Rattle.al_type_names.specs.Steps.{kind_of};

use crate::fault::Fault;
use crate::names::Names;
use crate::scope::Scope;
use crate::table::Table;
use crate::types::{Role, check_type};
use al_layout::{Layout, StructLayout, words};
use al_rules::TypeKind;
use al_source::{CType, Field, Func, GlobalDef, RedOp, StructDef};
use std::alloc::{AllocError, Global};
use std::marker::Model;

/// What a program defines.
#[derive(Drop)]
pub struct Known<'a> {
    structs: Table<'a, StructDef>,
    globals: Table<'a, GlobalDef>,
    funcs: Table<'a, Func>,
    layout: &'a Layout,
}

impl<'a> Model for Known<'a> {
    ghost use Rattle.std.specs.Coded.{codes};
    ghost use Rattle.al_source.specs.contracts.source_tree.StructDef as struct_def;
    ghost use Rattle.al_source.specs.contracts.source_tree.GlobalDef as global_def;
    ghost use Rattle.al_source.specs.contracts.source_tree.Func as func;
    ghost use Rattle.al_rules.specs.contracts.layout.Layout as sizes;
    ghost use Rattle.al_rules.specs.Scopes.{Known};

    ghost Value = { Known };

    ghost coded = { Prim.hlevel
        (codes, struct_def.the_row.coded, global_def.the_row.coded, func.the_row.coded, sizes.the_row.coded) };

    ghost view = { λ k. record { structs = k.structs; globals = k.globals; funcs = k.funcs; layout = k.layout.now } };
}

/// A local or a global, by its number, with its type.
#[derive(Clone, Copy)]
pub enum Variable<'a> {
    Local(u32, &'a CType),
    Global(u32, &'a CType),
}

/// What may be called: a function of the program, or one that is built in.
#[derive(Clone, Copy)]
pub enum Callee<'a> {
    Function(u32, &'a Func),
    Input,
    Inputs,
    Choose(RedOp),
}

fn place_of(fields: &[Field], name: &[u8]) -> Option<usize>
    ensures { result ≡ place_named (λ f. f.name) name.now fields.now }
{
    fields.iter().position(|f| f.name.as_slice() == name)
}

fn layout_named<'a>(structs: &'a [StructLayout], name: &[u8]) -> Option<&'a StructLayout>
    ensures { option_copied result ≡ find (λ l. bytes_eq l.name name.now) structs.now }
{
    structs.iter().find(|l| l.name.as_slice() == name)
}

fn offset_at(layout: &StructLayout, at: usize) -> u32
    ensures { result ≡ slice_index layout.now.offsets at }
{
    layout.offsets.get(at).copied().unwrap_or(0)
}

/// The offset of a field of a struct, which is 0 where the layout does not have the struct.
fn offset_in(layout: Option<&StructLayout>, at: usize) -> u32
    ensures { result ≡ spec.offset_at (option_copied layout.entry) at }
{
    match layout {
        Some(layout) => offset_at(layout, at),
        None => 0,
    }
}

/// The built-in function of this name.
pub fn built_in(name: &[u8]) -> Option<Callee<'static>>
    ensures { option_map callee_of result ≡ spec.built_in name.now }
{
    if name == b"input".as_slice() {
        return Some(Callee::Input);
    }
    if name == b"inputs".as_slice() {
        return Some(Callee::Inputs);
    }
    if name == b"min".as_slice() {
        return Some(Callee::Choose(RedOp::Min));
    }
    if name == b"max".as_slice() {
        return Some(Callee::Choose(RedOp::Max));
    }
    None
}

impl<'a> Known<'a> {
    /// No definitions.
    pub fn new(alloc: Global, layout: &'a Layout) -> Known<'a>
        ensures { result ≡ spec.known_of layout.now [] }
    {
        Known {
            structs: Table::new(alloc),
            globals: Table::new(alloc),
            funcs: Table::new(alloc),
            layout,
        }
    }

    pub fn is_struct(&self, name: &[u8]) -> bool
        ensures { result ≡ spec.is_struct self.now.structs name.now }
    {
        self.structs.has(name)
    }

    /// Whether a global or function has the name, or it is built in.
    pub fn is_taken(&self, name: &[u8]) -> bool
        ensures { result ≡ is_taken_in self.now name.now }
    {
        built_in(name).is_some() || self.globals.has(name) || self.funcs.has(name)
    }

    /// A type in a function's body, where every struct is known.
    pub fn check_type(&self, role: Role, ty: &CType) -> Result<(), Fault>
        ensures { Gives kind_of
            (type_checked (spec.is_struct self.now.structs) (spec.is_struct self.now.structs) (allowed_for role) ty.now)
            result }
    {
        self.check_item_type(self.structs.names(), role, ty)
    }

    /// A type of an item, where behind a pointer the struct may stand anywhere.
    pub fn check_item_type(&self, anywhere: &Names<'_>, role: Role, ty: &CType) -> Result<(), Fault>
        ensures { Gives kind_of
            (type_checked (spec.is_struct self.now.structs) (named_in anywhere.now) (allowed_for role) ty.now) result }
    {
        check_type(self.structs.names(), anywhere, role, ty)
    }

    pub fn with_struct(self, s: &'a StructDef) -> Result<Known<'a>, AllocError>
        requires { spec.is_struct self.structs s.now.name ≡ false }
        ensures { IfOk result (λ k. k ≡ with_definition self.entry (item.Struct s.entry.now)) }
    {
        let Known {
            structs,
            globals,
            funcs,
            layout,
        } = self;
        let structs = structs.with(s)?;
        Ok(Known {
            structs,
            globals,
            funcs,
            layout,
        })
    }

    pub fn with_global(self, g: &'a GlobalDef) -> Result<Known<'a>, AllocError>
        requires { is_taken_in self g.now.name ≡ false }
        ensures { IfOk result (λ k. k ≡ with_definition self.entry (item.Global g.entry.now)) }
    {
        let Known {
            structs,
            globals,
            funcs,
            layout,
        } = self;
        let globals = globals.with(g)?;
        Ok(Known {
            structs,
            globals,
            funcs,
            layout,
        })
    }

    pub fn with_func(self, f: &'a Func) -> Result<Known<'a>, AllocError>
        requires { is_taken_in self f.now.name ≡ false }
        ensures { IfOk result (λ k. k ≡ with_definition self.entry (item.Func f.entry.now)) }
    {
        let Known {
            structs,
            globals,
            funcs,
            layout,
        } = self;
        let funcs = funcs.with(f)?;
        Ok(Known {
            structs,
            globals,
            funcs,
            layout,
        })
    }

    pub fn globals(&self) -> &[&'a GlobalDef]
        ensures { map (λ g. g.now) result.now ≡ self.now.globals }
    {
        self.globals.all()
    }

    pub fn funcs(&self) -> &[&'a Func]
        ensures { map (λ f. f.now) result.now ≡ self.now.funcs }
    {
        self.funcs.all()
    }

    pub fn func(&self, at: u32) -> Option<&'a Func>
        ensures { option_copied result ≡ slice_get self.now.funcs at }
    {
        self.funcs.get(at)
    }

    pub fn place_of_func(&self, name: &[u8]) -> Option<u32>
        ensures { result ≡ place_named (λ f. f.name) name.now self.now.funcs }
    {
        self.funcs.place(name)
    }

    /// The words of a type. More than 32 bits count do not fit memory.
    pub fn size(&self, ty: &CType) -> Result<u32, AllocError>
        ensures { IfOk result (λ n. n ≡ spec.size self.now ty.now) }
    {
        let words = words(self.layout.structs.as_slice(), ty);
        if words == u32::MAX {
            return Err(AllocError);
        }
        Ok(words)
    }

    /// The type and the offset of a field of the struct of this name.
    pub fn field_of(&self, name: &[u8], field: &[u8]) -> Option<(&'a CType, u32)>
        ensures { option_map field_seen result ≡ spec.field_of self.now name.now field.now }
    {
        let definition = self.structs.named(name)?;
        let layout = layout_named(self.layout.structs.as_slice(), name);
        let at = place_of(definition.fields.as_slice(), field)?;
        let offset = offset_in(layout, at);
        let field = definition.fields.get(at)?;
        Some((&field.ty, offset))
    }

    fn global_named(&self, name: &[u8]) -> Option<Variable<'a>>
        ensures { option_map variable_of result ≡ spec.global_named name.now self.now.globals }
    {
        let place = self.globals.place(name)?;
        let global = self.globals.get(place)?;
        Some(Variable::Global(place, &global.ty))
    }

    fn function_named(&self, name: &[u8]) -> Option<Callee<'a>>
        ensures { option_map callee_of result ≡ spec.function_named name.now self.now.funcs }
    {
        let place = self.funcs.place(name)?;
        let func = self.funcs.get(place)?;
        Some(Callee::Function(place, func))
    }

    /// A local in scope, or a global.
    pub fn variable_named(&self, scope: &Scope<'a>, name: &[u8]) -> Option<Variable<'a>>
        ensures { option_map variable_of result ≡ spec.variable_named self.now (spec.in_scope scope.now) name.now }
    {
        match scope.named(name) {
            Some(b) => Some(Variable::Local(b.number, b.ty)),
            None => self.global_named(name),
        }
    }

    /// Whether a call of this name, as a statement, frees an object: it is named `free`, and nothing else has the name.
    pub fn frees(&self, scope: &Scope<'a>, name: &[u8]) -> bool
        ensures { result ≡ spec.frees self.now (spec.in_scope scope.now) name.now }
    {
        name == b"free".as_slice()
            && self.variable_named(scope, name).is_none()
            && self.function_named(name).is_none()
    }

    /// A function. A variable may not be called.
    pub fn callee_named(&self, scope: &Scope<'a>, name: &[u8]) -> Result<Callee<'a>, Fault>
        ensures { Gives kind_of
            (spec.callee_named self.now (spec.in_scope scope.now) name.now) (map_ok callee_of result) }
    {
        if self.variable_named(scope, name).is_some() {
            return Err(Fault::Kind(TypeKind::Mismatch));
        }
        if let Some(f) = self.function_named(name) {
            return Ok(f);
        }
        match built_in(name) {
            Some(f) => Ok(f),
            None => Err(Fault::Kind(TypeKind::Unknown)),
        }
    }
}
