ghost use Rattle.std.specs.Prelude.{◌≡◌, ◌≤◌, length, reverse, option_map, IfOk};
ghost use Rattle.std.specs.List.{find, list_any};
ghost use Rattle.std.specs.Str.{bytes_eq};
ghost use Rattle.al_rules.specs.Scopes as spec;

use al_source::CType;
use sqlite_items::Items;
use std::alloc::{AllocError, Global};
use std::marker::Model;

/// A name that is declared, the number of its local and its type.
#[derive(Clone, Copy)]
pub struct Binding<'a> {
    pub name: &'a [u8],
    pub number: u32,
    pub ty: &'a CType,
}

/// The names in scope, of which a later one hides an earlier one.
#[derive(Drop)]
pub struct Scope<'a> {
    bindings: Vec<Binding<'a>>,
    /// Where the innermost scope begins.
    start: usize,
}

impl<'a> Model for Scope<'a> {
    ghost use Rattle.std.specs.Prelude.{◌≤◌, map, reverse, take, drop, vec_len};
    ghost use Rattle.std.specs.Coded.{codes};
    ghost use Rattle.al_source.specs.contracts.source_tree.CType as ctype;
    ghost use Rattle.al_rules.specs.Scopes.{Scope};
    ghost use Rattle.al_type_names.specs.Bindings.{binding_of};

    ghost Value = { Scope };

    ghost coded = { Prim.hlevel (codes, ctype.the_row.coded) };

    ghost view = { λ s. record {
      inner = map binding_of (reverse (drop s.start s.bindings.items));
      outer = map binding_of (reverse (take s.start s.bindings.items));
    } };

    ghost invariant = { λ s. s.start ≤ vec_len s.bindings };
}

fn last_named<'a>(mut bindings: &[Binding<'a>], name: &[u8]) -> Option<Binding<'a>>
    ensures { result ≡ find (λ b. bytes_eq b.name.now name.now) (reverse bindings.entry.now) }
{
    while let [rest @ .., last] = bindings {
        if last.name == name {
            return Some(*last);
        }
        bindings = rest;
    }
    None
}

fn any_named(bindings: &[Binding<'_>], name: &[u8]) -> bool
    ensures { result ≡ list_any (λ b. bytes_eq b.name.now name.now) bindings.now }
{
    bindings.iter().any(|b| b.name == name)
}

impl<'a> Scope<'a> {
    ghost use Rattle.al_type_names.specs.Bindings.{binding_of, without_inner};

    pub fn new(alloc: Global) -> Scope<'a>
        ensures { result ≡ spec.no_scope }
    {
        Scope {
            bindings: Vec::new(alloc),
            start: 0,
        }
    }

    pub fn named(&self, name: &[u8]) -> Option<Binding<'a>>
        ensures { option_map binding_of result ≡ find (λ b. bytes_eq b.name name.now) (spec.in_scope self.now) }
    {
        last_named(self.bindings.as_slice(), name)
    }

    /// Whether the innermost scope declares the name.
    pub fn declares(&self, name: &[u8]) -> bool
        ensures { result ≡ spec.is_declared name.now self.now }
    {
        any_named(&self.bindings[self.start..], name)
    }

    pub fn declare(&mut self, binding: Binding<'a>) -> Result<(), AllocError>
        ensures { IfOk result (λ _. self.new ≡ spec.with_binding (binding_of binding.entry) self.old) }
    {
        self.bindings.push(binding)?;
        Ok(())
    }

    /// Begins a scope within this one, which `leave` takes back to.
    pub fn enter(&mut self) -> usize
        ensures inside { self.new ≡ spec.nested self.old }
        ensures mark { result ≡ length self.old.outer }
    {
        let mark = self.start;
        self.start = self.bindings.len();
        mark
    }

    /// Ends the innermost scope. The one around it begins behind so many names.
    pub fn leave(&mut self, mark: usize)
        requires { mark ≤ length self.old.outer }
        ensures { self.new ≡ without_inner mark self.old }
    {
        self.bindings.truncate(self.start);
        self.start = mark;
    }
}
