ghost use Rattle.std.specs.Prelude.{◌≡◌, false, [], ◌∷◌, ◌++◌, map, option_map, slice_get, IfOk};
ghost use Rattle.std.specs.List.{find};
ghost use Rattle.std.specs.Str.{bytes_eq};
ghost use Rattle.al_rules.specs.Names.{place_named, any_named};

use crate::names::Names;
use al_source::{Func, GlobalDef, StructDef};
use sqlite_items::Items;
use std::alloc::{AllocError, Global};
use std::marker::Model;

/// What is defined under a name.
pub trait Named {
    ghost use Rattle.al_rules.specs.Names.{Name};

    ghost name_of: { Self → Name };

    fn name(&self) -> &[u8]
        ensures { result.now ≡ name_of self.now };
}

impl Named for StructDef {
    ghost name_of = { λ s. s.name };

    fn name(&self) -> &[u8] {
        self.name.as_slice()
    }
}

impl Named for GlobalDef {
    ghost name_of = { λ g. g.name };

    fn name(&self) -> &[u8] {
        self.name.as_slice()
    }
}

impl Named for Func {
    ghost name_of = { λ f. f.name };

    fn name(&self) -> &[u8] {
        self.name.as_slice()
    }
}

/// Definitions of different names, numbered in source order.
#[derive(Drop)]
pub struct Table<'a, T: Named> {
    names: Names<'a>,
    all: Items<&'a T>,
}

impl<'a, T: Named> Model for Table<'a, T> {
    ghost use Rattle.std.specs.Prelude.{◌≡◌, List, map};

    ghost Value = { List T };

    ghost view = { λ t. map (λ x. x.now) t.all };

    ghost invariant = { λ t. t.names ≡ map T.name_of (map (λ x. x.now) t.all) };
}

#[tactic(auto, using(crate::proofs::NameLookups::any_of_names, crate::proofs::NameLookups::place_of_names, crate::proofs::NameLookups::find_at_place))]
impl<'a, T: Named> Table<'a, T> {
    pub fn new(alloc: Global) -> Table<'a, T>
        ensures { result ≡ [] }
    {
        Table {
            names: Names::new(alloc),
            all: Items::new(alloc),
        }
    }

    /// The definitions in order.
    pub fn all(&self) -> &[&'a T]
        ensures { map (λ x. x.now) result.now ≡ self.now }
    {
        self.all.as_slice()
    }

    /// The names of the definitions.
    pub fn names(&self) -> &Names<'a>
        ensures { result.now ≡ map T.name_of self.now }
    {
        &self.names
    }

    pub fn has(&self, name: &[u8]) -> bool
        ensures { result ≡ any_named T.name_of name.now self.now }
    {
        self.names.has(name)
    }

    pub fn place(&self, name: &[u8]) -> Option<u32>
        ensures { result ≡ place_named T.name_of name.now self.now }
    {
        self.names.place(name)
    }

    pub fn get(&self, at: u32) -> Option<&'a T>
        ensures { option_map (λ x. x.now) result ≡ slice_get self.now at }
    {
        self.all.get(at as usize).copied()
    }

    pub fn named(&self, name: &[u8]) -> Option<&'a T>
        ensures { option_map (λ x. x.now) result ≡ find (λ x. bytes_eq (T.name_of x) name.now) self.now }
    {
        self.get(self.place(name)?)
    }

    /// With one that is defined under a new name.
    pub fn with(self, item: &'a T) -> Result<Table<'a, T>, AllocError>
        requires { any_named T.name_of (T.name_of item.now) self ≡ false }
        ensures { IfOk result (λ t. t ≡ self.entry ++ item.now ∷ []) }
    {
        let Table { mut names, mut all } = self;
        names.add(item.name())?;
        all.push(item)?;
        Ok(Table { names, all })
    }
}
