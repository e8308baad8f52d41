ghost use Rattle.std.specs.Prelude.{◌≡◌, [], not, IfOk};
ghost use Rattle.al_rules.specs.Names.{place_named, any_named};
ghost use Rattle.al_type_names.specs.NameLists.{with_name};

use indexmap::IndexSet;
use std::alloc::{AllocError, Global};
use std::marker::Model;

/// Names that differ, numbered in the order in which they came.
#[derive(Drop)]
pub struct Names<'a> {
    names: IndexSet<&'a [u8]>,
}

impl<'a> Model for Names<'a> {
    ghost use Rattle.std.specs.Prelude.{List, ℕ, ◌<◌, ◌^◌, length, map};

    ghost Value = { List (List ℕ) };

    ghost view = { λ n. map (λ k. k.now) n.names.keys };

    ghost invariant = { λ n. length n.names.keys < 2 ^ 32 };
}

#[tactic(auto, using(crate::proofs::NameLookups::any_key, crate::proofs::NameLookups::place_key, crate::proofs::NameLookups::with_key))]
impl<'a> Names<'a> {
    pub fn new(alloc: Global) -> Names<'a>
        ensures { result ≡ [] }
    {
        Names {
            names: IndexSet::new(alloc),
        }
    }

    /// Whether the name is a new one. One that is there keeps its number. Numbers have 32 bits: more names count as
    /// want of memory.
    pub fn add(&mut self, name: &'a [u8]) -> Result<bool, AllocError>
        ensures { IfOk result (λ new.
            (new ≡ not (any_named (λ n. n) name.now self.old)) × (self.new ≡ with_name name.now self.old)) }
    {
        if self.names.len() == u32::MAX as usize {
            return Err(AllocError);
        }
        Ok(self.names.insert(name)?)
    }

    pub fn has(&self, name: &[u8]) -> bool
        ensures { result ≡ any_named (λ n. n) name.now self.now }
    {
        self.names.contains(name)
    }

    pub fn place(&self, name: &[u8]) -> Option<u32>
        ensures { result ≡ place_named (λ n. n) name.now self.now }
    {
        Some(self.names.get_index_of(name)? as u32)
    }
}
