ghost use Rattle.std.specs.Prelude.{◌≡◌, IfOk, OnOk};
ghost use Rattle.std.specs.FinMap as map;
ghost use Rattle.std.specs.Option.{option_copied};
ghost use Rattle.al_core.specs.Memory as spec;

use crate::words::set_at;
use al_core::{Obj, Val};
use sqlite_items::Items;
use std::alloc::{AllocError, Global};
use std::collections::BTreeMap;
use std::marker::Model;

/// The objects of a memory with their words, in the order of their names.
#[derive(Drop)]
pub struct Objects {
    words: BTreeMap<Obj, Items<Val>>,
}

impl Model for Objects {
    ghost use Rattle.std.specs.Prelude.{List};
    ghost use Rattle.std.specs.FinMap as map;
    ghost use Rattle.al_core.specs.Orders.{obj_cmp};
    ghost use Rattle.al_core.specs.declared.values.Val.{Val};
    ghost use Rattle.al_plain.specs.Codes.{objects_code};

    ghost Value = { map.FinMap obj_cmp (List Val) };

    ghost coded = { objects_code };

    ghost view = { λ a. map.from_entries a.words.entries };
}

impl Objects {
    pub fn new(alloc: Global) -> Objects
        ensures { result ≡ map.empty }
    {
        Objects {
            words: BTreeMap::new(alloc),
        }
    }

    pub fn get(&self, o: Obj) -> Option<&Items<Val>>
        ensures { option_copied result ≡ map.get self.now o }
    {
        self.words.get(&o)
    }

    pub fn insert(&mut self, o: Obj, words: Items<Val>) -> Result<(), AllocError>
        ensures { OnOk result (self.new ≡ map.insert self.old o words) }
    {
        self.words.insert(o, words)?;
        Ok(())
    }

    /// Takes an object out, with its words.
    pub fn take(&mut self, o: Obj) -> Option<Items<Val>>
        ensures taken { result ≡ map.get self.old o }
        ensures rest { self.new ≡ map.remove self.old o }
    {
        self.words.remove(&o)
    }

    /// Puts a value in place of a word that is there.
    #[tactic(auto, using(crate::proofs::Replaced::with_words_of, crate::proofs::Replaced::with_none))]
    pub fn set_word(&mut self, o: Obj, w: u32, v: Val) -> Result<(), AllocError>
        ensures { OnOk result (self.new ≡ spec.with_words self.old o w v (map.get self.old o)) }
    {
        match self.take(o) {
            Some(mut words) => {
                set_at(&mut words, w, v);
                self.insert(o, words)
            }
            None => Ok(()),
        }
    }

    /// The same objects once more.
    pub fn copy(&self, alloc: Global) -> Result<Objects, AllocError>
        ensures { IfOk result (λ all. all ≡ self.now) }
    {
        let mut all = Objects::new(alloc);
        for (o, words) in &self.words {
            all.insert(*o, Items::from_slice(alloc, words.as_slice())?)?;
        }
        Ok(all)
    }
}
