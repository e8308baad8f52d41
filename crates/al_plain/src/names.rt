ghost use Rattle.std.specs.Prelude.{◌≡◌, IfOk, OnOk};
ghost use Rattle.std.specs.FinSet as set;
ghost use Rattle.std.specs.List.Sorted.{IsStrictlySortedBy};
ghost use Rattle.al_core.specs.Orders.{obj_cmp};

use al_core::Obj;
use sqlite_items::Items;
use std::alloc::{AllocError, Global};
use std::collections::BTreeSet;
use std::marker::Model;

/// A set of objects, in the order of their names.
#[derive(Drop)]
pub struct Names {
    all: BTreeSet<Obj>,
}

impl Model for Names {
    ghost use Rattle.std.specs.FinSet as set;
    ghost use Rattle.al_core.specs.Orders.{obj_cmp};
    ghost use Rattle.al_plain.specs.Codes.{names_code};

    ghost Value = { set.FinSet obj_cmp };

    ghost coded = { names_code };

    ghost view = { λ a. set.from_list a.all.keys };
}

impl Names {
    pub fn new(alloc: Global) -> Names
        ensures { result ≡ set.empty }
    {
        Names {
            all: BTreeSet::new(alloc),
        }
    }

    pub fn contains(&self, o: Obj) -> bool
        ensures { result ≡ set.contains self.now o }
    {
        self.all.contains(&o)
    }

    pub fn insert(&mut self, o: Obj) -> Result<(), AllocError>
        ensures { OnOk result (self.new ≡ set.insert self.old o) }
    {
        self.all.insert(o)?;
        Ok(())
    }

    /// The objects, in order.
    pub fn items(&self, alloc: Global) -> Result<Items<Obj>, AllocError>
        ensures same { IfOk result (λ all. set.from_list all ≡ self.now) }
        ensures sorted { IfOk result (λ all. IsStrictlySortedBy obj_cmp all) }
    {
        let mut all = Items::new(alloc);
        for o in &self.all {
            all.push(*o)?;
        }
        Ok(all)
    }
}
