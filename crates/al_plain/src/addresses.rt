ghost use Rattle.std.specs.Prelude.{◌≡◌, ◌/◌, IfOk, OnOk};
ghost use Rattle.std.specs.FinSet as set;
ghost use Rattle.std.specs.List.Sorted.{IsStrictlySortedBy};
ghost use Rattle.al_core.specs.Orders.{addr_cmp};
ghost use Rattle.al_core.specs.Lines as lines;
ghost use Rattle.al_core.specs.Clash.{meets_lines};
ghost use Rattle.al_plain.specs.Meeting.{on_line, any_on_line, any_meets};

use al_core::Addr;
use sqlite_items::Items;
use std::alloc::{AllocError, Global};
use std::collections::BTreeSet;
use std::marker::Model;

/// A set of addresses, in their order.
#[derive(Drop)]
pub struct Addresses {
    all: BTreeSet<Addr>,
}

impl Model for Addresses {
    ghost use Rattle.std.specs.FinSet as set;
    ghost use Rattle.al_core.specs.Orders.{addr_cmp};
    ghost use Rattle.al_plain.specs.Codes.{addresses_code};

    ghost Value = { set.FinSet addr_cmp };

    ghost coded = { addresses_code };

    ghost view = { λ a. set.from_list a.all.keys };
}

/// The number of a word's line in its object.
#[tactic(auto, using(crate::proofs::AddressSets::no_quotient))]
fn line_number(word: u32, line: u32) -> u32
    ensures { result ≡ word / line }
{
    if line == 0 { 0 } else { word / line }
}

/// The line of an address, for lines of so many words. A head and a local are lines of their own.
fn line_of(line: u32, a: Addr) -> Addr
    ensures { result ≡ lines.line_of line a }
{
    match a {
        Addr::Word(o, w) => Addr::Word(o, line_number(w, line)),
        Addr::Head(_) | Addr::Local(_) => a,
    }
}

fn is_same_line(line: u32, a: Addr, b: Addr) -> bool
    ensures { result ≡ on_line line a b }
{
    line_of(line, a) == line_of(line, b)
}

/// Whether one of the addresses has the line of an address.
fn any_on_line(line: u32, a: Addr, all: &[Addr]) -> bool
    ensures { result ≡ any_on_line line all.now a }
{
    for b in all {
        if is_same_line(line, a, *b) {
            return true;
        }
    }
    false
}

/// Whether an address here and an address there have the same line.
fn any_meets(line: u32, here: &[Addr], there: &[Addr]) -> bool
    ensures { result ≡ any_meets line here.now there.now }
{
    for a in here {
        if any_on_line(line, *a, there) {
            return true;
        }
    }
    false
}

impl Addresses {
    pub fn new(alloc: Global) -> Addresses
        ensures { result ≡ set.empty }
    {
        Addresses {
            all: BTreeSet::new(alloc),
        }
    }

    pub fn contains(&self, a: Addr) -> bool
        ensures { result ≡ set.contains self.now a }
    {
        self.all.contains(&a)
    }

    pub fn insert(&mut self, a: Addr) -> Result<(), AllocError>
        ensures { OnOk result (self.new ≡ set.insert self.old a) }
    {
        self.all.insert(a)?;
        Ok(())
    }

    /// The addresses, in order.
    pub fn items(&self, alloc: Global) -> Result<Items<Addr>, AllocError>
        ensures same { IfOk result (λ all. set.from_list all ≡ self.now) }
        ensures sorted { IfOk result (λ all. IsStrictlySortedBy addr_cmp all) }
    {
        let mut all = Items::new(alloc);
        for a in &self.all {
            all.push(*a)?;
        }
        Ok(all)
    }

    /// Whether an address of this set and one of another have the same line.
    pub fn meets_lines(
        &self,
        alloc: Global,
        line: u32,
        other: &Addresses,
    ) -> Result<bool, AllocError>
        ensures { IfOk result (λ r. r ≡ meets_lines line self.now other.now) }
    {
        let here = self.items(alloc)?;
        let there = other.items(alloc)?;
        Ok(any_meets(line, here.as_slice(), there.as_slice()))
    }

    /// Adds all of another set.
    pub fn join(&mut self, alloc: Global, more: &Addresses) -> Result<(), AllocError>
        ensures { OnOk result (self.new ≡ set.union self.old more.now) }
    {
        for a in more.items(alloc)?.as_slice() {
            self.insert(*a)?;
        }
        Ok(())
    }
}
