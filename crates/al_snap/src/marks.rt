ghost use Rattle.std.specs.Prelude.{◌≡◌, true, false, if◌then◌else◌, OnOk, IfOk};
ghost use Rattle.std.specs.FinSet as set;
ghost use Rattle.al_core.specs.Access as spec;
ghost use Rattle.al_core.specs.Access.{AccessRecord};
ghost use Rattle.al_snap.specs.Marks.{marked, no_marks, with_found_load, with_stored, with_freed};

use al_core::{Addr, Obj};
use al_sets::AddrSet;
use std::alloc::{AllocError, Global};

/// The addresses that a chunk read before it wrote them.
#[derive(Drop)]
pub(crate) struct Marks {
    pub reads: AddrSet,
}

impl Marks {
    pub fn new(alloc: Global) -> Marks
        ensures { (x : AccessRecord) → marked x result ≡ no_marks x }
    {
        Marks {
            reads: AddrSet::new(alloc),
        }
    }

    /// An address is read.
    pub fn read(&mut self, at: Addr) -> Result<(), AllocError>
        ensures { OnOk result ((x : AccessRecord) → marked x self.new ≡ spec.with_read (marked x self.old) at) }
    {
        self.reads.insert(at)?;
        Ok(())
    }

    /// An access to a word reads the object's head.
    fn head(&mut self, at: Addr) -> Result<(), AllocError>
        ensures { OnOk result ((x : AccessRecord) → marked x self.new ≡ spec.with_head (marked x self.old) at) }
    {
        match at {
            Addr::Word(obj, _) => self.read(Addr::Head(obj)),
            Addr::Head(_) | Addr::Local(_) => Ok(()),
        }
    }

    /// A load of an address, which found a value or not, and which was written before or not.
    pub fn load(&mut self, at: Addr, found: bool, touched: bool) -> Result<(), AllocError>
        ensures { OnOk result
            ((x : AccessRecord)
            → (found ≡ true → touched ≡ set.contains x.touched at)
            → marked x self.new ≡ with_found_load (marked x self.old) at found) }
    {
        self.head(at)?;
        if found && !touched {
            self.read(at)?;
        }
        Ok(())
    }

    /// A store at an address, whether or not there is a value. Of a word of an own object nothing is recorded.
    pub fn store(&mut self, own: bool, at: Addr) -> Result<(), AllocError>
        ensures { OnOk result ((x : AccessRecord) → marked x self.new ≡ with_stored (marked x self.old) own at false) }
    {
        if own { Ok(()) } else { self.head(at) }
    }

    /// An object that is freed, whether or not it is there. Of an own one nothing is recorded.
    pub fn free(&mut self, own: bool, obj: Obj) -> Result<(), AllocError>
        ensures { OnOk result ((x : AccessRecord) → marked x self.new ≡ with_freed (marked x self.old) own obj false) }
    {
        if own {
            Ok(())
        } else {
            self.read(Addr::Head(obj))
        }
    }
}
