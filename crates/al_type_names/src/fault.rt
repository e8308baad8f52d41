ghost use Rattle.std.specs.Prelude.{◌≡◌, IfOk};
ghost use Rattle.al_rules.specs.Checks as spec;
ghost use Rattle.al_rules.specs.Checks.{Checked};
ghost use Rattle.al_rules.specs.Walks.{at_line};
ghost use Rattle.al_source.specs.Answers.{Gives};
ghost use Rattle.al_rules.specs.Faults.{typed};
ghost use Rattle.al_type_names.specs.Steps.{kind_of};

use al_rules::{TypeFault, TypeKind};
use std::alloc::AllocError;

/// What is wrong with a part of a statement or item, which tells the line.
#[derive(Clone, Copy, Debug, PartialEq, Eq)]
pub enum Fault {
    Kind(TypeKind),
    Memory,
}

impl From<AllocError> for Fault {
    ghost use Rattle.std.specs.Prelude.{◌≡◌};
    ghost use Rattle.al_type_names.specs.declared.fault.Fault.TheVariants.{Memory};

    ghost from_gives = { λ _ e. e ≡ Memory };

    fn from(_: AllocError) -> Fault {
        Fault::Memory
    }
}

pub fn ensure(holds: bool, kind: TypeKind) -> Result<(), Fault>
    ensures { Gives kind_of (spec.ensure holds kind) result }
{
    if holds {
        Ok(())
    } else {
        Err(Fault::Kind(kind))
    }
}

pub fn some_or<T: Drop>(found: Option<T>, kind: TypeKind) -> Result<T, Fault>
    ensures { Gives kind_of (spec.some_or found kind) result }
{
    match found {
        Some(a) => Ok(a),
        None => Err(Fault::Kind(kind)),
    }
}

/// The same with the line of the statement or item.
pub fn at_line<T>(line: u32, r: Result<T, Fault>) -> Result<T, TypeFault>
    ensures { (told : Checked T) → Gives kind_of told r → Gives typed (at_line line told) result }
{
    match r {
        Ok(a) => Ok(a),
        Err(Fault::Kind(kind)) => Err(TypeFault::At(kind, line)),
        Err(Fault::Memory) => Err(TypeFault::Memory),
    }
}

/// A number of something of which there are so many. More than 32 bits count do not fit memory.
pub fn number(count: usize) -> Result<u32, AllocError>
    ensures { IfOk result (λ n. n ≡ count) }
{
    u32::try_from(count).map_err(|_| AllocError)
}
