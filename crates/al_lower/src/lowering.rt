ghost use Rattle.std.specs.Prelude.{◌≡◌, ◌<◌, ◌↔◌, Ok, Err, IfOk};
ghost use Rattle.al_source.specs.declared.limits.TheConstants.{SOURCE_NODES};
ghost use Rattle.al_rules.specs.declared.faults.LowerFault.TheVariants.{TooLarge};
ghost use Rattle.al_rules.specs.Notes.{notes_of};
ghost use Rattle.al_rules.specs.WellFormed.{IsWellFormed};
ghost use Rattle.al_code.specs.Stands.{StandsFor};
ghost use Rattle.al_code.specs.Valid.{IsValid};

use crate::program::write;
use al_code::Code;
use al_core::{LoopInfo, Typed};
use al_rules::LowerFault;
use al_source::limits::SOURCE_NODES;
use std::alloc::Global;

/// The code of a well-formed tree, with the entries of its annotated loops. It is valid and stands for the
/// tree. `TooLarge` comes exactly where the tree's number of nodes passes `SOURCE_NODES`.
pub fn lower(alloc: Global, typed: &Typed, infos: &[LoopInfo]) -> Result<Code, LowerFault>
    requires formed { IsWellFormed typed.now }
    requires entries { notes_of typed.now ≡ Ok infos.now }
    ensures large { (result ≡ Err TooLarge) ↔ (SOURCE_NODES < typed.now.nodes) }
    ensures stands { IfOk result (λ code. StandsFor code typed.now) }
    ensures valid { IfOk result (λ code. IsValid code) }
{
    if typed.nodes > SOURCE_NODES {
        return Err(LowerFault::TooLarge);
    }
    let code = write(alloc, typed, infos)?;
    Ok(code)
}
