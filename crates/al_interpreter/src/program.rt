ghost use Rattle.std.specs.Prelude.{◌≡◌, slice_get, option_map, IfOk};
ghost use Rattle.al_core.specs.Loops as spec;
ghost use Rattle.al_core.specs.LoopsInPlace.{placed_of};

use al_core::{PlacedLoop, Typed, program_loops};
use sqlite_items::{Items, at};
use std::alloc::{AllocError, Global};
use std::marker::Model;

/// A typed program, with its annotated loops.
#[derive(Drop)]
pub struct Program<'a> {
    typed: &'a Typed,
    loops: Items<PlacedLoop<'a>>,
}

impl<'a> Model for Program<'a> {
    ghost use Rattle.std.specs.Prelude.{◌≡◌, map};
    ghost use Rattle.al_core.specs.contracts.typed_tree.Typed as code;
    ghost use Rattle.al_core.specs.declared.typed_tree.Typed as tree;
    ghost use Rattle.al_core.specs.Loops.{program_loops};
    ghost use Rattle.al_core.specs.LoopsInPlace.{placed_of};

    ghost Value = { tree.Typed };

    ghost coded = { code.the_row.coded };

    ghost view = { λ p. p.typed.now };

    ghost invariant = { λ p. map placed_of p.loops ≡ program_loops p.typed.now };
}

impl<'a> Program<'a> {
    /// Collects the annotated loops of a program.
    pub fn new(alloc: Global, typed: &'a Typed) -> Result<Program<'a>, AllocError>
        ensures { IfOk result (λ p. p ≡ typed.now) }
    {
        let loops = program_loops(alloc, typed)?;
        Ok(Program { typed, loops })
    }

    pub fn typed(&self) -> &Typed
        ensures { result.now ≡ self.now }
    {
        self.typed
    }

    /// The annotated loop of a number.
    pub fn loop_at(&self, number: u32) -> Option<PlacedLoop<'_>>
        ensures { option_map placed_of result ≡ slice_get (spec.program_loops self.now) number }
    {
        at(self.loops.as_slice(), number as usize).copied()
    }
}
