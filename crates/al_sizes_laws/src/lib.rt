//! A law on the numbers of accepted programs: they have the sizes of their types.
#![tactic(auto)]

ghost use Rattle.al_sizes_laws.specs.Sized.{AcceptedAreSized};

/// The numbers in the tree of an accepted source have 64 bits, and so have the starts of its globals.
#[tactic(auto, using(crate::proofs::AcceptedSizes::accepted_are_sized))]
pub fn accepted_are_sized()
    ensures { AcceptedAreSized }
{}
