ghost use Rattle.al_rules_laws.specs.ReductionLaws.{ChoicesAreAccepted, EntriesAreTheLoops, OwnReductionsAreAccepted};

/// Where a program has no fault in its annotations, each annotated loop has its entry. The entry is that of the loop
/// where it stands in the typed tree, and the reductions of its annotation, and those of each choice that is tried for
/// it, are accepted for this loop.
#[tactic(auto, using(crate::proofs::AcceptedReductions::as_many_entries, crate::proofs::AcceptedReductions::entry_at))]
pub fn reductions_are_accepted()
    ensures entries { EntriesAreTheLoops }
    ensures own { OwnReductionsAreAccepted }
    ensures choices { ChoicesAreAccepted }
{}
