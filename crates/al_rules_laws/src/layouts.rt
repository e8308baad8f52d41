ghost use Rattle.al_rules_laws.specs.LayoutLaws.{LayoutIsSizes};

/// The layout of a program, where it has one, is that of its sizes, which take no notice of faults.
#[tactic(auto, using(crate::proofs::LayoutFacts::layout_is_sizes))]
pub fn layout_is_sizes()
    ensures { LayoutIsSizes }
{}
