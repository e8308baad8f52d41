ghost use Rattle.al_reductions_laws.specs.Writes.{AnyOrderIsSame, OutcomesCommute};

/// Under a policy that looks at writes it does not matter in which order the committed outcomes of a round are laid
/// over the memory at its start, reductions included: a reduction variable is joined with the accumulators of all of
/// them.
#[tactic(auto, using(crate::proofs::SumsCommute::outcomes_commute, crate::proofs::SumsCommute::any_order_is_same))]
pub fn any_order_is_same()
    ensures either_order { OutcomesCommute }
    ensures any_order { AnyOrderIsSame }
{}
