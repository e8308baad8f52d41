ghost use Rattle.al_infer.specs.Laws.{AcceptedIsFaithful, BestIsLeast, NoneIsAccepted, RefusedAtFirst};

/// What a table says: an accepted candidate printed and ended at each test as the plain run, a refused one is refused
/// at its test and at no earlier one, and the best is the accepted one of least span, of equal ones the earliest.
pub fn tables_say()
    ensures accepted { AcceptedIsFaithful }
    ensures refused { RefusedAtFirst }
    ensures best { BestIsLeast }
    ensures none { NoneIsAccepted }
{}
