ghost use Rattle.al_rounds_laws.specs.Writes.{RoundIsLaidOver, CommittedTouchApart, OutcomesCommute, AnyOrderIsSame};

/// Each outcome that a round commits is that on the memory at the round's start.
pub fn rounds_start_from_one_memory()
    ensures { RoundIsLaidOver }
{}

/// Under a policy that looks at writes two committed chunks of a round touch no address in common, and without
/// reductions it does not matter which of them is laid over the memory first. So
/// the round's memory is that of its committed outcomes laid over the memory at its start in any order.
pub fn writes_are_apart()
    ensures apart { CommittedTouchApart }
    ensures either_order { OutcomesCommute }
    ensures any_order { AnyOrderIsSame }
{}
