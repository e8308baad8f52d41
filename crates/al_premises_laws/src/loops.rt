ghost use Rattle.al_premises_laws.specs.Met.{ChunksAscend, FirstChunksAreFresh, FirstInAnyOrderIsMet, FirstInOrderIsMet};
ghost use Rattle.al_premises_laws.specs.Met.{FirstIsAtStart, FirstIsUnnamed, FirstLockstepIsMet, FirstRoundIsMet};
ghost use Rattle.al_premises_laws.specs.Met.{LoopsStand, ReadsAgree, SecondChunksAreReducible, SecondInAnyOrderIsMet};
ghost use Rattle.al_premises_laws.specs.Met.{FirstOutcomesAreMet, RecordIsMet, SecondOutcomesAreMet, UntouchedIsMet};
ghost use Rattle.al_premises_laws.specs.Met.{SecondInOrderIsMet, SecondIsReady, SecondRoundIsMet, VariablesAreReduced};

/// There is a loop without reductions that meets what the laws of chunks and rounds ask: the first one of the small
/// program, whose chunks depend on each other.
pub fn first_loop_meets()
    ensures stands { LoopsStand }
    ensures starts { FirstIsAtStart }
    ensures names { FirstIsUnnamed }
    ensures chunks { FirstChunksAreFresh }
    ensures round { FirstRoundIsMet }
    ensures all { FirstLockstepIsMet }
    ensures in_order { FirstInOrderIsMet }
    ensures ascend { ChunksAscend }
    ensures any_order { FirstInAnyOrderIsMet }
{}

/// There is a loop with reductions that meets what the laws of chunks and rounds with reductions ask: the second one,
/// which sums into a local and keeps the greatest number in a global.
pub fn second_loop_meets()
    ensures variables { VariablesAreReduced }
    ensures reads { ReadsAgree }
    ensures chunks { SecondChunksAreReducible }
    ensures ready { SecondIsReady }
    ensures round { SecondRoundIsMet }
    ensures in_order { SecondInOrderIsMet }
    ensures any_order { SecondInAnyOrderIsMet }
{}

/// There are two chunks of each loop that touch no address in common, one that leaves a global untouched, and one that
/// begins with a record and no reductions.
pub fn outcomes_meet()
    ensures plain { FirstOutcomesAreMet }
    ensures reducing { SecondOutcomesAreMet }
    ensures untouched { UntouchedIsMet }
    ensures recorded { RecordIsMet }
{}
