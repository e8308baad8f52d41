ghost use Rattle.al_reductions_laws.specs.Serial.{ChunkIsDirectRun, OthersStayReducible, RoundIsSerial};
ghost use Rattle.al_reductions_laws.specs.Serial.{LockstepIsPlain, LockstepIsSerial, RoundKeepsReducible};

/// Where reductions are accepted for a loop and the numbers of its execution have their sizes, a chunk that gathers
/// them in accumulators comes to what its iterations come to on the memory itself, whether the variables are locals or
/// globals: on any memory without the chunk's names, whose values have their sizes, where each reduction variable holds
/// a number and no pointer leads to it. Committing a chunk leaves the memory so for every other chunk.
pub fn chunks_reduce()
    ensures chunk { ChunkIsDirectRun }
    ensures others { OthersStayReducible }
{}

/// Under a policy that looks at reads, whatever the size of a line, such a loop comes to what its chunks come to one
/// after another in commit order: the same memory, bytes and ending, allocations, traps and budgets included.
pub fn rounds_are_serial()
    ensures round { RoundIsSerial }
    ensures after { RoundKeepsReducible }
    ensures all { LockstepIsSerial }
{}

/// Where it commits in order as well, it comes to what the plain loop does.
pub fn rounds_in_order_are_plain()
    ensures { LockstepIsPlain }
{}
