ghost use Rattle.al_rounds_laws.specs.InOrder.{RoundIsInOrder, LockstepIsInOrder, RoundAscends, RoundsAscend};

/// In order the committed chunks are the first ones, of a round and of all rounds.
pub fn commits_are_first()
    ensures round { RoundIsInOrder }
    ensures all { LockstepIsInOrder }
{}

/// Whatever the order of the choice, the committed chunks of each round ascend.
pub fn rounds_ascend()
    ensures round { RoundAscends }
    ensures all { RoundsAscend }
{}
