ghost use Rattle.al_graded_laws.specs.Commits.{OutcomesGiveValues, CommitsKeepValues, RoundsKeepValues, ModesKeepValues};
ghost use Rattle.al_graded_laws.specs.InRange.{IterationsKeepValues, ChunksKeepValues, SerialKeepsValues, PlainKeepsValues};

/// Where the numbers of a program, its input and an execution have the sizes of their types, so has every value that
/// the execution's iterations meet: it is an `Int` of 64 bits, or a `Ptr` whose numbers have their sizes. In a chunk
/// this is said of the accumulators too.
pub fn iterations_keep_values()
    ensures iterations { IterationsKeepValues }
    ensures chunks { ChunksKeepValues }
    ensures serial { SerialKeepsValues }
    ensures plain { PlainKeepsValues }
{}

/// So has what a chunk's outcome gives, and a memory keeps its values when outcomes are laid over it: through a round,
/// and through an execution in whichever way it runs.
pub fn commits_keep_values()
    ensures outcomes { OutcomesGiveValues }
    ensures commits { CommitsKeepValues }
    ensures rounds { RoundsKeepValues }
    ensures modes { ModesKeepValues }
{}
