ghost use Rattle.al_laws.specs.Iterations.{IterationsSplit, IterationsOnlyAppend, ChunksOnlyAppend, RunsOnlyAppend};

/// So many iterations and so many more are the first ones and then, where they did not trap, the others.
pub fn iterations_split()
    ensures { IterationsSplit }
{}

/// Printed bytes are only appended to, by iterations, by chunks, and by what code outside iterations does.
pub fn bytes_are_appended()
    ensures iterations { IterationsOnlyAppend }
    ensures chunks { ChunksOnlyAppend }
    ensures runs { RunsOnlyAppend }
{}
