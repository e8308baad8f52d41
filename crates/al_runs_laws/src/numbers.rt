ghost use Rattle.al_runs_laws.specs.Numbers.{LockstepKeepsNumbers, NumbersAreReducible, RunsKeepNumbers};
ghost use Rattle.al_runs_laws.specs.Numbers.{PlainKeepsNumbers, SerialKeepsNumbers};

/// Where each integer local holds a number at the start of a loop of a program, it holds one at its end, in whichever
/// way the loop runs, and so does each integer global whose address is taken nowhere; no pointer leads to such a
/// global. On such a memory a chunk may run with reductions that are accepted for the loop.
pub fn loops_keep_numbers()
    ensures serial { SerialKeepsNumbers }
    ensures plain { PlainKeepsNumbers }
    ensures rounds { LockstepKeepsNumbers }
    ensures reducible { NumbersAreReducible }
{}

/// At the end of a run each integer global whose address is taken nowhere holds a number, whatever the policies of its
/// loops.
#[tactic(auto, using(crate::proofs::NumbersKept::runs_keep_numbers))]
pub fn runs_keep_numbers()
    ensures all { RunsKeepNumbers }
{}
