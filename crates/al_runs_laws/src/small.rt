ghost use Rattle.al_runs_laws.specs.Met.{SmallChoicesAreSerializable, SmallIsProgram, SmallIsSized};

/// What the laws ask is met: by a program with two annotated loops, and by choices for them with two reductions.
#[tactic(auto, using(crate::proofs::SmallFacts::small_is_program, crate::proofs::SmallSized::small_is_sized))]
pub fn premises_are_met()
    ensures program { SmallIsProgram }
    ensures sized { SmallIsSized }
    ensures choices { SmallChoicesAreSerializable }
{}
