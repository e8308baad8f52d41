ghost use Rattle.al_exec.specs.Answered.{AnsweredAtLoops};

/// Running to a stop at an annotated loop, being answered there, and going on is the whole run with that answerer.
pub fn answered_at_a_loop()
    ensures { AnsweredAtLoops }
{}
