ghost use Rattle.al_core.specs.Access.{Content};
ghost use Rattle.al_core.specs.Run.{Whole};
ghost use Rattle.al_laws.specs.Ends.{AlikeEndsGoOn};
ghost use Rattle.al_laws.specs.Turns.{LoopsGoOn, TurnsAreEnough};

/// A loop is one turn and then the loop again, whatever the budget, inside iterations and outside: its bound on turns
/// is never reached, since each turn spends a step.
pub fn loop_goes_on()
    ensures inside { LoopsGoOn Content }
    ensures outside { LoopsGoOn Whole }
    ensures enough_inside { TurnsAreEnough Content }
    ensures enough_outside { TurnsAreEnough Whole }
{}

/// Runs of statements that end alike still do so after what comes next. After a trap only the answer, the steps that
/// are left and the world count.
pub fn alike_ends_go_on()
    ensures inside { AlikeEndsGoOn Content }
    ensures outside { AlikeEndsGoOn Whole }
{}
