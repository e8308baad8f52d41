ghost use Rattle.al_core.specs.Access.{Content};
ghost use Rattle.al_core.specs.Run.{Whole};
ghost use Rattle.al_code_laws.specs.Laws.{CodeStands};
ghost use Rattle.al_code_laws.specs.Stops.{RunsEndOnce, StopsAreOnce, StopsGoOn, StopsLift};

/// Code that shows what is planned for a typed tree stands for the tree.
pub fn code_stands()
    ensures { CodeStands }
{}

/// A run of code has one end, and one next stop, however many instructions it is given.
pub fn runs_end_once()
    ensures content { RunsEndOnce Content }
    ensures whole { RunsEndOnce Whole }
    ensures content_stops { StopsAreOnce Content }
    ensures whole_stops { StopsAreOnce Whole }
{}

/// Running to a stop, being answered there and going on is the whole run: from any spot, from the start of a function
/// and from that of an iteration.
pub fn stops_go_on()
    ensures content { StopsGoOn Content }
    ensures whole { StopsGoOn Whole }
{}

/// Up to its next stop code does the same in a content as in what surrounds it, whoever answers at annotated loops.
pub fn stops_lift()
    ensures { StopsLift }
{}
