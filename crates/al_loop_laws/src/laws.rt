ghost use Rattle.al_loop_laws.specs.Locals.{LoopsHaveTheirLocals};

/// In a well-formed tree each annotated loop has as many locals as the function that it names.
pub fn loops_have_their_locals()
    ensures { LoopsHaveTheirLocals }
{}
