ghost use Rattle.al_laws.specs.Commits.{ReductionsAreUnrecorded, AppliedAgrees, UntouchedStays, OthersStayFresh};

/// A reduction variable stands neither in a chunk's reads nor among what it touched.
pub fn reductions_are_unrecorded()
    ensures { ReductionsAreUnrecorded }
{}

/// An outcome laid over a memory leaves every address that it does not write, whose object it neither made nor freed,
/// and that is no reduction variable. For a chunk's outcome it is enough that nothing was touched there.
pub fn commits_leave_the_rest()
    ensures off { AppliedAgrees }
    ensures untouched { UntouchedStays }
{}

/// Once a chunk is committed every other chunk still has its names for itself.
pub fn others_stay_fresh()
    ensures { OthersStayFresh }
{}
