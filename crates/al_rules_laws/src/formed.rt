ghost use Rattle.al_rules_laws.specs.FormedLaws.{AcceptedIsFormed, LoopsAreInPlace, NumbersAreInRange, ResolvedIsWellFormed};
ghost use Rattle.al_rules_laws.specs.IllFormed.{NoGlobalOutOfRange, NoLocalOutOfRange, NoPointerInInteger, NoValueOfFree, NoValueOfNothing};

/// The typed tree of a program that has neither a layout fault nor a type fault is well formed: each number of a local,
/// global, function and loop is in range, and each value is of the kind that its place wants.
#[tactic(auto, using(crate::proofs::FormedPrograms::resolved_is_well_formed))]
pub fn resolved_is_well_formed()
    ensures { ResolvedIsWellFormed }
{}

/// The typed tree of an accepted source is well formed, and its entries are those of its annotated loops.
#[tactic(auto, using(crate::proofs::AcceptedSources::accepted_is_formed))]
pub fn accepted_is_formed()
    ensures { AcceptedIsFormed }
{}

/// In the typed tree of such a program each local that a function mentions is one of its own, each global and function
/// is one of the program's, and each annotated loop has its note.
pub fn numbers_are_in_range()
    ensures { NumbersAreInRange }
{}

/// In the typed tree of such a program the number of an annotated loop is its place among all of them, and each has a
/// note.
pub fn loops_are_in_place()
    ensures { LoopsAreInPlace }
{}

/// No well-formed tree has a local or a global out of range, uses the value of a function that gives none or of what
/// frees an object, or stores a pointer in an integer local.
#[tactic(auto, using(crate::proofs::IllFormedTrees::ill_formed))]
pub fn ill_formed_is_refused()
    ensures locals { NoLocalOutOfRange }
    ensures globals { NoGlobalOutOfRange }
    ensures values { NoValueOfNothing }
    ensures freed { NoValueOfFree }
    ensures pointers { NoPointerInInteger }
{}
