ghost use Rattle.al_laws.specs.Names.{MadeAreNamed, StatementsKeepNames, NamesFit};

/// Every object that a run makes has a name within the limits: in a chunk one of the chunk's own, in a whole run one
/// whose execution fits 32 bits, and whose iteration and number are below the limits of trips and of allocation.
pub fn names_are_within_limits()
    ensures chunks { MadeAreNamed }
    ensures statements { StatementsKeepNames }
    ensures runs { NamesFit }
{}
