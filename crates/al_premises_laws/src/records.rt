ghost use Rattle.al_premises_laws.specs.Met.{ActionsAreMet, EndIsMet, EndsAreMet, FreedIsMet, MadeIsMet, NumbersFit};
ghost use Rattle.al_premises_laws.specs.Met.{OffIsMet, ReadIsMet, SetsMeet};

/// There is a chunk that reads a global and one that makes an object and frees another one, there are sets of addresses
/// that meet, and there is an address of which an outcome says nothing.
#[tactic(auto, using(crate::proofs::Recorded::read_is_met, crate::proofs::Recorded::made_is_met, crate::proofs::Recorded::freed_is_met, crate::proofs::Recorded::off_is_met, crate::proofs::Recorded::sets_meet))]
pub fn records_meet()
    ensures reads { ReadIsMet }
    ensures makes { MadeIsMet }
    ensures frees { FreedIsMet }
    ensures off { OffIsMet }
    ensures sets { SetsMeet }
{}

/// There are an execution that ends without a trap, parts of a loop that add no steps, runs that end alike, and numbers
/// of 64 bits.
pub fn ends_meet()
    ensures complete { EndIsMet }
    ensures actions { ActionsAreMet }
    ensures alike { EndsAreMet }
    ensures numbers { NumbersFit }
{}
