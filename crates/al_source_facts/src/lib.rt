//! Facts: sources that are accepted, by computation, and that they meet what the laws of sources ask. A fact stands on
//! a function that does nothing.
#![tactic(auto)]

ghost use Rattle.al_source_facts.specs.Met.{AcceptedInOrderIsMet, AcceptedIsMet, ReportInOrderIsMet, ReportIsMet};
ghost use Rattle.al_source_facts.specs.Met.{GeneratedIsAccepted, OrderedSourceIsAccepted, SourceIsAccepted};

/// A small source with two annotated loops is accepted, with a typed tree and two entries that are told, and so is the
/// same source with both loops in order.
#[tactic(auto, using(crate::proofs::Accepting::source_accepted, crate::proofs::Accepting::ordered_accepted))]
pub fn sources_are_accepted()
    ensures source { SourceIsAccepted }
    ensures ordered { OrderedSourceIsAccepted }
{}

/// The program that `demo` makes is accepted.
#[tactic(auto, using(crate::proofs::GeneratedAccepting::generated_accepted))]
pub fn generated_program_is_accepted()
    ensures { GeneratedIsAccepted }
{}

/// What the laws of sources ask of a source, of its numbers, annotations and choices is met by these two.
#[tactic(auto, using(crate::proofs::SourceLaws::report_is_met, crate::proofs::SourceLaws::report_in_order_is_met, crate::proofs::SourceLaws::accepted_is_met, crate::proofs::SourceLaws::accepted_in_order_is_met))]
pub fn laws_of_sources_are_met()
    ensures report { ReportIsMet }
    ensures report_in_order { ReportInOrderIsMet }
    ensures accepted { AcceptedIsMet }
    ensures accepted_in_order { AcceptedInOrderIsMet }
{}
