ghost use Rattle.al_runs_laws.specs.Accepted.{AcceptedAreSerial, AcceptedInOrderArePlain};
ghost use Rattle.al_runs_laws.specs.Sources.{SourcesAreSerial, SourcesInOrderArePlain};

/// Of the tree of a source without a fault the output and the ending that are reported are those of the serial run by
/// the reported events, where each choice of a loop is RAW or FULL and its reductions are those of the loop's
/// annotation or of a choice that is tried for the loop.
#[tactic(auto, using(crate::proofs::Sourced::sources_are_serial))]
pub fn sources_are_serial()
    ensures { SourcesAreSerial }
{}

/// In order they are those that are reported where every loop runs plain.
#[tactic(auto, using(crate::proofs::Sourced::sources_in_order_are_plain))]
pub fn sources_in_order_are_plain()
    ensures { SourcesInOrderArePlain }
{}

/// Of an accepted source, with each annotated loop by its own annotation, the output and the ending that are reported
/// are those of the serial run by the reported events where each annotation is RAW or FULL. Where each commits in order
/// as well, they are those that are reported where every loop runs plain.
#[tactic(auto, using(crate::proofs::AcceptedRuns::accepted_are_serial, crate::proofs::AcceptedRuns::accepted_in_order_are_plain))]
pub fn accepted_sources_are_serial()
    ensures serial { AcceptedAreSerial }
    ensures in_order { AcceptedInOrderArePlain }
{}
