//! What a round and one of the plain interpreter have in common.

use al_case_loops::holds_the_same;
use al_core::Addr;
use al_heap::Store;
use al_plain::Round;
use al_round::RoundReport;

fn is_judged_alike(report: &RoundReport, plain: &Round) -> bool {
    let verdicts = report.verdicts.as_slice();
    let judged = plain.verdicts.as_slice();
    verdicts.len() == judged.len() && verdicts.iter().zip(judged).all(|(v, j)| *v == j.verdict)
}

/// Whether a round is that of the plain interpreter, and leaves its memory.
pub fn is_same_round<S: Store>(
    report: &RoundReport,
    store: &S,
    plain: &Round,
    places: &[Addr],
) -> bool {
    is_judged_alike(report, plain)
        && report.printed.as_slice() == plain.printed.as_slice()
        && report.ending == plain.ending
        && u128::from(report.longest) == plain.longest
        && holds_the_same(store, &plain.memory, places)
}
