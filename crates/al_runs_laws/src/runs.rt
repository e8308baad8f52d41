ghost use Rattle.al_runs_laws.specs.Reports.{ReportsAreSerial, ReportsInOrderArePlain};
ghost use Rattle.al_runs_laws.specs.Runs.{RunsAreSerial, RunsInOrderArePlain};

/// Where each annotated loop of a program runs plain, or in rounds under RAW or FULL with reductions that are accepted
/// for it, output and ending are those of the run in which each execution runs its chunks one after another on one
/// memory, in the commit order that the run's own events tell: allocations, traps, budgets and lines of any size
/// included.
#[tactic(auto, using(crate::proofs::InCommitOrder::runs_are_serial, crate::proofs::Reporting::reports_are_serial))]
pub fn runs_are_serial()
    ensures runs { RunsAreSerial }
    ensures reports { ReportsAreSerial }
{}

/// Where all of them commit in order as well, output and ending are those of the plain run.
#[tactic(auto, using(crate::proofs::InCommitOrder::runs_in_order_are_plain, crate::proofs::Reporting::reports_in_order_are_plain))]
pub fn runs_in_order_are_plain()
    ensures runs { RunsInOrderArePlain }
    ensures reports { ReportsInOrderArePlain }
{}
