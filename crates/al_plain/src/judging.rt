ghost use Rattle.std.specs.Prelude.{◌≡◌, ◌++◌, IfOk, OnOk};
ghost use Rattle.al_core.specs.Verdicts as spec;

use crate::addresses::Addresses;
use crate::outcomes::Outcome;
use al_core::{Choice, CommitOrder, Ending, Verdict};
use sqlite_items::Items;
use std::alloc::{AllocError, Global};
use std::marker::Model;

/// What a verdict depends on beside the outcome itself.
#[derive(Drop)]
pub struct Judging {
    /// The addresses that the committed outcomes wrote.
    written: Addresses,
    /// Whether an outcome failed.
    failed: bool,
    /// Whether a trap was committed.
    trapped: bool,
}

impl Model for Judging {
    ghost use Rattle.al_core.specs.Verdicts.{Judging};
    ghost use Rattle.al_plain.specs.Codes.{judging_code};

    ghost Value = { Judging };

    ghost coded = { judging_code };

    ghost view = { λ j. record { written = j.written; failed = j.failed; trapped = j.trapped } };
}

/// Whether after a failed outcome no later one may commit.
fn is_in_order(order: CommitOrder) -> bool
    ensures { result ≡ spec.is_in_order order }
{
    match order {
        CommitOrder::InOrder => true,
        CommitOrder::OutOfOrder => false,
    }
}

fn commit_or_trap(ending: Ending) -> Verdict
    ensures { result ≡ spec.commit_or_trap ending }
{
    match ending {
        Ending::Done => Verdict::Commit,
        Ending::Trap(_, _) => Verdict::CommitTrap,
    }
}

impl Judging {
    fn nothing(alloc: Global) -> Judging
        ensures { result ≡ spec.nothing_judged }
    {
        Judging {
            written: Addresses::new(alloc),
            failed: false,
            trapped: false,
        }
    }

    /// The verdict on an outcome.
    #[tactic(auto, unfolding(al_core::specs::Verdicts::verdict_of))]
    fn verdict(&self, alloc: Global, choice: &Choice, o: &Outcome) -> Result<Verdict, AllocError>
        ensures { IfOk result (λ v. v ≡ spec.verdict_of choice.now self.now o.now) }
    {
        if (is_in_order(choice.order) && self.failed) || self.trapped {
            return Ok(Verdict::After);
        }
        if o.clashes(alloc, choice.policy, choice.line, &self.written)? {
            return Ok(Verdict::Fail);
        }
        Ok(commit_or_trap(o.ending))
    }

    /// Goes on after an outcome with this verdict.
    fn go_on(&mut self, alloc: Global, verdict: Verdict, o: &Outcome) -> Result<(), AllocError>
        ensures { OnOk result (self.new ≡ spec.after_verdict verdict self.old o.now) }
    {
        match verdict {
            Verdict::Commit => self.written.join(alloc, &o.accesses.touched)?,
            Verdict::CommitTrap => {
                self.written.join(alloc, &o.accesses.touched)?;
                self.trapped = true;
            }
            Verdict::Fail => self.failed = true,
            Verdict::After => {}
        }
        Ok(())
    }

    /// Judges an outcome.
    #[tactic(auto, unfolding(al_core::specs::Verdicts::judged))]
    fn judge(&mut self, alloc: Global, choice: &Choice, o: &Outcome) -> Result<Verdict, AllocError>
        ensures verdict { IfOk result (λ v. v ≡ spec.verdict_of choice.now self.old o.now) }
        ensures after { OnOk result (self.new ≡ spec.judged choice.now self.old o.now) }
    {
        let verdict = self.verdict(alloc, choice, o)?;
        self.go_on(alloc, verdict, o)?;
        Ok(verdict)
    }
}

/// The verdicts of the outcomes of a round, one after another.
#[tactic(auto, unfolding(al_core::specs::Verdicts::verdicts))]
pub fn verdicts(
    alloc: Global,
    choice: &Choice,
    outcomes: &[Outcome],
) -> Result<Items<Verdict>, AllocError>
    ensures { IfOk result (λ vs. vs ≡ spec.verdicts choice.now outcomes.now) }
{
    let mut earlier = Judging::nothing(alloc);
    let mut all = Items::new(alloc);
    for o in outcomes {
        all.push(earlier.judge(alloc, choice, o)?)?;
    }
    Ok(all)
}

pub fn is_committed(verdict: Verdict) -> bool
    ensures { result ≡ spec.is_committed verdict }
{
    match verdict {
        Verdict::Commit | Verdict::CommitTrap => true,
        Verdict::Fail | Verdict::After => false,
    }
}
