ghost use Rattle.std.specs.Prelude.{◌≡◌, ◌≤◌, ◌+◌, ◌&&◌, ◌||◌, IsOk, OnOk};
ghost use Rattle.al_core.specs.declared.choices.Choice.{Choice};
ghost use Rattle.al_core.specs.Chunk.{Outcome};
ghost use Rattle.al_core.specs.Lines.{IsLineSize};
ghost use Rattle.al_core.specs.Verdicts as spec;
ghost use Rattle.al_snap.specs.Changes.{IsOutcome, told};
ghost use Rattle.al_validate.specs.Judges.{rule_of, verdict_by};

use crate::clashes::clash_by;
use al_core::{CommitOrder, Ending, Policy, Verdict};
use al_sets::AddrSet;
use al_snap::Change;
use std::alloc::{AllocError, Global};
use std::marker::Model;

/// Judges the chunks of a round, one after another.
#[derive(Drop)]
pub struct Judge {
    policy: Policy,
    order: CommitOrder,
    line: u32,
    /// The addresses that the committed chunks touched.
    written: AddrSet,
    /// Whether a chunk failed.
    failed: bool,
    /// Whether a trap was committed.
    trapped: bool,
}

impl Model for Judge {
    ghost use Rattle.al_core.specs.Lines.{IsLineSize};
    ghost use Rattle.al_validate.specs.Judges.{Standing, standing_code};

    ghost Value = { Standing };

    ghost coded = { standing_code };

    ghost view = { λ j. record {
      rule = record { policy = j.policy; order = j.order; line = j.line };
      judging = record { written = j.written.members; failed = j.failed; trapped = j.trapped };
      room = j.written.room;
    } };

    ghost invariant = { λ j. IsLineSize j.line };
}

/// Whether after a failed chunk no later one may commit.
fn is_in_order(order: CommitOrder) -> bool
    ensures { result ≡ spec.is_in_order order }
{
    match order {
        CommitOrder::InOrder => true,
        CommitOrder::OutOfOrder => false,
    }
}

/// Whether a chunk comes after what stops the round.
fn comes_after(order: CommitOrder, failed: bool, trapped: bool) -> bool
    ensures { result ≡ ((spec.is_in_order order && failed) || trapped) }
{
    (is_in_order(order) && failed) || trapped
}

fn commit_or_trap(ending: Ending) -> Verdict
    ensures { result ≡ spec.commit_or_trap ending }
{
    match ending {
        Ending::Done => Verdict::Commit,
        Ending::Trap(_, _) => Verdict::CommitTrap,
    }
}

impl Judge {
    /// Nothing was judged yet. It takes no memory.
    pub fn new(alloc: Global, policy: Policy, order: CommitOrder, line: u32) -> Judge
        requires { IsLineSize line }
        ensures { result
            ≡ record {
              rule = record { policy = policy; order = order; line = line };
              judging = spec.nothing_judged;
              room = 0;
            } }
    {
        Judge {
            policy,
            order,
            line,
            written: AddrSet::new(alloc),
            failed: false,
            trapped: false,
        }
    }

    /// Makes room for so many more blocks of touched addresses.
    pub fn reserve(&mut self, n: usize) -> Result<(), AllocError>
        ensures rule { self.new.rule ≡ self.old.rule }
        ensures judging { self.new.judging ≡ self.old.judging }
        ensures room { OnOk result (n ≤ self.new.room) }
        ensures kept { self.old.room ≤ self.new.room }
        ensures enough { n ≤ self.old.room → IsOk result }
    {
        self.written.reserve(n)
    }

    /// The verdict on a chunk.
    fn verdict(&self, change: &Change) -> Verdict
        ensures { result ≡ verdict_by self.now (told change.now) }
    {
        if comes_after(self.order, self.failed, self.trapped) {
            return Verdict::After;
        }
        if clash_by(self.policy, self.line, change, &self.written) {
            return Verdict::Fail;
        }
        commit_or_trap(change.ending)
    }

    /// Goes on after a chunk with this verdict.
    fn go_on(&mut self, verdict: Verdict, change: &Change)
        requires { change.now.touched.size ≤ self.old.room }
        ensures rule { self.new.rule ≡ self.old.rule }
        ensures judging { self.new.judging ≡ spec.after_verdict verdict self.old.judging (told change.now) }
        ensures room { self.old.room ≤ self.new.room + change.now.touched.size }
    {
        match verdict {
            Verdict::Commit => self.written.union(&change.touched),
            Verdict::CommitTrap => {
                self.written.union(&change.touched);
                self.trapped = true;
            }
            Verdict::Fail => self.failed = true,
            Verdict::After => {}
        }
    }

    /// The verdict on the next chunk of the round, by all those judged before. It takes no memory.
    pub fn judge(&mut self, change: &Change) -> Verdict
        requires { change.now.touched.size ≤ self.old.room }
        ensures verdict { (choice : Choice) (o : Outcome)
            → rule_of choice ≡ self.old.rule
            → IsOutcome change.now o
            → result ≡ spec.verdict_of choice self.old.judging o }
        ensures judging { (choice : Choice) (o : Outcome)
            → rule_of choice ≡ self.old.rule
            → IsOutcome change.now o
            → self.new.judging ≡ spec.judged choice self.old.judging o }
        ensures rule { self.new.rule ≡ self.old.rule }
        ensures room { self.old.room ≤ self.new.room + change.now.touched.size }
    {
        let verdict = self.verdict(change);
        self.go_on(verdict, change);
        verdict
    }
}
