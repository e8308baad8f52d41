ghost use Rattle.std.specs.Prelude.{◌≡◌, ℕ, ◌<◌, ◌≤◌, ◌++◌, length, min, take, drop, slice_index_or};
ghost use Rattle.arrayvec.specs.ArrayVec.{array_vec_len};
ghost use Rattle.al_core.specs.Lockstep.{not_committed};
ghost use Rattle.al_core.specs.Round.{with_chunks};
ghost use Rattle.al_core.specs.Verdicts as spec;
ghost use Rattle.al_source.specs.declared.limits.TheConstants.{MOST_LANES};
ghost use Rattle.al_plan.specs.Plans.{planned};

use al_core::{Verdict, trips};
use arrayvec::ArrayVec;
use std::marker::Model;
use thiserror::Error;

/// Why there is no plan.
#[derive(Clone, Copy, Debug, PartialEq, Eq, Error)]
pub enum PlanFault {
    /// The loop makes more than 16,777,216 trips.
    #[error("too many trips")]
    Trips,
}

/// The pending chunks of an execution of an annotated loop, in ascending order. A contract sees the list of them. No
/// call takes memory.
#[derive(Drop)]
pub struct Plan {
    // those that ran and were not committed
    again: ArrayVec<u64, 64>,
    // the first that did not run yet, and how many there are in all
    fresh: u64,
    count: u64,
}

impl Model for Plan {
    ghost use Rattle.std.specs.Prelude.{ℕ, ◌+◌, ◌≤◌, List};
    ghost use Rattle.std.specs.Coded.{coded_list, coded_ℕ};
    ghost use Rattle.al_source.specs.declared.limits.TheConstants.{LOOP_TRIPS};
    ghost use Rattle.al_plan.specs.Plans.{pending};

    ghost Value = { List ℕ };

    ghost coded = { coded_list coded_ℕ };

    ghost view = { λ p. pending p.again.items p.fresh p.count };

    ghost invariant = { λ p. (p.fresh ≤ p.count) × (p.count ≤ LOOP_TRIPS + 1) };
}

fn is_committed(verdict: Verdict) -> bool
    ensures { result ≡ spec.is_committed verdict }
{
    match verdict {
        Verdict::Commit | Verdict::CommitTrap => true,
        Verdict::Fail | Verdict::After => false,
    }
}

impl Plan {
    /// All chunks of a loop from its start to below its bound are pending, where a chunk has so many iterations. More
    /// than 16,777,216 trips are refused.
    pub fn new(lo: i64, hi: i64, chunk: u32) -> Result<Plan, PlanFault>
        requires { 0 < chunk }
        ensures { result ≡ planned lo hi chunk }
    {
        match trips(lo, hi) {
            Ok(trips) => Ok(Plan {
                again: ArrayVec::new(),
                fresh: 0,
                count: trips.div_ceil(u64::from(chunk)),
            }),
            Err(_) => Err(PlanFault::Trips),
        }
    }

    /// How many chunks are pending.
    pub fn len(&self) -> usize
        ensures { result ≡ length self.now }
    {
        self.again.len() + (self.count - self.fresh) as usize
    }

    /// The chunk at a place among the pending ones.
    fn chunk(&self, i: usize) -> u64
        requires { i < length self.now }
        ensures { result ≡ slice_index_or self.now i 0 }
    {
        if i < self.again.len() {
            self.again[i]
        } else {
            self.fresh + (i - self.again.len()) as u64
        }
    }

    /// Writes the first pending chunks, as many as fit, and answers how many. The places after them stay.
    pub fn next(&self, out: &mut [u64]) -> usize
        ensures count { result ≡ min (length out.old) (length self.now) }
        ensures chunks { out.new ≡ take result self.now ++ drop result out.old }
    {
        let n = out.len().min(self.len());
        for i in 0..n {
            out[i] = self.chunk(i);
        }
        n
    }

    /// The first pending chunks that are not committed by these verdicts.
    fn failed(&self, verdicts: &[Verdict]) -> ArrayVec<u64, 64>
        requires few { length verdicts.now ≤ MOST_LANES }
        requires pending { length verdicts.now ≤ length self.now }
        ensures chunks { result.items ≡ not_committed (with_chunks self.now verdicts.now) }
        ensures few { array_vec_len result ≤ length verdicts.now }
    {
        let mut failed = ArrayVec::new();
        for (i, verdict) in verdicts.iter().enumerate() {
            if !is_committed(*verdict) {
                failed.push(self.chunk(i));
            }
        }
        failed
    }

    /// Takes each verdict as that of the pending chunk at its place. The chunks that were committed are taken away, and
    /// all others stay pending.
    pub fn settle(&mut self, verdicts: &[Verdict])
        requires few { length verdicts.now ≤ MOST_LANES }
        requires pending { length verdicts.now ≤ length self.old }
        ensures { self.new
            ≡ not_committed (with_chunks self.old verdicts.now) ++ drop (length verdicts.now) self.old }
    {
        let mut left = self.failed(verdicts);
        let judged = verdicts.len();
        let again = self.again.len();
        if judged < again {
            let done = left.try_extend_from_slice(&self.again[judged..]);
            prove!(done.is_ok());
            self.again = left;
        } else {
            self.fresh += (judged - again) as u64;
            self.again = left;
        }
    }
}
