//! Keeping what the committed chunks did.
ghost use Rattle.std.specs.Prelude.{◌≡◌, ◌++◌, [], IfOk, OnOk, OnErr, length, map};
ghost use Rattle.al_core.specs.Applied.{applied, all_applied};
ghost use Rattle.al_core.specs.Round as round;
ghost use Rattle.al_core.specs.Verdicts as spec;
ghost use Rattle.al_snap.specs.Changes.{told};
ghost use Rattle.al_round.specs.Rounds.{HasLaidFirst, IsKept, IsSettled};

use crate::piece::Done;
use crate::report::RoundReport;
use al_commit::commit;
use al_core::{Ending, Red, Verdict};
use al_heap::Store;
use al_snap::Change;
use al_source::Bytes;
use sqlite_items::Items;
use std::alloc::{AllocError, Global};

fn is_committed(verdict: Verdict) -> bool
    ensures { result ≡ spec.is_committed verdict }
{
    match verdict {
        Verdict::Commit | Verdict::CommitTrap => true,
        Verdict::Fail | Verdict::After => false,
    }
}

// The most steps of a chunk.
#[tactic(auto, unfolding(al_snap::specs::Changes::told))]
fn longest_of<S: Store + Sync>(all: &[Done<'_, S>]) -> u64
    ensures { result ≡ round.most_steps (map (λ d. told d.change) all.now) 0 }
{
    let mut longest = 0;
    for each in all {
        longest = longest.max(each.change.steps);
    }
    longest
}

// What is kept of the committed chunks, beside the store.
#[derive(Drop)]
struct Kept {
    printed: Bytes,
    ending: Ending,
}

impl Kept {
    // Keeps what a committed chunk did: its memory, its bytes and its ending.
    #[tactic(auto, unfolding(al_snap::specs::Changes::told))]
    fn keep<S: Store>(
        &mut self,
        alloc: Global,
        store: &mut S,
        change: Change,
        reds: &[Red],
    ) -> Result<(), AllocError>
        ensures memory { OnOk result (S.memory store.new ≡ applied reds.now (S.memory store.old) (told change)) }
        ensures printed { OnOk result (self.new.printed ≡ self.old.printed ++ (told change).printed) }
        ensures ending { OnOk result (self.new.ending ≡ (told change).ending) }
        ensures err { OnErr result (S.memory store.new ≡ S.memory store.old) }
    {
        self.printed
            .append(Items::from_slice(alloc, change.printed.as_slice())?)?;
        self.ending = change.ending;
        commit(store, change, reds)
    }

    // Keeps what a chunk with this verdict did, where it is committed.
    fn keep_by<S: Store>(
        &mut self,
        alloc: Global,
        store: &mut S,
        verdict: Verdict,
        change: Change,
        reds: &[Red],
    ) -> Result<(), AllocError>
        ensures memory { OnOk result (S.memory store.new
            ≡ all_applied reds.now (spec.cons_if (spec.is_committed verdict) (told change) []) (S.memory store.old)) }
        ensures printed { OnOk result (self.new.printed
            ≡ round.all_printed (spec.cons_if (spec.is_committed verdict) (told change) []) self.old.printed) }
        ensures ending { OnOk result (self.new.ending
            ≡ round.last_ending (spec.cons_if (spec.is_committed verdict) (told change) []) self.old.ending) }
        ensures err { OnErr result (S.memory store.new ≡ S.memory store.old) }
    {
        if is_committed(verdict) {
            self.keep(alloc, store, change, reds)?;
        }
        Ok(())
    }
}

// Keeps what the committed chunks did, one after another.
fn keep_committed<S: Store + Sync>(
    alloc: Global,
    store: &mut S,
    all: Vec<Done<'_, S>>,
    verdicts: &[Verdict],
    reds: &[Red],
) -> Result<Kept, AllocError>
    requires each { length verdicts.now ≡ length all.items }
    ensures kept { IfOk result (λ k. IsKept reds.now (S.memory store.old)
        (spec.committed (map (λ d. told d.change) all.entry.items) verdicts.now) [] (S.memory store.new)
        k.printed k.ending) }
    ensures err { OnErr result (HasLaidFirst reds.now (S.memory store.old) (S.memory store.new)
        (spec.committed (map (λ d. told d.change) all.entry.items) verdicts.now)) }
{
    let mut kept = Kept {
        printed: Items::new(alloc),
        ending: Ending::Done,
    };
    let mut lane = 0;
    for done in all {
        let Done {
            change,
            plan: _,
            store: _,
        } = done;
        kept.keep_by(alloc, store, verdicts[lane], change, reds)?;
        lane += 1;
    }
    Ok(kept)
}

/// Lays what the committed chunks did over the store, one after another. The error is want of memory.
pub(crate) fn settle<S: Store + Sync>(
    alloc: Global,
    store: &mut S,
    all: Vec<Done<'_, S>>,
    verdicts: Items<Verdict>,
    reds: &[Red],
) -> Result<RoundReport, AllocError>
    requires each { length verdicts ≡ length all.items }
    ensures settled { IfOk result (IsSettled reds.now (S.memory store.old) (S.memory store.new)
        (map (λ d. told d.change) all.entry.items) verdicts) }
    ensures err { OnErr result (HasLaidFirst reds.now (S.memory store.old) (S.memory store.new)
        (spec.committed (map (λ d. told d.change) all.entry.items) verdicts)) }
{
    let longest = longest_of(all.as_slice());
    let Kept { printed, ending } = keep_committed(alloc, store, all, verdicts.as_slice(), reds)?;
    Ok(RoundReport {
        verdicts,
        printed,
        ending,
        longest,
    })
}
