//! The search.
ghost use Rattle.std.specs.Prelude.{ℕ, ◌≡◌, ◌+◌, ◌<◌, ◌≤◌, ◌^◌, IfOk, None, Ok, length, map, replicate, slice_index_or};
ghost use Rattle.al_infer.specs.declared.tables.Found.TheVariants.{Accepted};
ghost use Rattle.al_infer.specs.Findings.{IsFinding, best_of, findings, table, tabled};

use crate::outcomes::{Outcome, Trial};
use crate::tables::{Found, Table};
use sqlite_items::Items;
use std::alloc::{AllocError, Global};
use std::thread;
use std::thread::Threads;

/// The most candidates that run at the same time.
const SIDE_BY_SIDE: usize = 8;

/// Tries each candidate for a loop at each test, and says what that shows. The plain runs come first, one after
/// another; then at each test the candidates that no earlier one refused run side by side, at most eight at a time. The
/// error is want of memory.
#[tactic(auto, using(crate::proofs::OneMore::table_of, crate::proofs::OneMore::untried))]
pub fn infer<R: Threads + Sync, T: Trial>(
    rt: &R,
    alloc: Global,
    candidates: u32,
    tests: u32,
    trial: &T,
) -> Result<Table, AllocError>
    requires candidates { candidates ≤ 80 }
    requires tests { (1 ≤ tests) × (tests ≤ 16) }
    requires can { T.can_try trial.now }
    ensures { IfOk result (λ t. t ≡ table (T.told trial.now) candidates tests) }
{
    let plains = plain_runs(alloc, tests, trial)?;
    let mut rows = untried(alloc, candidates)?;
    for test in 0..tests {
        try_all(rt, trial, &plains[test as usize], test, &mut rows);
    }
    Ok(tabled(all_found(alloc, &rows)?))
}

/// The table of these findings.
fn tabled(rows: Vec<Found>) -> Table
    requires { length rows.items ≤ 80 }
    ensures { result ≡ tabled rows.items }
{
    let best = best(&rows);
    Table {
        rows: Items::from_vec(rows),
        best,
    }
}

/// The plain run at each test.
fn plain_runs<T: Trial>(alloc: Global, tests: u32, trial: &T) -> Result<Vec<Outcome>, AllocError>
    requires { T.can_try trial.now }
    ensures many { IfOk result (λ v. length v.items ≡ tests) }
    ensures told { IfOk result (λ v. (t : ℕ) (d : _) → t < tests
        → slice_index_or v.items t d ≡ T.told trial.now None t) }
    ensures small { IfOk result (λ v. (t : ℕ) (d : _) → t < tests → (slice_index_or v.items t d).span < 2 ^ 100) }
{
    let mut plains = Vec::with_capacity(alloc, tests as usize)?;
    for test in 0..tests {
        plains.push(trial.outcome(None, test)?)?;
    }
    Ok(plains)
}

/// Candidates that no test has refused yet.
fn untried(alloc: Global, candidates: u32) -> Result<Vec<Result<Found, AllocError>>, AllocError>
    ensures { IfOk result (λ v. v.items ≡ replicate candidates (Ok (Accepted 0))) }
{
    let mut rows = Vec::with_capacity(alloc, candidates as usize)?;
    for _k in 0..candidates {
        rows.push(Ok(Found::Accepted(0)))?;
    }
    Ok(rows)
}

/// Tries a candidate that no earlier test refused, whose spans have this sum.
fn tried<T: Trial>(
    trial: &T,
    plain: &Outcome,
    test: u32,
    candidate: u32,
    sum: u128,
) -> Result<Found, AllocError>
    requires test { test < 16 }
    requires can { T.can_try trial.now }
    requires plain { plain.now ≡ T.told trial.now None test }
    requires small { plain.now.span < 2 ^ 100 }
    requires found { IsFinding (T.told trial.now) test candidate (Accepted sum) }
    ensures { IfOk result (IsFinding (T.told trial.now) (test + 1) candidate) }
{
    let outcome = trial.outcome(Some(candidate), test)?;
    match outcome.refused_beside(plain) {
        Some(why) => Ok(Found::Refused { test, why }),
        None => Ok(Found::Accepted(sum + outcome.span)),
    }
}

/// What one test more shows of a candidate. One that was refused stays so.
#[tactic(auto, using(crate::proofs::OneMore::refused_before))]
fn found_at<T: Trial>(
    trial: &T,
    plain: &Outcome,
    test: u32,
    candidate: u32,
    row: Result<Found, AllocError>,
) -> Result<Found, AllocError>
    requires test { test < 16 }
    requires can { T.can_try trial.now }
    requires plain { plain.now ≡ T.told trial.now None test }
    requires small { plain.now.span < 2 ^ 100 }
    requires row { IfOk row (IsFinding (T.told trial.now) test candidate) }
    ensures { IfOk result (IsFinding (T.told trial.now) (test + 1) candidate) }
{
    match row {
        Ok(Found::Accepted(sum)) => tried(trial, plain, test, candidate, sum),
        Ok(Found::Refused { .. }) | Err(_) => row,
    }
}

/// Tries all candidates at one more test, side by side.
fn try_all<R: Threads + Sync, T: Trial>(
    rt: &R,
    trial: &T,
    plain: &Outcome,
    test: u32,
    rows: &mut Vec<Result<Found, AllocError>>,
)
    requires test { test < 16 }
    requires can { T.can_try trial.now }
    requires plain { plain.now ≡ T.told trial.now None test }
    requires small { plain.now.span < 2 ^ 100 }
    requires few { length rows.old.items ≤ 80 }
    requires each { (k : ℕ) (d : _) → k < length rows.old.items
        → IfOk (slice_index_or rows.old.items k d) (IsFinding (T.told trial.now) test k) }
    ensures many { length rows.new.items ≡ length rows.old.items }
    ensures each { (k : ℕ) (d : _) → k < length rows.old.items
        → IfOk (slice_index_or rows.new.items k d) (IsFinding (T.told trial.now) (test + 1) k) }
{
    thread::for_each_mut(
        rt,
        rows.as_mut_slice(),
        SIDE_BY_SIDE,
        &|k: usize, row: &mut Result<Found, AllocError>|
            requires { (k < 80) × (test < 16) × T.can_try trial.now × (plain.now ≡ T.told trial.now None test)
                × (plain.now.span < 2 ^ 100) × IfOk row.now (IsFinding (T.told trial.now) test k) }
            ensures { IfOk row.exit.now (IsFinding (T.told trial.entry.now) (test + 1) k) }
        { *row = found_at(trial, plain, test, k as u32, *row) },
    );
}

/// What was found of all, where no run wanted memory.
fn all_found(alloc: Global, rows: &[Result<Found, AllocError>]) -> Result<Vec<Found>, AllocError>
    ensures { IfOk result (λ v. rows.now ≡ map (λ f. Ok f) v.items) }
{
    let mut all = Vec::with_capacity(alloc, rows.len())?;
    for row in rows {
        all.push((*row)?)?;
    }
    Ok(all)
}

/// The accepted candidate of least span, of equal ones the earliest.
fn best(rows: &[Found]) -> Option<u32>
    requires { length rows.now ≤ 80 }
    ensures { result ≡ best_of rows.now }
{
    let mut best = None;
    let mut k = rows.len();
    while k > 0 {
        k -= 1;
        if let Found::Accepted(sum) = rows[k] {
            best = match best {
                Some((later, least)) if least < sum => Some((later, least)),
                _ => Some((k as u32, sum)),
            };
        }
    }
    best.map(|(k, _)| k)
}
