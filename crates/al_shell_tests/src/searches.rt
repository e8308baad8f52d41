//! A search over trials whose outcomes are given.
ghost use Rattle.std.specs.Prelude.{⊤, ◌≡◌, ◌+◌, ◌*◌, ◌<◌, ◌^◌, []};
ghost use Rattle.std.specs.Option.{option_map_or};
ghost use Rattle.al_core.specs.declared.reports.Ending.TheVariants.{Done};

use al_core::Ending;
use al_infer::{Found, Outcome, Table, Trial, Why, infer};
use sqlite_items::Items;
use std::alloc::{AllocError, Global};
use std::test::Fail;

// Candidate k gives 2k of 16 runs of chunks up, in 5 times k + 1 steps; the plain run is as candidate 0.
#[derive(Drop)]
struct Sample {
    alloc: Global,
    poor: Option<u32>,
}

impl Trial for Sample {
    ghost told = { λ s candidate test. record {
      output = [];
      ending = Done;
      attempts = 16;
      aborted = 2 * option_map_or (λ k. k) candidate 0;
      span = 5 * (option_map_or (λ k. k) candidate 0 + 1);
    } };

    ghost can_try = { λ s. ⊤ };

    fn outcome(&self, candidate: Option<u32>, test: u32) -> Result<Outcome, AllocError> {
        let _ = test;
        if candidate.is_some() && candidate == self.poor {
            return Err(AllocError);
        }
        let k = number(candidate);
        Ok(Outcome {
            output: Items::new(self.alloc),
            ending: Ending::Done,
            attempts: 16,
            aborted: 2 * k,
            span: 5 * (u128::from(k) + 1),
        })
    }
}

fn number(candidate: Option<u32>) -> u64
    ensures number { result ≡ option_map_or (λ k. k) candidate 0 }
    ensures small { result < 2 ^ 32 }
{
    match candidate {
        Some(k) => u64::from(k),
        None => 0,
    }
}

fn is_row(table: &Table, k: usize, wanted: Found) -> bool {
    match table.rows.as_slice().get(k) {
        Some(row) => *row == wanted,
        None => false,
    }
}

#[test]
fn the_least_span_is_the_best(rt: HostRuntime) -> Result<(), Fail> {
    let trial = Sample {
        alloc: rt.alloc(),
        poor: None,
    };
    let table = infer(&rt, rt.alloc(), 24, 3, &trial)?;
    assert!(rt; table.rows.len() == 24);
    assert!(rt; is_row(&table, 0, Found::Accepted(15)));
    assert!(rt; is_row(&table, 4, Found::Accepted(75)));
    assert!(rt;
        is_row(
            &table,
            5,
            Found::Refused {
                test: 0,
                why: Why::Conflicts
            }
        )
    );
    assert!(rt; table.best == Some(0));
    Ok(())
}

#[test]
fn no_memory_at_one_candidate(rt: HostRuntime) -> Result<(), Fail> {
    let trial = Sample {
        alloc: rt.alloc(),
        poor: Some(2),
    };
    assert!(rt; infer(&rt, rt.alloc(), 4, 1, &trial).is_err());
    Ok(())
}

#[test]
fn no_candidate(rt: HostRuntime) -> Result<(), Fail> {
    let trial = Sample {
        alloc: rt.alloc(),
        poor: None,
    };
    let table = infer(&rt, rt.alloc(), 0, 1, &trial)?;
    assert!(rt; table.rows.len() == 0 && table.best.is_none());
    Ok(())
}
