//! Which chunks are still pending.
use al_core::Verdict;
use al_plan::{Plan, PlanFault};
use std::test::Fail;

#[test]
fn too_many_trips_are_refused(rt: HostRuntime) -> Result<(), Fail> {
    for (lo, hi, chunk, pending) in [
        (0, 10, 3, 4),
        (0, 12, 3, 4),
        (5, 5, 16, 0),
        (7, -7, 1, 0),
        (-1, 16_777_215, 65_536, 256),
        (i64::MAX, i64::MIN, 1, 0),
    ] {
        let plan = Plan::new(lo, hi, chunk);
        assert_eq!(rt; plan.map(|plan| plan.len()), Ok(pending));
    }
    for (lo, hi) in [(0, 16_777_217), (i64::MIN, i64::MAX)] {
        assert_eq!(rt; Plan::new(lo, hi, 16).err(), Some(PlanFault::Trips));
    }
    Ok(())
}

/// Rounds of three chunks of seven: what failed runs again, first.
#[test]
fn failed_chunks_stay_pending(rt: HostRuntime) -> Result<(), Fail> {
    use Verdict::{After, Commit, CommitTrap, Fail as Failed};
    let Ok(mut plan) = Plan::new(0, 7, 1) else {
        return Ok(());
    };
    for (verdicts, chunks) in [
        ([Commit, Failed, After], [0, 1, 2]),
        ([Commit, Commit, Failed], [1, 2, 3]),
        ([Commit, Failed, Failed], [3, 4, 5]),
        ([Failed, Commit, CommitTrap], [4, 5, 6]),
    ] {
        let mut out = [99; 3];
        assert_eq!(rt; plan.next(&mut out), 3);
        assert_eq!(rt; out, chunks);
        plan.settle(&verdicts);
    }
    let mut out = [99; 3];
    assert_eq!(rt; plan.next(&mut out), 1);
    assert_eq!(rt; out, [4, 99, 99]);
    plan.settle(&[Commit]);
    assert_eq!(rt; (plan.len(), plan.next(&mut out)), (0, 0));
    Ok(())
}
