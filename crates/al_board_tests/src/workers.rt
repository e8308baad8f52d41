//! All lanes of a board worked on by threads.
ghost use Rattle.std.specs.Prelude.{ℕ};

use crate::counting::Counter;
use crate::held::{Held, MANY};
use crate::marks::{Marker, fill, fill_shelf, is_whole};
use al_workers::FreeGate;
use std::test::Fail;

#[test]
fn boards_of_any_size(rt: HostRuntime) -> Result<(), Fail> {
    for lanes in 1..65 {
        let maker = Marker { lanes, poor: 64 };
        for threads in [1, 2, 8, 64] {
            let pieces = fill(&rt, rt.alloc(), &maker, threads, &FreeGate)?;
            assert!(rt; is_whole(pieces.as_slice(), lanes));
            let pieces = fill_shelf(&rt, rt.alloc(), &maker, threads, &FreeGate)?;
            assert!(rt; is_whole(pieces.as_slice(), lanes));
        }
    }
    Ok(())
}

#[test]
fn each_lane_passes_the_gate_once(rt: HostRuntime) -> Result<(), Fail> {
    for lanes in [1, 5, 64] {
        let maker = Marker { lanes, poor: 64 };
        for threads in [1, 2, 8, 64] {
            let gate = Counter::new();
            fill(&rt, rt.alloc(), &maker, threads, &gate)?;
            assert!(rt; gate.is_even() && gate.count() == lanes);
            let gate = Counter::new();
            fill_shelf(&rt, rt.alloc(), &maker, threads, &gate)?;
            assert!(rt; gate.is_even() && gate.count() == lanes);
        }
    }
    Ok(())
}

#[test]
fn want_of_memory_is_answered(rt: HostRuntime) -> Result<(), Fail> {
    for lanes in [1, 6, 64] {
        for poor in 0..lanes {
            let maker = Marker { lanes, poor };
            for threads in [1, 2, 8] {
                let gate = Counter::new();
                assert!(rt; fill(&rt, rt.alloc(), &maker, threads, &gate).is_err());
                assert!(rt; gate.is_even() && gate.has(poor));
                let gate = Counter::new();
                assert!(rt; fill_shelf(&rt, rt.alloc(), &maker, threads, &gate).is_err());
                assert!(rt; gate.is_even() && gate.has(poor));
            }
        }
    }
    Ok(())
}

#[test]
fn lanes_run_beside_one_another(rt: HostRuntime) -> Result<(), Fail> {
    let maker = Marker {
        lanes: MANY,
        poor: MANY,
    };
    for held in [0, 1] {
        let gate = Held::new(held, 10_000_000);
        let pieces = fill(&rt, rt.alloc(), &maker, 2, &gate)?;
        assert!(rt; is_whole(pieces.as_slice(), MANY) && gate.is_well());
        let gate = Held::new(held, 10_000_000);
        let pieces = fill_shelf(&rt, rt.alloc(), &maker, 2, &gate)?;
        assert!(rt; is_whole(pieces.as_slice(), MANY) && gate.is_well());
    }
    Ok(())
}

#[test]
fn one_thread_is_noticed(rt: HostRuntime) -> Result<(), Fail> {
    let maker = Marker {
        lanes: MANY,
        poor: MANY,
    };
    for held in [0, 1] {
        let gate = Held::new(held, 1000);
        let pieces = fill(&rt, rt.alloc(), &maker, 1, &gate)?;
        assert!(rt; is_whole(pieces.as_slice(), MANY) && !gate.is_well());
    }
    Ok(())
}
