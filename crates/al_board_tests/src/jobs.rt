//! Jobs done by threads.
ghost use Rattle.std.specs.Prelude.{ℕ, ◌≡◌, ◌+◌, ◌*◌, ◌≤◌};

use crate::counting::Counter;
use crate::held::{Held, MANY};
use al_batch::{FreePool, Work, run_jobs};
use std::alloc::AllocError;
use std::sync::atomic::{AtomicU64, Ordering};
use std::test::Fail;

// The answer to a job is twice the job, and one. It counts the calls, and finds no memory for one job.
#[derive(Drop)]
struct Doubler {
    calls: AtomicU64,
    poor: u32,
}

impl Doubler {
    fn new(poor: u32) -> Doubler {
        Doubler {
            calls: AtomicU64::new(0),
            poor,
        }
    }
}

impl Work for Doubler {
    type Job = u32;

    type Answer = u64;

    ghost fits = { λ job answer. answer ≡ 2 * job + 1 };

    fn work(&self, job: &u32) -> Result<u64, AllocError> {
        self.calls.fetch_add(1, Ordering::SeqCst);
        if *job == self.poor {
            return Err(AllocError);
        }
        Ok(2 * *job as u64 + 1)
    }
}

// No job of the tests.
const NEVER: u32 = u32::MAX;

#[test]
fn few_jobs(rt: HostRuntime) -> Result<(), Fail> {
    for threads in [1, 2, 8, 64] {
        let none: [u32; 0] = [];
        let doubler = Doubler::new(NEVER);
        assert!(rt; run_jobs(&rt, rt.alloc(), &doubler, &none, threads, &FreePool)?.is_empty());
        assert_eq!(rt; doubler.calls.load(Ordering::SeqCst), 0);
        let one = run_jobs(&rt, rt.alloc(), &doubler, &[7u32], threads, &FreePool)?;
        assert!(rt; one.as_slice() == [15].as_slice());
        assert_eq!(rt; doubler.calls.load(Ordering::SeqCst), 1);
    }
    Ok(())
}

#[test]
fn answers_come_in_the_order_of_jobs(rt: HostRuntime) -> Result<(), Fail> {
    for threads in [1, 2, 8, 64] {
        let doubler = Doubler::new(NEVER);
        let gate = Counter::new();
        let jobs = [5u32, 3, 9, 0, 1000];
        let answers = run_jobs(&rt, rt.alloc(), &doubler, &jobs, threads, &gate)?;
        assert!(rt; answers.as_slice() == [11, 7, 19, 1, 2001].as_slice());
        assert!(rt; gate.is_even() && gate.count() == 5);
        assert_eq!(rt; doubler.calls.load(Ordering::SeqCst), 5);
    }
    Ok(())
}

#[test]
fn many_jobs(rt: HostRuntime) -> Result<(), Fail> {
    let mut jobs = Vec::new(rt.alloc());
    for job in 0..1024u32 {
        jobs.push(job)?;
    }
    let jobs = jobs.as_slice();
    assert_eq!(rt; jobs.len(), 1024);
    for threads in [1, 2, 8, 64] {
        let doubler = Doubler::new(NEVER);
        let answers = run_jobs(&rt, rt.alloc(), &doubler, jobs, threads, &FreePool)?;
        assert_eq!(rt; answers.len(), 1024);
        for (job, answer) in answers.as_slice().iter().enumerate() {
            assert!(rt; *answer == (job as u64).wrapping_mul(2).wrapping_add(1));
        }
        assert_eq!(rt; doubler.calls.load(Ordering::SeqCst), 1024);
    }
    Ok(())
}

#[test]
fn want_of_memory_is_answered(rt: HostRuntime) -> Result<(), Fail> {
    for poor in [0, 1, 2, 3, 4] {
        for threads in [1, 2, 8] {
            let doubler = Doubler::new(poor);
            let gate = Counter::new();
            let jobs = [0u32, 1, 2, 3, 4];
            assert!(rt; run_jobs(&rt, rt.alloc(), &doubler, &jobs, threads, &gate).is_err());
            assert!(rt; gate.is_even() && gate.has(poor));
        }
    }
    Ok(())
}

#[test]
fn jobs_run_beside_one_another(rt: HostRuntime) -> Result<(), Fail> {
    for held in [0, 1] {
        let doubler = Doubler::new(NEVER);
        let gate = Held::new(held, 10_000_000);
        let answers = run_jobs(&rt, rt.alloc(), &doubler, &[1u32, 2, 3, 4], 2, &gate)?;
        assert!(rt; answers.as_slice() == [3, 5, 7, 9].as_slice() && gate.is_well());
    }
    Ok(())
}

#[test]
fn one_thread_is_noticed(rt: HostRuntime) -> Result<(), Fail> {
    for held in [0, MANY - 1] {
        let doubler = Doubler::new(NEVER);
        let gate = Held::new(held, 1000);
        let answers = run_jobs(&rt, rt.alloc(), &doubler, &[1u32, 2, 3, 4], 1, &gate)?;
        assert!(rt; answers.as_slice() == [3, 5, 7, 9].as_slice() && !gate.is_well());
    }
    Ok(())
}
