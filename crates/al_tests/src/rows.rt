//! What programs print, how they end, and what a trace tells of their rounds. The values were worked out by hand from
//! the rules of the language and of the rounds.
ghost use Rattle.std.specs.Prelude.{◌≤◌};
ghost use Rattle.al_source.specs.declared.limits.TheConstants as limit;
ghost use Rattle.al_core.specs.Limits.{AreInRange};

use crate::programs::{p1, p2, p3, p4, p5, p6, p7, p8, p9, p10, p11, p12, p13, p14, p15};
use crate::trees::{Build, Built, Program};
use al_core::{Choice, Ending, Knobs, Report, TNote, Trap};
use al_plain::run;
use al_report::trace_text;
use al_source::limits::{
    DEFAULT_CHUNK, DEFAULT_ITERATION_STEPS, DEFAULT_LANES, DEFAULT_LINE, DEFAULT_SERIAL_STEPS,
    DEFAULT_THREADS,
};
use al_source::{CommitOrder, Policy};
use sqlite_items::Items;
use std::alloc::Global;
use std::test::Fail;

/// Chunks in a round, iterations in a chunk and steps in an iteration. All else is as where no option is given.
fn knobs(lanes: u32, chunk: u32, iter_steps: u64) -> Knobs
    requires lanes { (1 ≤ lanes) × (lanes ≤ limit.MOST_LANES) }
    requires chunk { (1 ≤ chunk) × (chunk ≤ limit.MOST_CHUNK) }
    requires steps { (1 ≤ iter_steps) × (iter_steps ≤ limit.MOST_STEPS) }
    ensures { AreInRange result }
{
    Knobs {
        lanes,
        chunk,
        threads: DEFAULT_THREADS,
        line: DEFAULT_LINE,
        iter_steps,
        serial_steps: u64::from(DEFAULT_SERIAL_STEPS),
    }
}

fn defaults() -> Knobs
    ensures { AreInRange result }
{
    knobs(
        DEFAULT_LANES,
        DEFAULT_CHUNK,
        u64::from(DEFAULT_ITERATION_STEPS),
    )
}

/// Rounds of so many chunks, each of one iteration.
fn one_each(lanes: u32) -> Knobs
    requires { (1 ≤ lanes) × (lanes ≤ limit.MOST_LANES) }
    ensures { AreInRange result }
{
    knobs(lanes, 1, u64::from(DEFAULT_ITERATION_STEPS))
}

/// A choice with lines of so many words.
fn with_line(alloc: Global, choice: &Choice, line: u32) -> Built<Choice> {
    Ok(Choice {
        policy: choice.policy,
        order: choice.order,
        reds: Items::from_slice(alloc, choice.reds.as_slice())?,
        line,
    })
}

/// The annotation that is written at each loop, with lines of so many words.
fn written(alloc: Global, loops: &[TNote], line: u32) -> Built<Items<Option<Choice>>> {
    let mut all = Items::new(alloc);
    for note in loops {
        all.push(Some(with_line(alloc, &note.own, line)?))?;
    }
    Ok(all)
}

/// No annotation at any loop.
fn none(alloc: Global, loops: &[TNote]) -> Built<Items<Option<Choice>>> {
    let mut all = Items::new(alloc);
    for _ in loops {
        all.push(None)?;
    }
    Ok(all)
}

/// The watched report of a run in rounds, with lines of so many words.
fn by_lines(b: Build, program: Program, input: &[i64], knobs: Knobs, line: u32) -> Built<Report>
    requires { AreInRange knobs }
{
    let typed = program?;
    let choices = written(b.alloc, typed.loops.as_slice(), line)?;
    run(b.alloc, &typed, input, knobs, choices.as_slice(), true)
}

/// The same with lines of one word.
fn in_rounds(b: Build, program: Program, input: &[i64], knobs: Knobs) -> Built<Report>
    requires { AreInRange knobs }
{
    by_lines(b, program, input, knobs, DEFAULT_LINE)
}

/// The watched report of a plain run.
fn plain(b: Build, program: Program) -> Built<Report> {
    let typed = program?;
    let choices = none(b.alloc, typed.loops.as_slice())?;
    run(b.alloc, &typed, &[], defaults(), choices.as_slice(), true)
}

fn is_told(report: &Report, output: &str, ending: Ending) -> bool {
    report.output.as_slice() == output.as_bytes() && report.ending == ending
}

/// Whether a run prints this and ends so.
fn tells(report: Built<Report>, output: &str, ending: Ending) -> Built<bool> {
    Ok(is_told(&report?, output, ending))
}

/// Whether a run prints this to its end, in so many rounds with so many attempts, of which so many are aborted.
fn rounds(report: Built<Report>, output: &str, totals: (u64, u64, u64)) -> Built<bool> {
    let report = report?;
    Ok(
        is_told(&report, output, Ending::Done)
            && report.rounds == totals.0
            && report.attempts == totals.1
            && report.aborted == totals.2,
    )
}

/// Whether a run prints this and ends so, and makes so many attempts, of which so many are aborted.
fn counts(report: Built<Report>, output: &str, attempts: u64, aborted: u64) -> Built<bool> {
    let report = report?;
    Ok(
        is_told(&report, output, Ending::Done)
            && report.attempts == attempts
            && report.aborted == aborted,
    )
}

/// Whether a run prints this and ends so, and this is its trace.
fn traces(
    b: Build,
    report: Built<Report>,
    output: &str,
    ending: Ending,
    trace: &str,
) -> Built<bool> {
    let report = report?;
    let text = trace_text(b.alloc, &report)?;
    Ok(is_told(&report, output, ending) && text.as_slice() == trace.as_bytes())
}

/// Whether a run prints this to its end, and its trace begins and ends so.
fn traces_around(
    b: Build,
    report: Built<Report>,
    output: &str,
    first: &str,
    last: &str,
) -> Built<bool> {
    let report = report?;
    let text = trace_text(b.alloc, &report)?;
    Ok(
        is_told(&report, output, Ending::Done)
            && text.as_slice().starts_with(first.as_bytes())
            && text.as_slice().ends_with(last.as_bytes()),
    )
}

#[test]
fn values_wrap(rt: HostRuntime) -> Result<(), Fail> {
    let b = Build { alloc: rt.alloc() };
    let sum = in_rounds(b, p1(b), &[], defaults());
    assert!(rt; tells(sum, "5\n", Ending::Done)?);
    let least = in_rounds(b, p2(b), &[], defaults());
    assert!(rt; tells(least, "-9223372036854775808 0 1 -1\n", Ending::Done)?);
    Ok(())
}

const P3: &str = "loop 0 execution 0 line 4 trips 0 chunks 0
end done
loops 1 rounds 0 attempts 0 aborted 0 span 5
";

#[test]
fn a_loop_without_trips_has_no_round(rt: HostRuntime) -> Result<(), Fail> {
    let b = Build { alloc: rt.alloc() };
    let run = in_rounds(b, p3(b), &[], defaults());
    assert!(rt; traces(b, run, "7\n", Ending::Done, P3)?);
    Ok(())
}

const P4: &str = "loop 0 execution 0 line 5 trips 2 chunks 2
round 0: 0 commit, 1 fail
round 1: 1 commit
end done
loops 1 rounds 2 attempts 3 aborted 1 span 13
";

#[test]
fn a_chunk_that_read_a_write_is_tried_again(rt: HostRuntime) -> Result<(), Fail> {
    let b = Build { alloc: rt.alloc() };
    let run = in_rounds(b, p4(b, Policy::Raw), &[], one_each(2));
    assert!(rt; traces(b, run, "1 2\n", Ending::Done, P4)?);
    Ok(())
}

const P4_WAW: &str = "\nloops 1 rounds 1 attempts 2 aborted 0 span 9\n";

#[test]
fn a_policy_may_let_chunks_read_what_was_written(rt: HostRuntime) -> Result<(), Fail> {
    let b = Build { alloc: rt.alloc() };
    let run = in_rounds(b, p4(b, Policy::Waw), &[], one_each(2));
    assert!(rt; traces_around(b, run, "1 1\n", "", P4_WAW)?);
    let run = plain(b, p4(b, Policy::Waw));
    assert!(rt; tells(run, "1 2\n", Ending::Done)?);
    Ok(())
}

#[test]
fn chunks_commit_by_order(rt: HostRuntime) -> Result<(), Fail> {
    let b = Build { alloc: rt.alloc() };
    let run = in_rounds(b, p5(b, CommitOrder::OutOfOrder), &[], one_each(3));
    assert!(rt; counts(run, "0 2 1 ", 4, 1)?);
    let run = in_rounds(b, p5(b, CommitOrder::InOrder), &[], one_each(3));
    assert!(rt; counts(run, "0 1 2 ", 5, 2)?);
    Ok(())
}

const P5: &str = "loop 0 execution 0 line 5 trips 3 chunks 1
round 0: 0 commit
end done
loops 1 rounds 1 attempts 1 aborted 0 span 21
";

#[test]
fn one_chunk_has_one_round(rt: HostRuntime) -> Result<(), Fail> {
    let b = Build { alloc: rt.alloc() };
    let run = in_rounds(
        b,
        p5(b, CommitOrder::OutOfOrder),
        &[],
        knobs(64, 100, 1_000_000),
    );
    assert!(rt; traces(b, run, "0 1 2 ", Ending::Done, P5)?);
    Ok(())
}

#[test]
fn a_trap_of_a_failed_chunk_does_not_count(rt: HostRuntime) -> Result<(), Fail> {
    let b = Build { alloc: rt.alloc() };
    let run = in_rounds(b, p6(b, Policy::Raw), &[], one_each(2));
    assert!(rt; tells(run, "10\n", Ending::Done)?);
    let run = in_rounds(b, p6(b, Policy::Waw), &[], one_each(2));
    assert!(rt; tells(run, "", Ending::Trap(Trap::Divide, 6))?);
    Ok(())
}

#[test]
fn a_spent_budget_of_a_failed_chunk_does_not_count(rt: HostRuntime) -> Result<(), Fail> {
    let b = Build { alloc: rt.alloc() };
    let run = in_rounds(b, p7(b, Policy::Raw), &[], knobs(2, 1, 100));
    assert!(rt; tells(run, "ok\n", Ending::Done)?);
    let run = in_rounds(b, p7(b, Policy::None), &[], knobs(2, 1, 100));
    assert!(rt; tells(run, "", Ending::Trap(Trap::Steps, 6))?);
    Ok(())
}

#[test]
fn budgets_are_of_iterations(rt: HostRuntime) -> Result<(), Fail> {
    let b = Build { alloc: rt.alloc() };
    let run = in_rounds(b, p8(b), &[], knobs(4, 2, 64));
    assert!(rt; tells(run, "ok\n", Ending::Done)?);
    let run = in_rounds(b, p8(b), &[], knobs(4, 2, 63));
    assert!(rt; tells(run, "", Ending::Trap(Trap::Steps, 4))?);
    Ok(())
}

const P9: &str = "\nloops 1 rounds 1 attempts 4 aborted 0 span 6\n";

#[test]
fn a_reduction_joins_what_each_chunk_gathered(rt: HostRuntime) -> Result<(), Fail> {
    let b = Build { alloc: rt.alloc() };
    let run = in_rounds(b, p9(b), &[1, 2, 3, 4], one_each(4));
    assert!(rt; traces_around(b, run, "17\n", "", P9)?);
    Ok(())
}

const P10: &str = "loop 0 execution 0 line 5 trips 6 chunks 6
round 0: 0 commit, 1 fail, 2 after, 3 after
";

const P10_TOTALS: &str = "\nloops 1 rounds 6 attempts 18 aborted 12 span 60\n";

#[test]
fn objects_of_chunks_are_linked_as_in_order(rt: HostRuntime) -> Result<(), Fail> {
    let b = Build { alloc: rt.alloc() };
    let run = in_rounds(b, p10(b), &[], one_each(4));
    assert!(rt; traces_around(b, run, "5 4 3 2 1 0 ", P10, P10_TOTALS)?);
    let run = plain(b, p10(b));
    assert!(rt; tells(run, "5 4 3 2 1 0 ", Ending::Done)?);
    Ok(())
}

#[test]
fn traps_end_the_program(rt: HostRuntime) -> Result<(), Fail> {
    let b = Build { alloc: rt.alloc() };
    let run = in_rounds(b, p11(b), &[], defaults());
    assert!(rt; tells(run, "", Ending::Trap(Trap::Kind, 6))?);
    let run = in_rounds(b, p12(b), &[], defaults());
    assert!(rt; tells(run, "go ", Ending::Trap(Trap::Trips, 5))?);
    Ok(())
}

const P13: &str = "loop 0 execution 0 line 5 trips 5 chunks 5
round 0: 0 commit, 1 commit, 2 commit, 3 trap
end trap 7 out of bounds
loops 1 rounds 1 attempts 4 aborted 0 span 7
";

#[test]
fn a_committed_trap_ends_the_program(rt: HostRuntime) -> Result<(), Fail> {
    let b = Build { alloc: rt.alloc() };
    let run = in_rounds(b, p13(b), &[], one_each(4));
    let ending = Ending::Trap(Trap::Bounds, 7);
    assert!(rt; traces(b, run, "0 1 2 3 ", ending, P13)?);
    Ok(())
}

#[test]
fn an_object_that_a_chunk_freed_is_no_more(rt: HostRuntime) -> Result<(), Fail> {
    let b = Build { alloc: rt.alloc() };
    let run = in_rounds(b, p14(b, Policy::Raw), &[], one_each(2));
    assert!(rt; rounds(run, "1\n", (2, 3, 1))?);
    Ok(())
}

#[test]
fn a_write_to_a_freed_object_is_lost(rt: HostRuntime) -> Result<(), Fail> {
    let b = Build { alloc: rt.alloc() };
    let run = in_rounds(b, p14(b, Policy::Waw), &[], one_each(2));
    assert!(rt; rounds(run, "1\n", (1, 2, 0))?);
    let run = in_rounds(b, p14(b, Policy::None), &[], one_each(2));
    assert!(rt; rounds(run, "1\n", (1, 2, 0))?);
    Ok(())
}

/// Whether the run with lines of so many words has these totals at the end of its trace.
fn line_totals(b: Build, line: u32, totals: &str) -> Built<bool> {
    let run = by_lines(b, p15(b), &[], one_each(4), line);
    traces_around(b, run, "1 1\n", "", totals)
}

#[test]
fn neighbours_on_a_line_conflict(rt: HostRuntime) -> Result<(), Fail> {
    let b = Build { alloc: rt.alloc() };
    assert!(rt; line_totals(b, 1, "\nloops 1 rounds 1 attempts 4 aborted 0 span 5\n")?);
    assert!(rt; line_totals(b, 2, "\nloops 1 rounds 3 attempts 8 aborted 4 span 9\n")?);
    assert!(rt; line_totals(b, 4, "\nloops 1 rounds 4 attempts 10 aborted 6 span 11\n")?);
    Ok(())
}
