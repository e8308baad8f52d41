//! The texts of runs and faults, by their tables.
use al_core::{Ending, Event, Judged, Report, Trap, Verdict};
use al_report::*;
use al_rules::{LayoutFault, LowerFault, NoteFault, NoteKind, TypeFault, TypeKind};
use al_source::{Bytes, LexFault, ParseFault};
use al_text::InputFault;
use sqlite_items::Items;
use std::alloc::{AllocError, Global};
use std::test::Fail;

/// Whether the run of one loop with these events has this trace. The counts are its rounds, attempts and aborted
/// chunks.
fn is_trace(
    alloc: Global,
    events: Items<Event>,
    ending: Ending,
    counts: [u64; 3],
    span: u128,
    expected: &str,
) -> Result<bool, AllocError> {
    let run = Report {
        output: Items::new(alloc),
        ending,
        loops: 1,
        rounds: counts[0],
        attempts: counts[1],
        aborted: counts[2],
        span,
        events,
    };
    let trace = trace_text(alloc, &run)?;
    let totals = totals_text(alloc, &run)?;
    Ok(trace.as_slice() == expected.as_bytes() && trace.as_slice().ends_with(totals.as_slice()))
}

fn enter(line: u32, trips: u64, chunks: u64) -> Event {
    Event::Enter {
        number: 0,
        execution: 0,
        line,
        trips,
        chunks,
    }
}

/// A round of chunks in a row, from the first on.
fn round(alloc: Global, first: u64, verdicts: &[Verdict]) -> Result<Event, AllocError> {
    let mut judged = Items::new(alloc);
    for (at, verdict) in verdicts.iter().enumerate() {
        judged.push(Judged {
            chunk: first.wrapping_add(at as u64),
            verdict: *verdict,
        })?;
    }
    Ok(Event::Round(judged))
}

#[test]
fn a_loop_of_no_trips(rt: HostRuntime) -> Result<(), Fail> {
    let alloc = rt.alloc();
    let mut events = Items::new(alloc);
    events.push(enter(4, 0, 0))?;
    let expected =
        "loop 0 execution 0 line 4 trips 0 chunks 0\nend done\nloops 1 rounds 0 attempts 0 aborted 0 span 5\n";
    assert!(rt; is_trace(alloc, events, Ending::Done, [0, 0, 0], 5, expected)?);
    Ok(())
}

#[test]
fn a_failed_chunk_runs_again(rt: HostRuntime) -> Result<(), Fail> {
    let alloc = rt.alloc();
    let mut events = Items::new(alloc);
    events.push(enter(5, 2, 2))?;
    events.push(round(alloc, 0, &[Verdict::Commit, Verdict::Fail])?)?;
    events.push(round(alloc, 1, &[Verdict::Commit])?)?;
    let expected =
        "loop 0 execution 0 line 5 trips 2 chunks 2\nround 0: 0 commit, 1 fail\nround 1: 1 commit\nend done\n\
        loops 1 rounds 2 attempts 3 aborted 1 span 13\n";
    assert!(rt; is_trace(alloc, events, Ending::Done, [2, 3, 1], 13, expected)?);
    Ok(())
}

#[test]
fn chunks_commit_one_by_one(rt: HostRuntime) -> Result<(), Fail> {
    let alloc = rt.alloc();
    let all = [
        Verdict::Commit,
        Verdict::Fail,
        Verdict::After,
        Verdict::After,
    ];
    let mut events = Items::new(alloc);
    events.push(enter(5, 6, 6))?;
    for first in 0..3 {
        events.push(round(alloc, first, &all)?)?;
    }
    events.push(round(alloc, 3, &all[..3])?)?;
    events.push(round(alloc, 4, &all[..2])?)?;
    events.push(round(alloc, 5, &all[..1])?)?;
    let expected =
        "loop 0 execution 0 line 5 trips 6 chunks 6\nround 0: 0 commit, 1 fail, 2 after, 3 after\n\
        round 1: 1 commit, 2 fail, 3 after, 4 after\nround 2: 2 commit, 3 fail, 4 after, 5 after\n\
        round 3: 3 commit, 4 fail, 5 after\nround 4: 4 commit, 5 fail\nround 5: 5 commit\nend done\n\
        loops 1 rounds 6 attempts 18 aborted 12 span 60\n";
    assert!(rt; is_trace(alloc, events, Ending::Done, [6, 18, 12], 60, expected)?);
    Ok(())
}

#[test]
fn a_chunk_has_all_trips(rt: HostRuntime) -> Result<(), Fail> {
    let alloc = rt.alloc();
    let mut events = Items::new(alloc);
    events.push(enter(5, 3, 1))?;
    events.push(round(alloc, 0, &[Verdict::Commit])?)?;
    let expected = "loop 0 execution 0 line 5 trips 3 chunks 1\nround 0: 0 commit\nend done\n\
        loops 1 rounds 1 attempts 1 aborted 0 span 21\n";
    assert!(rt; is_trace(alloc, events, Ending::Done, [1, 1, 0], 21, expected)?);
    Ok(())
}

#[test]
fn a_trap_ends_the_trace(rt: HostRuntime) -> Result<(), Fail> {
    let alloc = rt.alloc();
    let verdicts = [
        Verdict::Commit,
        Verdict::Commit,
        Verdict::Commit,
        Verdict::CommitTrap,
    ];
    let mut events = Items::new(alloc);
    events.push(enter(5, 5, 5))?;
    events.push(round(alloc, 0, &verdicts)?)?;
    let expected =
        "loop 0 execution 0 line 5 trips 5 chunks 5\nround 0: 0 commit, 1 commit, 2 commit, 3 trap\n\
        end trap 7 out of bounds\nloops 1 rounds 1 attempts 4 aborted 0 span 7\n";
    assert!(rt;
        is_trace(
            alloc,
            events,
            Ending::Trap(Trap::Bounds, 7),
            [1, 4, 0],
            7,
            expected
        )?
    );
    Ok(())
}

#[test]
fn rounds_are_counted_anew(rt: HostRuntime) -> Result<(), Fail> {
    let alloc = rt.alloc();
    let mut events = Items::new(alloc);
    events.push(round(alloc, 0, &[Verdict::Commit])?)?;
    events.push(Event::Enter {
        number: 7,
        execution: 1,
        line: 9,
        trips: 16_777_216,
        chunks: 16_777_216,
    })?;
    events.push(round(alloc, 16_777_215, &[Verdict::Commit])?)?;
    let expected =
        "round 0: 0 commit\nloop 7 execution 1 line 9 trips 16777216 chunks 16777216\nround 0: 16777215 commit\n\
        end done\nloops 1 rounds 2 attempts 2 aborted 0 span 340282366920938463463374607431768211455\n";
    assert!(rt; is_trace(alloc, events, Ending::Done, [2, 2, 0], u128::MAX, expected)?);
    Ok(())
}

#[test]
fn traps_have_their_line(rt: HostRuntime) -> Result<(), Fail> {
    let table = [
        ("a.c", Trap::Null, 3, "alter: a.c:3: trap: null pointer\n"),
        (
            "b.c",
            Trap::Missing,
            4_294_967_295,
            "alter: b.c:4294967295: trap: missing object\n",
        ),
        (
            "p13.c",
            Trap::Bounds,
            7,
            "alter: p13.c:7: trap: out of bounds\n",
        ),
        (
            "p11.c",
            Trap::Kind,
            6,
            "alter: p11.c:6: trap: word of the other kind\n",
        ),
        (
            "p6.c",
            Trap::Divide,
            6,
            "alter: p6.c:6: trap: divide by zero\n",
        ),
        (
            "c.c",
            Trap::Input,
            10,
            "alter: c.c:10: trap: no such input\n",
        ),
        (
            "p12.c",
            Trap::Trips,
            5,
            "alter: p12.c:5: trap: too many trips\n",
        ),
        (
            "p7.c",
            Trap::Steps,
            6,
            "alter: p7.c:6: trap: step budget spent\n",
        ),
        (
            "d e.c",
            Trap::Alloc,
            1,
            "alter: d e.c:1: trap: too many words allocated\n",
        ),
        (
            "demo",
            Trap::Depth,
            2,
            "alter: demo:2: trap: calls nested too deep\n",
        ),
        (
            "f1.c",
            Trap::Freed,
            8,
            "alter: f1.c:8: trap: freed already\n",
        ),
        (
            "f3.c",
            Trap::BadFree,
            3,
            "alter: f3.c:3: trap: not an allocated object\n",
        ),
    ];
    for (name, trap, line, expected) in table {
        let text = trap_text(rt.alloc(), name, trap, line)?;
        assert!(rt; text.as_slice() == expected.as_bytes());
    }
    Ok(())
}

fn is_line(text: Bytes, expected: &str) -> bool {
    text.as_slice() == expected.as_bytes()
}

#[test]
fn lexical_faults_have_their_line(rt: HostRuntime) -> Result<(), Fail> {
    let table = [
        (LexFault::OpenComment(1), "alter: open.c:1: open comment\n"),
        (LexFault::BadByte(2), "alter: open.c:2: bad byte\n"),
        (LexFault::BadNumber(30), "alter: open.c:30: bad number\n"),
        (LexFault::BadText(4), "alter: open.c:4: bad text\n"),
        (LexFault::TooLong, "alter: open.c: source too long\n"),
    ];
    for (fault, expected) in table {
        if fault != LexFault::Memory {
            let text = lex_text(rt.alloc(), "open.c", &fault)?;
            assert!(rt; is_line(text, expected));
        }
    }
    let text = parse_text(rt.alloc(), "cut.c", &ParseFault::Syntax)?;
    assert!(rt; is_line(text, "alter: cut.c: not a program\n"));
    Ok(())
}

#[test]
fn faults_of_inputs_have_their_line(rt: HostRuntime) -> Result<(), Fail> {
    let table = [
        (
            InputFault::OutOfRange(2),
            "alter: big.txt:2: out of range\n",
        ),
        (InputFault::NotNumber(1), "alter: big.txt:1: not a number\n"),
        (InputFault::TooMany, "alter: big.txt: too many numbers\n"),
        (InputFault::TooLong, "alter: big.txt: input too long\n"),
    ];
    for (fault, expected) in table {
        if fault != InputFault::Memory {
            let text = input_text(rt.alloc(), "big.txt", &fault)?;
            assert!(rt; is_line(text, expected));
        }
    }
    Ok(())
}

#[test]
fn faults_of_sizes_have_their_line(rt: HostRuntime) -> Result<(), Fail> {
    let alloc = rt.alloc();
    let text = layout_text(alloc, "t.c", &LayoutFault::TooLarge(1))?;
    assert!(rt; is_line(text, "alter: t.c:1: too many words\n"));
    let text = layout_text(alloc, "t.c", &LayoutFault::SelfHolding(8))?;
    assert!(rt; is_line(text, "alter: t.c:8: struct holds itself\n"));
    let text = lower_text(alloc, "t.c", &LowerFault::TooLarge)?;
    assert!(rt; is_line(text, "alter: t.c: too many nodes\n"));
    Ok(())
}

#[test]
fn faults_of_types_have_their_line(rt: HostRuntime) -> Result<(), Fail> {
    let table = [
        (TypeKind::Main, "alter: e.c:1: no main function\n"),
        (TypeKind::Twice, "alter: e.c:1: name defined twice\n"),
        (TypeKind::Unknown, "alter: e.c:1: unknown name\n"),
        (TypeKind::Shape, "alter: e.c:1: type not allowed here\n"),
        (TypeKind::Mismatch, "alter: e.c:1: wrong type\n"),
        (TypeKind::NotPlace, "alter: e.c:1: not a place\n"),
        (TypeKind::LocalAddress, "alter: e.c:1: address of a local\n"),
        (TypeKind::Count, "alter: e.c:1: wrong number of arguments\n"),
        (TypeKind::Return, "alter: e.c:1: wrong return\n"),
        (
            TypeKind::Outside,
            "alter: e.c:1: break or continue outside a loop\n",
        ),
    ];
    for (kind, expected) in table {
        let text = type_text(rt.alloc(), "e.c", &TypeFault::At(kind, 1))?;
        assert!(rt; is_line(text, expected));
    }
    Ok(())
}

#[test]
fn faults_of_annotations_have_their_line(rt: HostRuntime) -> Result<(), Fail> {
    let table = [
        (NoteKind::Leaves, "alter: p14.c:3: loop is left\n"),
        (NoteKind::Form, "alter: p14.c:3: loop form\n"),
        (NoteKind::IndexChanges, "alter: p14.c:3: counter changes\n"),
        (NoteKind::BoundChanges, "alter: p14.c:3: bound changes\n"),
        (NoteKind::ReductionName, "alter: p14.c:3: reduction name\n"),
        (
            NoteKind::ReductionAddress,
            "alter: p14.c:3: reduction address\n",
        ),
        (NoteKind::ReductionUsed, "alter: p14.c:3: reduction used\n"),
    ];
    for (kind, expected) in table {
        let text = note_text(rt.alloc(), "p14.c", &NoteFault::At(kind, 3))?;
        assert!(rt; is_line(text, expected));
    }
    Ok(())
}
