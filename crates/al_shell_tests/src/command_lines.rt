//! Words with the command or the fault that they give, by the table of commands and options.
use al_core::Knobs;
use al_words::*;
use std::alloc::{AllocError, Global};
use std::test::Fail;

const DEFAULTS: Knobs = Knobs {
    lanes: 4,
    chunk: 16,
    threads: 4,
    line: 1,
    iter_steps: 1000000,
    serial_steps: 10000000,
};

const SET: Knobs = Knobs {
    lanes: 64,
    chunk: 65536,
    threads: 2,
    line: 16,
    iter_steps: 1,
    serial_steps: 1000000000,
};

const LINES_OF_TWO: Knobs = Knobs {
    line: 2,
    ..DEFAULTS
};

/// A job whose names stand at these two places; 0 is none.
fn job(first: u32, second: u32, knobs: Knobs) -> Job {
    let mut names = [0; 17];
    names[0] = first;
    names[1] = second;
    Job {
        names,
        count: if second == 0 { 1 } else { 2 },
        knobs,
    }
}

fn gives(
    alloc: Global,
    text: &str,
    wanted: Result<Command, WordFault>,
) -> Result<bool, AllocError> {
    let mut words = Vec::new(alloc);
    for word in text.split(' ') {
        words.push(String::from_str(alloc, word)?)?;
    }
    Ok(read_words(words.as_slice()) == wanted)
}

#[test]
fn words_are_commands(rt: HostRuntime) -> Result<(), Fail> {
    let rows: [(&str, Command); 10] = [
        ("run p1.c", Command::Run(job(1, 0, DEFAULTS))),
        ("plain p9.c n.txt", Command::Plain(job(1, 2, DEFAULTS))),
        (
            "trace --lanes 64 p.c --chunk 65536 --iter-steps 1 n.txt --steps 1000000000 --line 16 --threads 2",
            Command::Trace(job(3, 8, SET)),
        ),
        ("check p1.c", Command::Check(job(1, 0, DEFAULTS))),
        ("demo 0 1", Command::Demo(0, 1, DEFAULTS)),
        (
            "demo 2147483647 100000",
            Command::Demo(2147483647, 100000, DEFAULTS),
        ),
        ("run run", Command::Run(job(1, 0, DEFAULTS))),
        ("infer p9.c n.txt", Command::Infer(job(1, 2, DEFAULTS), 0)),
        (
            "infer --loop 4294967295 p9.c --line 2 n.txt",
            Command::Infer(job(3, 6, LINES_OF_TWO), 4294967295),
        ),
        (
            "infer p9.c n.txt --loop 0",
            Command::Infer(job(1, 2, DEFAULTS), 0),
        ),
    ];
    for (text, command) in rows {
        assert!(rt; gives(rt.alloc(), text, Ok(command))?, "{text}");
    }
    Ok(())
}

#[test]
fn words_have_faults(rt: HostRuntime) -> Result<(), Fail> {
    let rows: [(&str, WordFault); 40] = [
        ("walk p1.c", WordFault::BadCommand(0)),
        ("infers p1.c n.txt", WordFault::BadCommand(0)),
        ("", WordFault::BadCommand(0)),
        ("run --lanes 65 p1.c", WordFault::BadValue(1)),
        ("run --lanes 0 p1.c", WordFault::BadValue(1)),
        ("run --lanes 04 p1.c", WordFault::BadValue(1)),
        ("run --lanes -4 p1.c", WordFault::BadValue(1)),
        ("run p1.c --chunk 65537", WordFault::BadValue(2)),
        ("run p1.c --steps 1000000001", WordFault::BadValue(2)),
        ("run p1.c --iter-steps x", WordFault::BadValue(2)),
        ("run p1.c --line 3", WordFault::BadValue(2)),
        ("run p1.c --line 0", WordFault::BadValue(2)),
        ("run p1.c --line 32", WordFault::BadValue(2)),
        ("run --line 2 --line 2 p1.c", WordFault::Repeated(3)),
        ("check p1.c --line 1", WordFault::Unknown(2)),
        ("run --lanes 2 --lanes 2 p1.c", WordFault::Repeated(3)),
        ("run p1.c --lanes", WordFault::NoValue(2)),
        ("run --lanes=2 p1.c", WordFault::Unknown(1)),
        ("run -- p1.c", WordFault::Unknown(1)),
        ("run p1.c --threads 65", WordFault::BadValue(2)),
        ("run p1.c --threads 0", WordFault::BadValue(2)),
        ("check p1.c --threads 2", WordFault::Unknown(2)),
        ("check p1.c --lanes 2", WordFault::Unknown(2)),
        ("demo -1 3", WordFault::Unknown(1)),
        ("run", WordFault::Names),
        ("infer p1.c", WordFault::Names),
        (
            "infer a 1 2 3 4 5 6 7 8 9 10 11 12 13 14 15 16 17",
            WordFault::Names,
        ),
        ("infer a b --loop 4294967296", WordFault::BadValue(3)),
        ("infer a b --loop 00", WordFault::BadValue(3)),
        ("infer a b --loop 1 --loop 1", WordFault::Repeated(5)),
        ("infer a b --loop", WordFault::NoValue(3)),
        ("run a --loop 0", WordFault::Unknown(2)),
        ("demo 1 1 --loop 0", WordFault::Unknown(3)),
        ("check a --loop 0", WordFault::Unknown(2)),
        ("run a b c", WordFault::Names),
        ("check a b", WordFault::Names),
        ("demo 1", WordFault::Names),
        ("demo 2147483648 x", WordFault::BadNumber(1)),
        ("demo 1 0", WordFault::BadNumber(2)),
        ("demo 1 100001", WordFault::BadNumber(2)),
    ];
    for (text, fault) in rows {
        assert!(rt; gives(rt.alloc(), text, Err(fault))?, "{text}");
    }
    assert!(rt; read_words(&[]) == Err(WordFault::NoCommand));
    Ok(())
}

#[test]
fn a_search_has_at_most_16_inputs(rt: HostRuntime) -> Result<(), Fail> {
    let mut names = [0; 17];
    for (k, place) in names.iter_mut().enumerate() {
        *place = k as u32 + 1;
    }
    let job = Job {
        names,
        count: 17,
        knobs: DEFAULTS,
    };
    let words = "infer a 1 2 3 4 5 6 7 8 9 10 11 12 13 14 15 16";
    assert!(rt; gives(rt.alloc(), words, Ok(Command::Infer(job, 0)))?);
    Ok(())
}
