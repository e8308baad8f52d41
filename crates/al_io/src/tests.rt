//! What no clause says: that calls succeed with ample memory, and what the adapters do at real files
//! and streams, and at ones that fail in mid-stream.
ghost use Rattle.std.specs.Prelude.{◌≡◌, [], ◌∷◌, IfOk};
ghost use Rattle.std.specs.Map.{keys_of};
ghost use Rattle.al_io.specs.MemFiles.{named};

use crate::host_files::read_up_to;
use crate::{
    Cut, Files, HostErr, HostFiles, HostOut, HostStream, MemFile, MemFiles, MemSink, PutFault,
    ReadFault, Sink,
};
use sqlite_items::Items;
use std::alloc::{AllocError, Global};
use std::io::{Read, Write};
use std::test::Fail;
use std::{fs, io};

fn one_file(alloc: Global, name: &str, bytes: &[u8]) -> Result<Items<MemFile>, AllocError>
    ensures { IfOk result (λ files. keys_of (named files) ≡ name.now ∷ []) }
{
    let mut files = Items::new(alloc);
    files.push(MemFile {
        name: String::from_str(alloc, name)?,
        bytes: Items::from_slice(alloc, bytes)?,
    })?;
    Ok(files)
}

/// Whether the next read answers this.
fn reads<F: Files>(
    files: &mut F,
    alloc: Global,
    name: &str,
    most: usize,
    want: Result<&[u8], ReadFault>,
) -> bool {
    match (files.read(alloc, name, most), want) {
        (Ok(bytes), Ok(want)) => bytes.as_slice() == want,
        (Err(fault), Err(want)) => fault == want,
        _ => false,
    }
}

#[test]
fn files_in_memory(rt: HostRuntime) -> Result<(), Fail> {
    let alloc = rt.alloc();
    let files = one_file(alloc, "n.txt", b"1 2 3 4\n")?;
    let mut files = MemFiles::new(files, Items::from_slice(alloc, &[1])?);
    let cases: [(&str, usize, Result<&[u8], ReadFault>); 5] = [
        ("n.txt", 100, Ok(b"1 2 3 4\n")),
        ("n.txt", 100, Err(ReadFault::Failed)),
        ("n.txt", 3, Ok(b"1 2")),
        ("n.tx", 3, Err(ReadFault::NoSuch)),
        ("n.txt", 0, Ok(b"")),
    ];
    for (name, most, want) in cases {
        assert!(rt; reads(&mut files, alloc, name, most, want), "{name} {most}");
    }
    assert_eq!(rt; (files.calls(), files.faults()), (5, 1));
    Ok(())
}

/// Whether puts of these texts leave this in a sink with this room, and so many of them fail.
fn leaves(
    alloc: Global,
    room: u32,
    cut: Cut,
    puts: &[&str],
    want: &[u8],
    faults: u64,
) -> Result<bool, AllocError> {
    let mut cuts = Items::new(alloc);
    cuts.push(cut)?;
    let mut sink = MemSink::new(alloc, room, cuts)?;
    for text in puts {
        let before = sink.faults();
        let put = sink.put(text.as_bytes());
        if put.is_err() == (sink.faults() == before) {
            return Ok(false);
        }
    }
    Ok(sink.bytes() == want && sink.faults() == faults)
}

#[test]
fn a_sink_in_memory(rt: HostRuntime) -> Result<(), Fail> {
    let alloc = rt.alloc();
    let ample = 1_048_576;
    let cases: [(u32, Cut, [&str; 2], &[u8], u64); 6] = [
        (
            ample,
            Cut { call: 9, taken: 0 },
            ["1 2\n", "ok\n"],
            b"1 2\nok\n",
            0,
        ),
        (
            ample,
            Cut { call: 0, taken: 3 },
            ["1 2\n", "ok\n"],
            b"1 2ok\n",
            1,
        ),
        (
            ample,
            Cut { call: 1, taken: 9 },
            ["1 2\n", "ok\n"],
            b"1 2\nok\n",
            1,
        ),
        (2, Cut { call: 9, taken: 0 }, ["1 2\n", "ok\n"], b"1 ", 2),
        (2, Cut { call: 0, taken: 3 }, ["1 2\n", ""], b"1 ", 1),
        (3, Cut { call: 0, taken: 0 }, ["1", "1 2"], b"1 2", 1),
    ];
    for (room, cut, puts, want, faults) in cases {
        assert!(rt;
            leaves(alloc, room, cut, &puts, want, faults)?,
            "{room} {cut:?}"
        );
    }
    Ok(())
}

#[test]
fn counts_end_at_their_last_value(rt: HostRuntime) -> Result<(), Fail> {
    let alloc = rt.alloc();
    let files = one_file(alloc, "n.txt", b"1")?;
    let mut files = MemFiles::new(files, Items::new(alloc)).after(u64::MAX, 7);
    assert!(rt; reads(&mut files, alloc, "n.txt", 9, Ok(b"1")));
    assert_eq!(rt; (files.calls(), files.faults()), (u64::MAX, 7));
    let mut sink = MemSink::new(alloc, 0, Items::new(alloc))?.after(u64::MAX - 1, u64::MAX);
    assert_eq!(rt; sink.put(b"1"), Err(PutFault::Failed));
    assert_eq!(rt; (sink.calls(), sink.faults()), (u64::MAX, u64::MAX));
    assert_eq!(rt; sink.put(b""), Ok(()));
    assert_eq!(rt; (sink.calls(), sink.faults()), (u64::MAX, u64::MAX));
    Ok(())
}

#[test]
fn files_and_streams_of_the_system(rt: HostRuntime) -> Result<(), Fail> {
    const PATH: &str = "al_io_test.txt";
    let alloc = rt.alloc();
    fs::write(&rt, PATH, b"1 2 3 4\n".as_slice())?;
    let mut files = HostFiles::new(&rt);
    assert!(rt; reads(&mut files, alloc, PATH, 100, Ok(b"1 2 3 4\n")));
    assert!(rt; reads(&mut files, alloc, PATH, 3, Ok(b"1 2")));
    assert_eq!(rt; files.faults(), 0);
    fs::remove_file(&rt, PATH)?;
    assert!(rt; reads(&mut files, alloc, PATH, 3, Err(ReadFault::Failed)));
    assert_eq!(rt; files.faults(), 1);
    let mut out = HostOut::new(rt.stdout());
    assert_eq!(rt;
        (out.put(b"to out\n"), out.put(b""), out.faults()),
        (Ok(()), Ok(()), 0)
    );
    let mut err = HostErr::new(rt.stderr());
    assert_eq!(rt; (err.put(b"to err\n"), err.faults()), (Ok(()), 0));
    Ok(())
}

/// Gives one byte a turn, then nothing or an error, and counts the turns.
#[derive(Drop)]
struct Slow {
    left: u8,
    breaks: bool,
    turns: u64,
}

impl Read for Slow {
    fn read(&mut self, buf: &mut [u8]) -> io::Result<usize> {
        self.turns = self.turns.saturating_add(1);
        if buf.is_empty() || self.left == 0 {
            return if self.breaks {
                Err(io::ErrorKind::Other.into())
            } else {
                Ok(0)
            };
        }
        buf[0] = self.left;
        self.left -= 1;
        Ok(1)
    }
}

impl Write for Slow {
    fn write(&mut self, buf: &[u8]) -> io::Result<usize> {
        self.turns = self.turns.saturating_add(1);
        if buf.is_empty() || self.left == 0 {
            return if self.breaks {
                Err(io::ErrorKind::Other.into())
            } else {
                Ok(0)
            };
        }
        self.left -= 1;
        Ok(1)
    }

    fn flush(&mut self) -> io::Result<()> {
        Ok(())
    }
}

fn one_a_turn(left: u8, breaks: bool) -> Slow {
    Slow {
        left,
        breaks,
        turns: 0,
    }
}

#[test]
fn a_read_in_pieces(rt: HostRuntime) -> Result<(), Fail> {
    let alloc = rt.alloc();
    let mut whole = one_a_turn(3, false);
    assert_eq!(rt;
        read_up_to(alloc, &mut whole, 9)?.as_slice(),
        [3, 2, 1].as_slice()
    );
    assert_eq!(rt; whole.turns, 4);
    let mut part = one_a_turn(3, true);
    assert_eq!(rt;
        read_up_to(alloc, &mut part, 2)?.as_slice(),
        [3, 2].as_slice()
    );
    assert_eq!(rt; part.turns, 2);
    let mut broken = one_a_turn(3, true);
    assert!(rt; matches!(read_up_to(alloc, &mut broken, 9), Err(ReadFault::Failed)));
    assert_eq!(rt; broken.turns, 4);
    Ok(())
}

#[test]
fn a_put_in_pieces(rt: HostRuntime) -> Result<(), Fail> {
    for (left, breaks, want) in [
        (3, true, Ok(())),
        (2, true, Err(PutFault::Failed)),
        (2, false, Err(PutFault::Failed)),
    ] {
        let mut stream = HostStream::new(one_a_turn(left, breaks));
        assert_eq!(rt; stream.put(b"1 2"), want);
        assert_eq!(rt; stream.faults(), u64::from(want.is_err()));
    }
    Ok(())
}
