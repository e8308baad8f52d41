//! A call of `alter` and what it leaves.

use crate::files::{File, in_memory};
use crate::wanted::Wanted;
use al_cli::{Gate, alter};
use al_io::{Cut, MemFiles, MemSink};
use sqlite_items::Items;
use std::alloc::{AllocError, Global};
use std::thread::Threads;

/// The room of each sink.
const ROOM: u32 = 1048576;

/// What fails in a call, and what is wanted of it.
#[derive(Drop)]
pub struct Asked {
    /// The numbers of the reads that fail.
    pub fails: Items<u32>,
    pub status: u8,
    pub out: Wanted,
    pub err: Wanted,
    pub reads: Option<u64>,
}

impl Asked {
    /// Nothing fails, and nothing is to be written.
    pub fn new(alloc: Global) -> Asked {
        Asked {
            fails: Items::new(alloc),
            status: 0,
            out: Wanted::new(alloc),
            err: Wanted::new(alloc),
            reads: None,
        }
    }
}

fn words_of(alloc: Global, text: &str) -> Result<Vec<String>, AllocError> {
    let mut words = Vec::new(alloc);
    for word in text.split_whitespace() {
        words.push(String::from_str(alloc, word)?)?;
    }
    Ok(words)
}

/// A sink whose first put takes only so many bytes.
fn sink(alloc: Global, taken: Option<u32>) -> Result<MemSink, AllocError> {
    let mut cuts = Items::new(alloc);
    if let Some(taken) = taken {
        cuts.push(Cut { call: 0, taken })?;
    }
    MemSink::new(alloc, ROOM, cuts)
}

/// Whether the call of these words over these files gives what is asked.
pub fn gives<R: Threads + Sync, G: Gate>(
    rt: &R,
    alloc: Global,
    words: &str,
    files: &[File],
    asked: &Asked,
    gate: &G,
) -> Result<bool, AllocError> {
    let words = words_of(alloc, words)?;
    let fails = Items::from_slice(alloc, asked.fails.as_slice())?;
    let mut files = MemFiles::new(in_memory(alloc, files)?, fails);
    let mut out = sink(alloc, asked.out.taken)?;
    let mut err = sink(alloc, asked.err.taken)?;
    let status = alter(
        rt,
        alloc,
        words.as_slice(),
        &mut files,
        &mut out,
        &mut err,
        gate,
    );
    let reads = asked.reads.unwrap_or(files.calls());
    Ok(
        status == asked.status
            && asked.out.are(out.bytes(), out.calls())
            && asked.err.are(err.bytes(), err.calls())
            && files.calls() == reads,
    )
}
