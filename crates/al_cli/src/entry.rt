//! How the program gets its words, and with which status it ends.

ghost use Rattle.al_answers.specs.Calls.{change};
ghost use Rattle.al_answers.specs.Seen.{files_seen, sink_seen};
ghost use Rattle.al_cli.specs.Endings.{Ends};

use crate::top_call::alter;
use al_answers::Status;
use al_engine::Gate;
use al_io::{Files, Sink};
use std::alloc::Global;
use std::rt::Env;
use std::thread::Threads;
use std::{env, io};

/// Why the words after the program's name cannot be had.
#[derive(Clone, Copy, Debug, PartialEq, Eq)]
pub enum NoWords {
    Memory,
    /// A word is no text.
    NotText,
}

/// The words after the program's name. What the system gives is in no clause.
pub fn words<R: Env + AllocGlobal>(rt: &R) -> Result<Vec<String>, NoWords> {
    let given = match env::args(rt) {
        Ok(given) => given,
        Err(error) => return Err(cause_of(&error)),
    };
    let mut words = Vec::new(rt.alloc());
    for word in given.skip(1) {
        words.push(word).map_err(|_| NoWords::Memory)?;
    }
    Ok(words)
}

fn cause_of(error: &io::Error) -> NoWords {
    if error.kind() == io::ErrorKind::InvalidData {
        NoWords::NotText
    } else {
        NoWords::Memory
    }
}

/// The whole program, given its words: it ends with the status of `alter`, with 6 where there is no memory for the
/// words, and with 10 where a word is no text. With the latter two nothing is read or written.
pub fn program<R: Threads + Sync, F: Files, O: Sink, E: Sink, G: Gate>(
    rt: &R,
    alloc: Global,
    words: &Result<Vec<String>, NoWords>,
    files: &mut F,
    out: &mut O,
    err: &mut E,
    gate: &G,
) -> u8
    ensures { Ends words.now (record {
      files = change (files_seen F.contents F.calls F.faults) files.old files.new;
      out = change (sink_seen O.written O.calls O.faults) out.old out.new;
      err = change (sink_seen E.written E.calls E.faults) err.old err.new;
      status = result;
    }) }
{
    match words {
        Ok(words) => alter(rt, alloc, words.as_slice(), files, out, err, gate),
        Err(NoWords::Memory) => Status::NoMemory.code(),
        Err(NoWords::NotText) => Status::NotText.code(),
    }
}
