ghost use Rattle.std.specs.Prelude.{map, string_bytes};
ghost use Rattle.al_answers.specs.Calls.{change};
ghost use Rattle.al_answers.specs.Seen.{files_seen, sink_seen};
ghost use Rattle.al_cli.specs.Promises.{Promises};

use crate::serving::serve;
use al_answers::{Status, deliver};
use al_engine::Gate;
use al_io::{Files, Sink};
use std::alloc::Global;
use std::thread::Threads;

/// Does what the words after the program's name ask for, and gives the status to end with: 0 done, 1 program refused,
/// 2 words refused, 3 ended by a trap, 4 not read, 5 not written, 6 want of memory, 7 input refused. All bytes are
/// gathered first, and each sink gets at most one put, standard output before standard error. The gate is called round
/// the run of each chunk, on the thread that runs it.
///
/// What is promised of the call, clause by clause, stands in `specs/Promises.antt`.
pub fn alter<R: Threads + Sync, F: Files, O: Sink, E: Sink, G: Gate>(
    rt: &R,
    alloc: Global,
    words: &[String],
    files: &mut F,
    out: &mut O,
    err: &mut E,
    gate: &G,
) -> u8
    ensures { Promises (map string_bytes words.now) (record {
      files = change (files_seen F.contents F.calls F.faults) files.old files.new;
      out = change (sink_seen O.written O.calls O.faults) out.old out.new;
      err = change (sink_seen E.written E.calls E.faults) err.old err.new;
      status = result;
    }) }
{
    match serve(rt, alloc, words, files, gate) {
        Ok(answer) => deliver(&answer, out, err),
        Err(_) => Status::NoMemory.code(),
    }
}
