ghost use Rattle.std.specs.Prelude.{◌≡◌, OnOk, OnErr};
ghost use Rattle.al_answers.specs.Seen.{sink_seen, Took, TookPart};
ghost use Rattle.al_answers.specs.Calls.{change};
ghost use Rattle.al_answers.specs.Outcome.{Delivers};

use crate::answers::{Answer, Status};
use al_io::{PutFault, Sink};

/// Writes an answer, standard output before standard error, and gives its status, or 5 where a put failed. Each sink
/// gets at most one put, and none of no bytes.
pub fn deliver<O: Sink, E: Sink>(answer: &Answer, out: &mut O, err: &mut E) -> u8
    ensures { Delivers answer.now (change (sink_seen O.written O.calls O.faults) out.old out.new)
        (change (sink_seen E.written E.calls E.faults) err.old err.new) result }
{
    let Ok(()) = put_some(answer.out.as_slice(), out) else {
        return Status::NotWritten.code();
    };
    let Ok(()) = put_some(answer.err.as_slice(), err) else {
        return Status::NotWritten.code();
    };
    answer.status
}

/// Puts the bytes into a sink, if there are any.
fn put_some<S: Sink>(bytes: &[u8], sink: &mut S) -> Result<(), PutFault>
    ensures took { OnOk result (Took bytes.now
        (sink_seen S.written S.calls S.faults sink.old) (sink_seen S.written S.calls S.faults sink.new)) }
    ensures part { OnErr result (TookPart bytes.now
        (sink_seen S.written S.calls S.faults sink.old) (sink_seen S.written S.calls S.faults sink.new)) }
{
    if bytes.is_empty() {
        Ok(())
    } else {
        sink.put(bytes)
    }
}
