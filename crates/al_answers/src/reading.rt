ghost use Rattle.std.specs.Prelude.{◌≡◌, IfOk, OnErr, string_bytes};
ghost use Rattle.al_answers.specs.Plans as spec;
ghost use Rattle.al_answers.specs.Lines as lines;
ghost use Rattle.al_answers.specs.Seen.{files_seen, TriesOnce};
ghost use Rattle.al_answers.specs.Outcome.{Reading};

use crate::answers::{Answer, Status, failed};
use crate::lines::line;
use al_io::{Files, ReadFault};
use sqlite_items::Items;
use std::alloc::{AllocError, Global};

/// What reading a file comes to: its first bytes, or the answer that says that it was not read.
#[derive(Drop)]
pub enum FileRead {
    Bytes(Items<u8>),
    Unread(Answer),
}

/// Reads the first `most` bytes of the file of this name, or all of them where it has no more.
pub fn read_file<F: Files>(
    alloc: Global,
    files: &mut F,
    name: &str,
    most: usize,
) -> Result<FileRead, AllocError>
    ensures ok { IfOk result (Reading name.now most
        (files_seen F.contents F.calls F.faults files.old) (files_seen F.contents F.calls F.faults files.new)) }
    ensures err { OnErr result (TriesOnce
        (files_seen F.contents F.calls F.faults files.old) (files_seen F.contents F.calls F.faults files.new)) }
{
    match files.read(alloc, name, most) {
        Ok(bytes) => Ok(FileRead::Bytes(bytes)),
        Err(ReadFault::Failed) => Ok(FileRead::Unread(unread(alloc, name.as_bytes())?)),
        Err(ReadFault::NoSuch) => Ok(FileRead::Unread(absent(alloc, name.as_bytes())?)),
        Err(ReadFault::Memory) => Err(AllocError),
    }
}

fn unread(alloc: Global, name: &[u8]) -> Result<Answer, AllocError>
    ensures { IfOk result (λ a. a ≡ spec.failed 4 (lines.unread_line name.now)) }
{
    Ok(failed(
        alloc,
        Status::NotRead,
        line(alloc, b"cannot read ", name, b"")?,
    ))
}

fn absent(alloc: Global, name: &[u8]) -> Result<Answer, AllocError>
    ensures { IfOk result (λ a. a ≡ spec.absent name.now) }
{
    Ok(failed(
        alloc,
        Status::NotRead,
        line(alloc, b"no such file: ", name, b"")?,
    ))
}
