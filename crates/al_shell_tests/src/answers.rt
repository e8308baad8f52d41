//! That calls succeed with ample memory, once each.
ghost use Rattle.std.specs.Prelude.{◌≡◌, [], ◌∷◌, IfOk};
ghost use Rattle.std.specs.Map.{keys_of};
ghost use Rattle.al_io.specs.MemFiles.{named};

use al_answers::*;
use al_io::{MemFile, MemFiles, MemSink};
use sqlite_items::Items;
use std::alloc::{AllocError, Global};
use std::test::Fail;

fn one_file(alloc: Global, name: &str, text: &str) -> Result<Items<MemFile>, AllocError>
    ensures { IfOk result (λ files. keys_of (named files) ≡ name.now ∷ []) }
{
    let mut files = Items::new(alloc);
    files.push(MemFile {
        name: String::from_str(alloc, name)?,
        bytes: Items::from_slice(alloc, text.as_bytes())?,
    })?;
    Ok(files)
}

fn reads(alloc: Global, name: &str, most: usize, wanted: &str) -> Result<bool, AllocError> {
    let mut files = MemFiles::new(one_file(alloc, "a", "hello")?, Items::new(alloc));
    match read_file(alloc, &mut files, name, most)? {
        FileRead::Bytes(bytes) => Ok(bytes.as_slice() == wanted.as_bytes()),
        FileRead::Unread(answer) => {
            Ok(answer.status == 4 && answer.err.as_slice() == wanted.as_bytes())
        }
    }
}

#[test]
fn files_are_read(rt: HostRuntime) -> Result<(), Fail> {
    assert!(rt; reads(rt.alloc(), "a", 9, "hello")?);
    assert!(rt; reads(rt.alloc(), "a", 2, "he")?);
    assert!(rt; reads(rt.alloc(), "b", 2, "alter: no such file: b\n")?);
    Ok(())
}

#[test]
fn answers_are_delivered(rt: HostRuntime) -> Result<(), Fail> {
    let mut out = MemSink::new(rt.alloc(), 100, Items::new(rt.alloc()))?;
    let mut err = MemSink::new(rt.alloc(), 100, Items::new(rt.alloc()))?;
    let answer = Answer {
        status: 3,
        out: Items::from_slice(rt.alloc(), b"x")?,
        err: line(rt.alloc(), b"no ", b"y", b"!")?,
    };
    assert!(rt; deliver(&answer, &mut out, &mut err) == 3);
    assert!(rt; out.bytes() == b"x".as_slice());
    assert!(rt; err.bytes() == b"alter: no y!\n".as_slice());
    Ok(())
}
