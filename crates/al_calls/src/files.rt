//! The files that lie there.
ghost use Rattle.std.specs.Prelude.{◌≡◌, not, IsTrue, IfOk};
ghost use Rattle.std.specs.List.{list_all};
ghost use Rattle.std.specs.Map.{keys_of};
ghost use Rattle.std.specs.Str.{bytes_eq};
ghost use Rattle.al_io.specs.Distinct.{are_distinct};
ghost use Rattle.al_io.specs.MemFiles.{named};

use al_io::MemFile;
use sqlite_items::Items;
use std::alloc::{AllocError, Global};

/// A name and its text.
#[derive(Drop)]
pub struct File {
    pub name: String,
    pub text: String,
}

impl File {
    pub fn new(alloc: Global, name: &str, text: &str) -> Result<File, AllocError> {
        Ok(File {
            name: String::from_str(alloc, name)?,
            text: String::from_str(alloc, text)?,
        })
    }
}

/// Whether no file has this name.
fn has_none(files: &[MemFile], name: &str) -> bool
    ensures { result ≡ list_all (λ other. not (bytes_eq name.now other)) (keys_of (named files.now)) }
{
    match files {
        [file, files @ ..] => {
            if name == file.name.as_str() {
                return false;
            }
            has_none(files, name)
        }
        [] => true,
    }
}

/// Whether no two files have one name.
fn differ(files: &[MemFile]) -> bool
    ensures { result ≡ are_distinct bytes_eq (keys_of (named files.now)) }
{
    match files {
        [file, files @ ..] => {
            if !has_none(files, file.name.as_str()) {
                return false;
            }
            differ(files)
        }
        [] => true,
    }
}

/// The files in memory. Fails where two have one name.
pub fn in_memory(alloc: Global, files: &[File]) -> Result<Items<MemFile>, AllocError>
    ensures { IfOk result (λ files. IsTrue (are_distinct bytes_eq (keys_of (named files)))) }
{
    let mut items = Items::new(alloc);
    for file in files {
        items.push(MemFile {
            name: String::from_str(alloc, file.name.as_str())?,
            bytes: Items::from_slice(alloc, file.text.as_bytes())?,
        })?;
    }
    if differ(items.as_slice()) {
        Ok(items)
    } else {
        Err(AllocError)
    }
}
