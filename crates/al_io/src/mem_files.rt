//! Files in memory, some of whose reads may be made to fail.
ghost use Rattle.std.specs.Prelude.{◌≡◌, ◌≢◌, ◌==◌, ◌↔◌, ◌≤◌, take, find, length, false, IsTrue, IfOk, IsErrOf};
ghost use Rattle.std.specs.Option.{option_copied};
ghost use Rattle.std.specs.List.{list_any};
ghost use Rattle.al_io.specs.Contents.{contents_of, beginning_of};
ghost use Rattle.al_io.specs.MemFiles.{has_name, named};

use crate::{Files, ReadFault};
use sqlite_items::Items;
use std::alloc::Global;
use std::marker::Model;

/// A file in memory.
#[derive(Debug, Drop)]
pub struct MemFile {
    pub name: String,
    pub bytes: Items<u8>,
}

/// Files in memory. They tell what they hold and how many reads there were.
#[derive(Debug, Drop)]
pub struct MemFiles {
    files: Items<MemFile>,
    fails: Items<u32>,
    calls: u64,
    faults: u64,
}

impl Model for MemFiles {
    ghost use Rattle.al_io.specs.MemFiles.{FilesInMemory, named};

    ghost Value = { FilesInMemory };

    ghost view = { λ m. record { files = named m.files; fails = m.fails; calls = m.calls; faults = m.faults } };
}

impl MemFiles {
    ghost use Rattle.std.specs.Prelude.{nat_eq};
    ghost use Rattle.std.specs.Map.{keys_of};
    ghost use Rattle.std.specs.Str.{bytes_eq};
    ghost use Rattle.al_io.specs.Distinct.{are_distinct};
    ghost use Rattle.al_io.specs.MemFiles.{named};

    /// Files that have not been read. The reads whose numbers, from 0, stand in `fails` will fail.
    pub fn new(files: Items<MemFile>, fails: Items<u32>) -> MemFiles
        requires { IsTrue (are_distinct bytes_eq (keys_of (named files))) }
        ensures { result ≡ record { files = named files; fails = fails; calls = 0; faults = 0 } }
    {
        MemFiles {
            files,
            fails,
            calls: 0,
            faults: 0,
        }
    }

    /// The same files after so many reads, of which so many have failed.
    #[cfg(test)]
    pub(crate) fn after(self, calls: u64, faults: u64) -> MemFiles
        ensures { result ≡ record self { calls = calls; faults = faults } }
    {
        MemFiles {
            files: self.files,
            fails: self.fails,
            calls,
            faults,
        }
    }

    /// How many reads there were: 18446744073709551615 where there were more.
    pub fn calls(&self) -> u64
        ensures { result ≡ self.now.calls }
    {
        self.calls
    }

    /// How many of them have failed: 18446744073709551615 where there were more.
    pub fn faults(&self) -> u64
        ensures { result ≡ self.now.faults }
    {
        self.faults
    }
}

impl Files for MemFiles {
    ghost use Rattle.std.specs.Prelude.{Some};
    ghost use Rattle.al_io.specs.Contents.{contents_of, beginning_of};
    ghost use Rattle.al_io.specs.Counts.{GoesOn};
    ghost use Rattle.al_io.specs.MemFiles.{next_fails, after_read};

    ghost contents = { λ m. Some m.files };

    ghost calls = { λ m. Some m.calls };

    ghost faults = { λ m. m.faults };

    fn read(&mut self, alloc: Global, name: &str, most: usize) -> Result<Items<u8>, ReadFault>
        ensures failed { IsErrOf result ReadFault.Failed ↔ IsTrue (next_fails self.old) }
        ensures no_such { next_fails self.old ≡ false
            → (IsErrOf result ReadFault.NoSuch ↔ (contents_of self.old.files name.now ≡ None)) }
        ensures read { IfOk result (λ bytes. beginning_of self.old.files name.now most ≡ Some bytes) }
        ensures after { self.new ≡ after_read self.old }
        ensures faults { GoesOn self.old.faults self.new.faults }
    {
        let fails = is_listed(self.fails.as_slice(), self.calls);
        self.calls = self.calls.saturating_add(1);
        self.faults = self.faults.saturating_add(u64::from(fails));
        if fails {
            return Err(ReadFault::Failed);
        }
        beginning(alloc, self.files.as_slice(), name, most)
    }
}

/// Whether the call of this number is one of those that fail.
fn is_listed(fails: &[u32], call: u64) -> bool
    ensures { result ≡ list_any (λ number. number == call) fails.now }
{
    fails.iter().any(|number| u64::from(*number) == call)
}

/// The first `most` bytes of the file of this name.
#[tactic(auto, using(crate::proofs::LookUps::named_lookup))]
fn beginning(
    alloc: Global,
    files: &[MemFile],
    name: &str,
    most: usize,
) -> Result<Items<u8>, ReadFault>
    ensures no_such { IsErrOf result ReadFault.NoSuch ↔ (contents_of (named files.now) name.now ≡ None) }
    ensures no_fault { result ≢ Err ReadFault.Failed }
    ensures read { IfOk result (λ bytes. beginning_of (named files.now) name.now most ≡ Some bytes) }
{
    let file = file_named(files, name).ok_or(ReadFault::NoSuch)?;
    Ok(Items::from_slice(alloc, first(file.bytes.as_slice(), most))?)
}

/// The first file of this name.
fn file_named<'a>(files: &'a [MemFile], name: &str) -> Option<&'a MemFile>
    ensures { option_copied result ≡ find (has_name name.now) files.now }
{
    files.iter().find(|file| name == file.name.as_str())
}

/// The first `most` bytes, or all where there are fewer.
fn first(bytes: &[u8], most: usize) -> &[u8]
    ensures { result.now ≡ take most bytes.now }
{
    if most < bytes.len() {
        &bytes[..most]
    } else {
        bytes
    }
}
