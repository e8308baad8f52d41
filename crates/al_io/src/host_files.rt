//! The files of the operating system.
ghost use Rattle.std.specs.Prelude.{◌≡◌, ◌≢◌, ◌≤◌, take, length, IfOk, IfSome, IsErr, IsErrOf};

use crate::{Files, ReadFault};
use sqlite_items::Items;
use std::alloc::Global;
use std::fmt::{Debug, Formatter};
use std::io::Read;
use std::marker::Model;
use std::{fmt, fs, io, rt};

/// How many bytes are asked for at a time.
const CHUNK: usize = 8192;

/// The files of the operating system, seen as the number of reads that have failed. They tell neither
/// what they hold nor how many reads there were. A file that is missing is a fault, and so is a read that
/// an interrupt ends.
#[derive(Drop)]
pub struct HostFiles<'a, R> {
    system: &'a R,
    faults: u64,
}

impl<'a, R> Model for HostFiles<'a, R> {
    ghost use Rattle.std.specs.Prelude.{ℕ};

    ghost Value = { ℕ };

    ghost view = { λ files. files.faults };
}

impl<'a, R> HostFiles<'a, R> {
    /// The files that this runtime opens.
    pub fn new(system: &'a R) -> HostFiles<'a, R>
        ensures { result ≡ 0 }
    {
        HostFiles { system, faults: 0 }
    }

    /// How many reads have failed: 18446744073709551615 where there were more.
    pub fn faults(&self) -> u64
        ensures { result ≡ self.now }
    {
        self.faults
    }
}

impl<R: rt::Files> Files for HostFiles<'_, R> {
    ghost use Rattle.std.specs.Prelude.{None};
    ghost use Rattle.al_io.specs.Counts.{counted_on, GoesOn};

    ghost contents = { λ _. None };

    ghost calls = { λ _. None };

    ghost faults = { λ files. files };

    fn read(&mut self, alloc: Global, name: &str, most: usize) -> Result<Items<u8>, ReadFault>
        ensures bound { IfOk result (λ bytes. length bytes ≤ most) }
        ensures present { result ≢ Err ReadFault.NoSuch }
        ensures no_fault { result ≢ Err ReadFault.Failed → self.new ≡ self.old }
        ensures failed { IsErrOf result ReadFault.Failed → self.new ≡ counted_on 1 self.old }
        ensures faults { GoesOn self.old self.new }
    {
        let read = read_opened(alloc, fs::open(self.system, name), most);
        let failed = matches!(read, Err(ReadFault::Failed));
        self.faults = self.faults.saturating_add(u64::from(failed));
        read
    }
}

impl<R> Debug for HostFiles<'_, R> {
    fn fmt<W: fmt::Write>(&self, f: &mut Formatter<W>) -> fmt::Result {
        f.debug_struct("HostFiles")
            .field("faults", &self.faults)
            .finish_non_exhaustive()
    }
}

/// Reads a file up to the end or up to `most` bytes, where it could be opened.
fn read_opened<R: Read + Drop>(
    alloc: Global,
    opened: io::Result<R>,
    most: usize,
) -> Result<Items<u8>, ReadFault>
    ensures closed { IsErr opened → IsErrOf result ReadFault.Failed }
    ensures told { IfOk opened (λ file. IfOk result (λ bytes.
        IfSome (R.remaining file) (λ all. bytes ≡ take most all))) }
    ensures bound { IfOk result (λ bytes. length bytes ≤ most) }
    ensures present { result ≢ Err ReadFault.NoSuch }
{
    match opened {
        Ok(mut file) => read_up_to(alloc, &mut file, most),
        Err(_) => Err(ReadFault::Failed),
    }
}

/// Reads up to the end or up to `most` bytes. A turn that gives no byte is the end, and each other one
/// gives at least one, so there are at most `most` of them.
pub(crate) fn read_up_to<R: Read>(
    alloc: Global,
    reader: &mut R,
    most: usize,
) -> Result<Items<u8>, ReadFault>
    ensures told { IfOk result (λ bytes. IfSome (R.remaining reader.old) (λ all. bytes ≡ take most all)) }
    ensures bound { IfOk result (λ bytes. length bytes ≤ most) }
    ensures present { result ≢ Err ReadFault.NoSuch }
{
    let mut bytes = Vec::new(alloc);
    let mut chunk = [0; CHUNK];
    while bytes.len() < most {
        let room = CHUNK.min(most - bytes.len());
        let Ok(count) = reader.read(&mut chunk[..room]) else {
            return Err(ReadFault::Failed);
        };
        if count == 0 {
            break;
        }
        bytes.extend_from_slice(&chunk[..count])?;
    }
    Ok(Items::from_vec(bytes))
}
