//! A sink in memory, some of whose puts may be cut short.
ghost use Rattle.std.specs.Prelude.{◌≡◌, ◌↔◌, [], IsTrue, IsErr, IfOk};
ghost use Rattle.al_io.specs.MemSink.{numbers_of, cut_at};

use crate::reserved::Reserved;
use crate::{PutFault, Sink};
use sqlite_items::Items;
use std::alloc::{AllocError, Global};
use std::marker::Model;

/// A put that is cut short.
#[derive(Clone, Copy, Debug, PartialEq, Eq)]
pub struct Cut {
    /// The number of the put, from 0.
    pub call: u32,
    /// How many bytes it takes at most.
    pub taken: u32,
}

/// A sink in memory with a fixed room. It tells what it holds and how many puts there were.
#[derive(Debug, Drop)]
pub struct MemSink {
    kept: Reserved,
    cuts: Items<Cut>,
    calls: u64,
    faults: u64,
}

impl Model for MemSink {
    ghost use Rattle.al_io.specs.MemSink.{SinkInMemory};

    ghost Value = { SinkInMemory };

    ghost view = { λ s. record {
      bytes = s.kept.bytes.items;
      room = s.kept.room;
      cuts = s.cuts;
      calls = s.calls;
      faults = s.faults;
    } };
}

impl MemSink {
    ghost use Rattle.std.specs.Prelude.{nat_eq};
    ghost use Rattle.al_io.specs.Distinct.{are_distinct};

    /// An empty sink with room for `room` bytes, which it takes at once. A put that is cut short takes
    /// no more bytes than its cut says, and fails. So does a put that finds too little room.
    pub fn new(alloc: Global, room: u32, cuts: Items<Cut>) -> Result<MemSink, AllocError>
        requires { IsTrue (are_distinct nat_eq (numbers_of cuts)) }
        ensures { IfOk result (λ sink.
            sink ≡ record { bytes = []; room = room; cuts = cuts; calls = 0; faults = 0 }) }
    {
        Ok(MemSink {
            kept: Reserved::new(alloc, room as usize)?,
            cuts,
            calls: 0,
            faults: 0,
        })
    }

    /// The bytes that the puts so far have left.
    pub fn bytes(&self) -> &[u8]
        ensures { result.now ≡ self.now.bytes }
    {
        self.kept.as_slice()
    }

    /// The same sink after so many puts, of which so many have failed.
    #[cfg(test)]
    pub(crate) fn after(self, calls: u64, faults: u64) -> MemSink
        ensures { result ≡ record self { calls = calls; faults = faults } }
    {
        MemSink {
            kept: self.kept,
            cuts: self.cuts,
            calls,
            faults,
        }
    }

    /// How many puts there were: 18446744073709551615 where there were more.
    pub fn calls(&self) -> u64
        ensures { result ≡ self.now.calls }
    {
        self.calls
    }

    /// How many of them have failed: 18446744073709551615 where there were more.
    pub fn faults(&self) -> u64
        ensures { result ≡ self.now.faults }
    {
        self.faults
    }
}

impl Sink for MemSink {
    ghost use Rattle.std.specs.Prelude.{Some};
    ghost use Rattle.al_io.specs.Counts.{GoesOn};
    ghost use Rattle.al_io.specs.MemSink.{put_fails, after_put};

    ghost written = { λ s. Some s.bytes };

    ghost calls = { λ s. Some s.calls };

    ghost faults = { λ s. s.faults };

    fn put(&mut self, bytes: &[u8]) -> Result<(), PutFault>
        ensures failed { IsErr result ↔ IsTrue (put_fails self.old bytes.now) }
        ensures after { self.new ≡ after_put self.old bytes.now }
        ensures faults { GoesOn self.old.faults self.new.faults }
    {
        let cut = cut_of(self.cuts.as_slice(), self.calls);
        let left = self.kept.left();
        let may_take = cut.map_or(bytes.len(), |taken| bytes.len().min(taken as usize));
        self.kept.fill(&bytes[..left.min(may_take)]);
        let fails = cut.is_some() || left < bytes.len();
        self.calls = self.calls.saturating_add(1);
        self.faults = self.faults.saturating_add(u64::from(fails));
        if fails {
            return Err(PutFault::Failed);
        }
        Ok(())
    }
}

/// How many bytes the put of this number takes at most, where it is cut short.
fn cut_of(cuts: &[Cut], call: u64) -> Option<u32>
    ensures { result ≡ cut_at cuts.now call }
{
    cuts.iter()
        .find(|cut| u64::from(cut.call) == call)
        .map(|cut| cut.taken)
}
