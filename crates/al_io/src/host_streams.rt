//! Standard output and standard error.
ghost use Rattle.std.specs.Prelude.{◌≡◌, ℕ, take, OnOk, OnErr};
ghost use Rattle.std.specs.Io.KnownBytes.{Appends};

use crate::{PutFault, Sink};
use std::io::Write;
use std::rt::{Stderr, Stdout};

/// A stream as a sink. It tells neither what it holds nor how many puts there were. A write that fails,
/// be it by an interrupt, and one that takes nothing are faults.
#[derive(Debug, Drop)]
pub struct HostStream<W> {
    to: W,
    faults: u64,
}

/// Standard output.
pub type HostOut = HostStream<Stdout>;

/// Standard error.
pub type HostErr = HostStream<Stderr>;

impl<W> HostStream<W> {
    ghost use Rattle.al_io.specs.HostStream.{stream_of, faults_of};

    /// This stream, of which no put has failed.
    pub fn new(to: W) -> HostStream<W>
        ensures stream { stream_of result ≡ to }
        ensures faults { faults_of result ≡ 0 }
    {
        HostStream { to, faults: 0 }
    }

    /// How many puts have failed: 18446744073709551615 where there were more.
    pub fn faults(&self) -> u64
        ensures { result ≡ faults_of self.now }
    {
        self.faults
    }
}

impl<W: Write> Sink for HostStream<W> {
    ghost use Rattle.std.specs.Prelude.{None};
    ghost use Rattle.al_io.specs.Counts.{counted_on, GoesOn};
    ghost use Rattle.al_io.specs.HostStream.{stream_of, faults_of};

    ghost written = { λ _. None };

    ghost calls = { λ _. None };

    ghost faults = { faults_of };

    fn put(&mut self, bytes: &[u8]) -> Result<(), PutFault>
        // Where the stream says what it holds.
        ensures all { OnOk result
            (Appends (W.contents (stream_of self.old)) (W.contents (stream_of self.new)) bytes.now) }
        ensures prefix { OnErr result ((n : ℕ)
            × Appends (W.contents (stream_of self.old)) (W.contents (stream_of self.new)) (take n bytes.now)) }

        ensures no_fault { OnOk result (faults_of self.new ≡ faults_of self.old) }
        ensures failed { OnErr result (faults_of self.new ≡ counted_on 1 (faults_of self.old)) }
        ensures faults { GoesOn (faults_of self.old) (faults_of self.new) }
    {
        let put = put_all(&mut self.to, bytes);
        self.faults = self.faults.saturating_add(u64::from(put.is_err()));
        put
    }
}

/// Writes the bytes, piece by piece, up to the first write that fails or takes nothing.
fn put_all<W: Write>(to: &mut W, bytes: &[u8]) -> Result<(), PutFault>
    ensures all { OnOk result (Appends (W.contents to.old) (W.contents to.new) bytes.now) }
    ensures prefix { OnErr result ((n : ℕ) × Appends (W.contents to.old) (W.contents to.new) (take n bytes.now)) }
{
    let mut rest = bytes;
    while !rest.is_empty() {
        match to.write(rest) {
            Ok(0) | Err(_) => return Err(PutFault::Failed),
            Ok(count) => rest = &rest[count..],
        }
    }
    Ok(())
}
