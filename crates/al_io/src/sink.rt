//! What takes bytes: a file, a stream, or memory.
ghost use Rattle.std.specs.Prelude.{◌≡◌, ℕ, List, Option, None, OnOk, OnErr};
ghost use Rattle.std.specs.Option.{option_map};
ghost use Rattle.std.specs.Io.KnownBytes.{append_known};
ghost use Rattle.al_io.specs.Counts.{counted_on, MayHaveRisen, GoesOn};
ghost use Rattle.al_io.specs.Written.{AppendsPrefix};

/// Why bytes were not written.
#[derive(Clone, Copy, Debug, PartialEq, Eq)]
pub enum PutFault {
    /// Some of the bytes, maybe none, were written. The sink's count of faults rose.
    Failed,
}

/// What takes bytes, one after the other.
pub trait Sink {
    /// All the bytes that it has taken, where that is told.
    ghost written: { Self → Option (List ℕ) } = { λ _. None };

    /// How many puts there were, where that is told, up to 18446744073709551615.
    ghost calls: { Self → Option ℕ } = { λ _. None };

    /// How many puts have failed, up to 18446744073709551615. Nothing else raises it.
    ghost faults: { Self → ℕ };

    /// Appends the bytes, all of them, or at an error a prefix of them. It takes no memory.
    fn put(&mut self, bytes: &[u8]) -> Result<(), PutFault>
        // What is written.
        ensures all { OnOk result (written self.new ≡ append_known (written self.old) bytes.now) }
        ensures prefix { OnErr result (AppendsPrefix (written self.old) (written self.new) bytes.now) }

        // When a put fails, and how the counts go on.
        ensures failed { OnErr result (MayHaveRisen (faults self.old) (faults self.new)) }
        ensures no_fault { OnOk result (faults self.new ≡ faults self.old) }
        ensures faults { GoesOn (faults self.old) (faults self.new) }
        ensures calls { calls self.new ≡ option_map (counted_on 1) (calls self.old) };
}
