ghost use Rattle.std.specs.Prelude.{◌≡◌};
ghost use Rattle.al_core.specs.Action.{is_private};
ghost use Rattle.al_exec.specs.Active.{private_of};

/// Which locals are private to the function that runs.
#[derive(Clone, Copy, Debug, PartialEq, Eq)]
pub enum Own {
    All,
    /// The counter of an annotated loop and what its body declares.
    Loop { counter: u32, first: u32, last: u32 },
}

impl Own {
    #[inline(always)]
    pub fn has(self, k: u32) -> bool
        ensures { result ≡ is_private (private_of self) k }
    {
        match self {
            Own::All => true,
            Own::Loop {
                counter,
                first,
                last,
            } => k == counter || (first <= k && k < last),
        }
    }
}
