ghost use Rattle.std.specs.Prelude.{◌≡◌, ◌-◌, ◌↔◌, ◌<◌, IsTrue};

use std::marker::Model;

/// How many steps may still be spent.
#[derive(Debug, Drop)]
pub struct Budget {
    steps: u64,
}

impl Model for Budget {
    ghost use Rattle.std.specs.Prelude.{ℕ};
    ghost use Rattle.std.specs.Coded.{coded_ℕ};

    ghost Value = { ℕ };

    ghost coded = { coded_ℕ };

    ghost view = { λ b. b.steps };
}

impl Budget {
    pub fn new(steps: u64) -> Budget
        ensures { result ≡ steps }
    {
        Budget { steps }
    }

    /// Takes a step. It answers whether there was one.
    pub fn spend(&mut self) -> bool
        ensures left { self.new ≡ self.old - 1 }
        ensures spent { IsTrue result ↔ (0 < self.old) }
    {
        if self.steps == 0 {
            return false;
        }
        self.steps -= 1;
        true
    }

    pub fn left(&self) -> u64
        ensures { result ≡ self.now }
    {
        self.steps
    }
}
