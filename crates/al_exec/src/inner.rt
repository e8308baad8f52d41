ghost use Rattle.std.specs.Prelude.{◌≡◌, ◌+◌, ◌-◌, ◌<◌, ◌≤◌, Ok, pos, ◌+ℤ◌};
ghost use Rattle.std.specs.Int.{int_max};
ghost use Rattle.al_core.specs.declared.values.Val.TheVariants as value;
ghost use Rattle.al_core.specs.Values.{trips};

use al_values::PackedValue;
use std::marker::Model;

/// An annotated loop that runs as an ordinary one: its number, its start and bound, the next trip, and how many are
/// left.
#[derive(Drop)]
pub struct InnerLoop {
    number: u32,
    lo: i64,
    hi: i64,
    next: u64,
    left: u64,
}

impl Model for InnerLoop {
    ghost use Rattle.std.specs.Prelude.{◌+◌, ◌≤◌};
    ghost use Rattle.al_core.specs.Values.{trip_count};
    ghost use Rattle.al_code.specs.Machine.{InnerLoop};

    ghost Value = { InnerLoop };

    ghost view = { λ x. record { loop = x.number; lo = x.lo; hi = x.hi; next = x.next; left = x.left } };

    ghost invariant = { λ x. (x.next + x.left ≤ trip_count x.lo x.hi) × (x.next + x.left ≤ 16777216) };
}

impl InnerLoop {
    /// The loop before its first trip.
    #[tactic(auto, unfolding(al_core::specs::Values::trips))]
    pub fn new(number: u32, lo: i64, hi: i64, count: u64) -> InnerLoop
        requires { trips lo hi ≡ Ok count }
        ensures { result ≡ record { loop = number; lo = lo; hi = hi; next = 0; left = count } }
    {
        InnerLoop {
            number,
            lo,
            hi,
            next: 0,
            left: count,
        }
    }

    pub fn number(&self) -> u32
        ensures { result ≡ self.now.loop }
    {
        self.number
    }

    /// How many trips are left.
    pub fn left(&self) -> u64
        ensures { result ≡ self.now.left }
    {
        self.left
    }

    /// The counter after the loop.
    pub fn end(&self) -> PackedValue
        ensures { result ≡ value.Int (int_max self.now.lo self.now.hi) }
    {
        PackedValue::from_int(self.lo.max(self.hi))
    }

    /// The counter in the next trip.
    #[tactic(auto)]
    pub fn counter(&self) -> PackedValue
        requires { 0 < self.now.left }
        ensures { result ≡ value.Int (self.now.lo +ℤ pos self.now.next) }
    {
        PackedValue::from_int(self.lo + self.next as i64)
    }

    /// Begins the next trip.
    pub fn turn(self) -> InnerLoop
        requires { 0 < self.left }
        ensures { result ≡ record self { next = self.next + 1; left = self.left - 1 } }
    {
        InnerLoop {
            number: self.number,
            lo: self.lo,
            hi: self.hi,
            next: self.next + 1,
            left: self.left - 1,
        }
    }
}
