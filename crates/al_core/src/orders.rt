ghost use Rattle.std.specs.Prelude.{◌≡◌};
ghost use Rattle.al_core.specs.Orders.{obj_cmp, addr_cmp};

use crate::values::{Addr, Obj};
use std::cmp::Ordering;

/// The order of objects: globals, then allocations outside loops, then those of iterations, each by its numbers.
pub fn compare_objects(a: &Obj, b: &Obj) -> Ordering
    ensures { result ≡ obj_cmp a.now b.now }
{
    a.cmp(b)
}

/// The order of addresses: words, heads, and then locals.
pub fn compare_addresses(a: &Addr, b: &Addr) -> Ordering
    ensures { result ≡ addr_cmp a.now b.now }
{
    a.cmp(b)
}
