ghost use Rattle.std.specs.Prelude.{◌≡◌};
ghost use Rattle.al_core.specs.Reductions as spec;

use al_source::RedOp;

/// The number that an accumulator starts at: joined with it, every number stays as it is.
pub fn red_identity(op: RedOp) -> i64
    ensures { result ≡ spec.red_identity op }
{
    match op {
        RedOp::Add | RedOp::BitOr | RedOp::BitXor => 0,
        RedOp::Mul => 1,
        RedOp::Min => i64::MAX,
        RedOp::Max => i64::MIN,
        RedOp::BitAnd => -1,
    }
}

/// Two numbers joined by the operator of a reduction. Sums and products wrap.
pub fn red_apply(op: RedOp, a: i64, b: i64) -> i64
    ensures { result ≡ spec.red_apply op a b }
{
    match op {
        RedOp::Add => a.wrapping_add(b),
        RedOp::Mul => a.wrapping_mul(b),
        RedOp::Min => a.min(b),
        RedOp::Max => a.max(b),
        RedOp::BitAnd => a & b,
        RedOp::BitOr => a | b,
        RedOp::BitXor => a ^ b,
    }
}
