ghost use Rattle.std.specs.Prelude.{◌≡◌, ◌==◌, ◌&&◌, not, true, false, ◌<◌, ℕ, IfSome, IfNone};
ghost use Rattle.std.specs.Int.{bit_at};
ghost use Rattle.al_planes.specs.Masks.{bit_in};

/// The place of the lowest 1 of a number.
fn lowest_one(n: u64) -> usize
    requires { 0 < n }
    ensures within { result < 64 }
    ensures one { bit_at n result ≡ 1 }
{
    n.trailing_zeros() as usize
}

/// The lowest place that is set, if one is.
pub(crate) fn first_bit(m: &[u64; 8]) -> Option<usize>
    ensures found { IfSome result (λ n. (n < 512) × (bit_in m.now n ≡ true)) }
    ensures none { IfNone result ((n : ℕ) → n < 512 → bit_in m.now n ≡ false) }
{
    for i in 0..8 {
        if m[i] > 0 {
            return Some(i * 64 + lowest_one(m[i]));
        }
    }
    None
}

/// Takes a place out.
pub(crate) fn clear_bit(m: &mut [u64; 8], i: usize)
    requires { i < 512 }
    ensures { (j : ℕ) → bit_in m.new j ≡ (not (j == i) && bit_in m.old j) }
{
    m[i / 64] &= !(1 << (i % 64));
}
