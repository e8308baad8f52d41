ghost use Rattle.std.specs.Prelude.{◌≡◌, ◌<◌, ℕ, ◌==◌, ◌||◌, true};
ghost use Rattle.al_planes.specs.Masks.{bit_in, CommonPlace, CommonLine};
ghost use Rattle.al_planes.specs.Lines.{size};

use crate::lines::{Line, numbers_meet};
use crate::planes::{block_meets, planes_join};

/// Whether a place is set.
pub fn has_bit(m: &[u64; 8], i: usize) -> bool
    requires { i < 512 }
    ensures { result ≡ bit_in m.now i }
{
    (m[i / 64] >> (i % 64)) & 1 == 1
}

/// Sets a place.
pub fn set_bit(m: &mut [u64; 8], i: usize)
    requires { i < 512 }
    ensures { (j : ℕ) → bit_in m.new j ≡ (j == i || bit_in m.old j) }
{
    m[i / 64] |= 1 << (i % 64);
}

/// Whether some place is set in both.
pub fn masks_meet(a: &[u64; 8], b: &[u64; 8]) -> bool
    ensures met { result ≡ true → CommonPlace a.now b.now }
    ensures every { CommonPlace a.now b.now → result ≡ true }
{
    block_meets(a, b)
}

/// Adds the places of another.
pub fn masks_join(a: &mut [u64; 8], b: &[u64; 8])
    ensures { (j : ℕ) → bit_in a.new j ≡ (bit_in b.now j || bit_in a.old j) }
{
    planes_join(a, b);
}

/// Whether a line has a place in each.
pub fn masks_meet_by_lines(a: &[u64; 8], b: &[u64; 8], line: Line) -> bool
    ensures met { result ≡ true → CommonLine (size line) a.now b.now }
    ensures every { CommonLine (size line) a.now b.now → result ≡ true }
{
    for i in 0..8 {
        if numbers_meet(a[i], b[i], line) {
            return true;
        }
    }
    false
}
