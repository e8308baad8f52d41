//! Random numbers from a seed.

/// A sequence of numbers that looks random.
#[derive(Clone, Copy)]
pub struct Numbers {
    last: u64,
}

impl Numbers {
    /// The sequence of a seed.
    pub fn of(seed: u64) -> Numbers {
        Numbers {
            last: seed.wrapping_mul(0x9e37_79b9_7f4a_7c15) | 1,
        }
    }

    pub fn next(&mut self) -> u64 {
        self.last ^= self.last.wrapping_shl(13);
        self.last ^= self.last >> 7;
        self.last ^= self.last.wrapping_shl(17);
        self.last
    }
}
