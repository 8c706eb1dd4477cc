// Random numbers for tests, computed from a seed.

/// A sequence of numbers that look random. The same seed gives the same sequence.
#[derive(Drop)]
pub struct Numbers {
    state: u64,
}

impl Numbers {
    /// Returns the sequence of this seed.
    pub fn new(seed: u64) -> Numbers {
        Numbers {
            state: seed.wrapping_mul(0x9e37_79b9_7f4a_7c15) | 1,
        }
    }

    /// Returns the next number below `count`; 0 if `count` is 0.
    pub fn below(&mut self, count: u64) -> u64 {
        self.state ^= self.state << 13;
        self.state ^= self.state >> 7;
        self.state ^= self.state << 17;
        (self.state >> 20) % count.max(1)
    }
}
