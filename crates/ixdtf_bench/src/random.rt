//! Numbers that look random.

/// A generator of numbers that look random: the xorshift generator of 64 bits by George Marsaglia. The same seed gives the same
/// numbers.
#[derive(Drop)]
pub struct Random {
    state: u64,
}

impl Random {
    /// Creates a generator with this seed.
    pub fn new(seed: u64) -> Random {
        let mut random = Random {
            state: seed.wrapping_mul(0x9e37_79b9_7f4a_7c15) ^ 0x2545_f491_4f6c_dd1d,
        };
        for _ in 0..16 {
            let _ = random.next();
        }
        random
    }

    /// Returns the next number.
    pub fn next(&mut self) -> u64 {
        let mut state = self.state | 1 << 63;
        state ^= state << 13;
        state ^= state >> 7;
        state ^= state << 17;
        self.state = state;
        state
    }

    /// Returns a byte from `first` to `last`, which the next number decides.
    pub fn byte_within(&mut self, first: u8, last: u8) -> u8 {
        let choices = u64::from(last.saturating_sub(first)) + 1;
        first.saturating_add((self.next() >> 32 & 0xff) as u8 % choices.min(128) as u8)
    }
}
