//! Numbers that look random.

/// A source of numbers that look random (xorshift, of 64 bits).
#[derive(Clone, Copy)]
pub struct Dice {
    state: u64,
}

impl Dice {
    /// The dice of a seed.
    pub fn new(seed: u64) -> Dice {
        Dice { state: seed.max(1) }
    }

    /// A number below a bound; where that is 0, it is 0.
    pub fn below(&mut self, bound: u64) -> u64 {
        let mut x = self.state;
        x ^= x << 13;
        x ^= x >> 7;
        x ^= x << 17;
        self.state = x;
        if bound == 0 { 0 } else { x % bound }
    }
}
