//! Words drawn at random.

use portal_base::outside::Words;
use rand::rngs::StdRng;
use rand::{Rng, make_rng};
use std::io;
use std::random::RandomSource;
use thiserror::Error;

/// The system gave no random bytes for a seed.
#[derive(Debug, Drop, Error)]
#[error("no random bytes: {error}")]
pub struct NoSeed {
    /// What the system says.
    pub error: io::Error,
}

/// Words of a generator that nobody can foresee, which the system's random bytes
/// seeded. No draw fails.
#[derive(Drop)]
pub struct SystemWords {
    // Seeded once, so that no draw can fail.
    generator: StdRng,
}

impl SystemWords {
    /// Words behind a new seed.
    pub fn open<S: RandomSource>(source: &S) -> Result<SystemWords, NoSeed> {
        match make_rng(source) {
            Ok(generator) => Ok(SystemWords { generator }),
            Err(error) => Err(NoSeed { error }),
        }
    }
}

impl Words for SystemWords {
    ghost use Rattle.std.specs.Prelude.{None};

    ghost told = { λ _. None };

    fn next(&mut self) -> u32 {
        self.generator.next_u32()
    }
}
