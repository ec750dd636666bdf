//! Which files were made here.

use indexmap::IndexMap;
use std::alloc::{AllocError, Global};

/// The most of them that are known.
const MOST: usize = 4_096;

/// A file that was made.
#[derive(Clone, Copy)]
struct Made {
    generation: u64,
    /// The turn in which it was made or asked for last.
    turn: u64,
}

/// The files that were made here, by the numbers of the names by which they were made.
#[derive(Drop)]
pub struct MadeFiles {
    /// There is room for all from the start.
    files: IndexMap<u64, Made>,
    turn: u64,
}

impl MadeFiles {
    /// None yet.
    pub fn new(alloc: Global) -> Result<MadeFiles, AllocError> {
        Ok(MadeFiles {
            files: IndexMap::with_capacity(alloc, MOST)?,
            turn: 0,
        })
    }

    /// The generation that a look shows of the file that was made by the name of a number.
    pub fn by(&mut self, name: u64) -> Option<u64> {
        self.turn = self.turn.saturating_add(1);
        let made = self.files.get_mut(&name)?;
        made.turn = self.turn;
        Some(made.generation)
    }

    /// A file was made by the name of a number. Where there is no room for it, the one that
    /// wasn't asked for the longest time isn't known any more.
    pub fn add(&mut self, name: u64, generation: u64) -> Result<(), AllocError> {
        self.turn = self.turn.saturating_add(1);
        if self.files.len() >= MOST && self.files.get(&name).is_none() {
            self.forget_one();
        }
        let made = Made {
            generation,
            turn: self.turn,
        };
        self.files.insert(name, made)?;
        Ok(())
    }

    /// Forgets the one that wasn't asked for the longest time.
    fn forget_one(&mut self) {
        let oldest = self
            .files
            .values()
            .enumerate()
            .min_by_key(|(_, made)| made.turn);
        if let Some((at, _)) = oldest {
            self.files.swap_remove_index(at);
        }
    }
}
