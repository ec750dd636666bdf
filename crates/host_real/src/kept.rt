//! The files that are kept open.

use indexmap::IndexMap;
use std::alloc::{AllocError, Global};
use std::fs::File;

/// A file that is kept open.
#[derive(Drop)]
struct Kept {
    /// Whether it was read or written by, and not only looked at.
    was_used: bool,
    /// The turn in which it was asked for last.
    turn: u64,
    file: File,
}

/// The files that are kept open, by their generations, for reading.
#[derive(Drop)]
pub struct KeptFiles {
    // The map's hasher has known keys; but nobody can choose generations, which are hashed by keys
    // of the tree's own.
    files: IndexMap<u64, Kept>,
    /// How many there may be. There is room for them from the start.
    most: usize,
    turn: u64,
}

impl KeptFiles {
    /// Room for so many, at least one.
    pub fn new(alloc: Global, most: usize) -> Result<KeptFiles, AllocError> {
        let most = most.max(1);
        Ok(KeptFiles {
            files: IndexMap::with_capacity(alloc, most)?,
            most,
            turn: 0,
        })
    }

    /// Says whether the file of a generation is kept, which is looked at now.
    pub fn looks_at(&mut self, generation: u64) -> bool {
        self.turn = self.turn.saturating_add(1);
        match self.files.get_mut(&generation) {
            Some(kept) => {
                kept.turn = self.turn;
                true
            }
            None => false,
        }
    }

    /// The file of a generation, to read or write by.
    pub fn used(&mut self, generation: u64) -> Option<&File> {
        self.turn = self.turn.saturating_add(1);
        let kept = self.files.get_mut(&generation)?;
        kept.turn = self.turn;
        kept.was_used = true;
        Some(&kept.file)
    }

    /// The file of a generation.
    pub fn get(&self, generation: u64) -> Option<&File> {
        match self.files.get(&generation) {
            Some(kept) => Some(&kept.file),
            None => None,
        }
    }

    /// Keeps a file, in the place of another where there is no more room: of one that was
    /// only looked at before one that was used, and of these the one that wasn't asked for
    /// the longest time.
    pub fn keep(&mut self, generation: u64, file: File) -> Result<(), AllocError> {
        self.turn = self.turn.saturating_add(1);
        if self.files.len() >= self.most {
            self.let_go();
        }
        let kept = Kept {
            was_used: false,
            turn: self.turn,
            file,
        };
        self.files.insert(generation, kept)?;
        Ok(())
    }

    /// Closes the file that is missed least.
    fn let_go(&mut self) {
        let least = self
            .files
            .values()
            .enumerate()
            .min_by_key(|(_, kept)| (kept.was_used, kept.turn));
        if let Some((at, _)) = least {
            self.files.swap_remove_index(at);
        }
    }
}
