//! Which files lie in the folder of those that aren't present.

use indexmap::IndexMap;
use std::alloc::{AllocError, Global};

/// A file in the folder.
#[derive(Clone, Copy)]
pub struct Stored {
    /// Its number there.
    pub number: u64,
    /// Whether its bytes were brought to rest, and didn't change since.
    pub rests: bool,
    /// The turn in which it was put there or asked for last.
    turn: u64,
}

/// The files in the folder, by their generations.
#[derive(Drop)]
pub struct StoredFiles {
    /// There is room for all from the start.
    files: IndexMap<u64, Stored>,
    most: usize,
    turn: u64,
}

impl StoredFiles {
    /// None yet, of so many at most.
    pub fn new(alloc: Global, most: usize) -> Result<StoredFiles, AllocError> {
        Ok(StoredFiles {
            files: IndexMap::with_capacity(alloc, most)?,
            most,
            turn: 0,
        })
    }

    /// The file of a generation.
    pub fn get(&mut self, generation: u64) -> Option<Stored> {
        self.turn = self.turn.saturating_add(1);
        let stored = self.files.get_mut(&generation)?;
        stored.turn = self.turn;
        Some(*stored)
    }

    /// Puts a file there, and gives the number of one that isn't there any more: of the one that
    /// had the generation; or, where there is no room, of the one that wasn't asked for the
    /// longest time.
    pub fn add(&mut self, generation: u64, number: u64) -> Result<Option<u64>, AllocError> {
        let former = match self.take(generation) {
            Some(stored) => Some(stored.number),
            None if self.files.len() >= self.most => self.forget_one(),
            None => None,
        };
        self.turn = self.turn.saturating_add(1);
        let stored = Stored {
            number,
            rests: false,
            turn: self.turn,
        };
        self.files.insert(generation, stored)?;
        Ok(former)
    }

    /// Takes the file of a generation out.
    pub fn take(&mut self, generation: u64) -> Option<Stored> {
        self.files.swap_remove(&generation)
    }

    /// Says of a file whether its bytes are at rest now.
    pub fn set_rests(&mut self, generation: u64, rests: bool) {
        if let Some(stored) = self.files.get_mut(&generation) {
            stored.rests = rests;
        }
    }

    /// Forgets the one that wasn't asked for the longest time, and gives its number.
    fn forget_one(&mut self) -> Option<u64> {
        let oldest = self
            .files
            .values()
            .enumerate()
            .min_by_key(|(_, stored)| stored.turn);
        let (at, _) = oldest?;
        match self.files.swap_remove_index(at) {
            Some((_, stored)) => Some(stored.number),
            None => None,
        }
    }
}
