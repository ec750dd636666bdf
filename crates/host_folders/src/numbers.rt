//! The numbers by which files and paths are told apart.

use crate::sight::Identity;
use portal_base::names::HostPath;
use std::hash::{BuildHasher, Hasher, RandomState};
use std::io;
use std::random::RandomSource;

/// What the generation of each look has. Generations that are counted up from 1 don't.
const LOOKED_AT: u64 = 1 << 63;

/// Says whether a generation is one of a look.
pub fn is_of_look(generation: u64) -> bool {
    generation & LOOKED_AT != 0
}

/// Numbers that nobody can find two of the same of: the keys are this tree's own.
#[derive(Clone, Copy)]
pub struct Numbers {
    keys: RandomState,
}

impl Numbers {
    /// Numbers of new keys.
    pub fn new<R: RandomSource>(random: &R) -> io::Result<Numbers> {
        Ok(Numbers {
            keys: RandomState::new(random)?,
        })
    }

    /// The generation of a file, whatever others do.
    pub fn generation(&self, file: &Identity) -> u64 {
        let mut hasher = self.keys.build_hasher();
        hasher.write_u64(file.device);
        hasher.write_u64(file.inode);
        hasher.write_u64(file.birth.as_secs());
        hasher.write_u32(file.birth.subsec_nanos());
        hasher.finish() | LOOKED_AT
    }

    /// The number of a path and a generation, by which a file was made.
    pub fn name(&self, path: &HostPath, generation: u64) -> u64 {
        let mut hasher = self.keys.build_hasher();
        hasher.write_u64(generation);
        hasher.write(path.as_bytes());
        hasher.finish()
    }

    /// The number of a path.
    pub fn path(&self, path: &[u8]) -> u64 {
        let mut hasher = self.keys.build_hasher();
        hasher.write(path);
        hasher.finish()
    }

    /// The number of the one who may put something else in the place of a file: the
    /// application in whose own folder it is, else the folder.
    pub fn owner(&self, path: &HostPath) -> u64 {
        let bytes = path.as_bytes();
        // `/app/NAME` ends ahead of the third slash.
        let depth = if bytes.starts_with(b"/app/") {
            3
        } else {
            usize::MAX
        };
        let mut end = 0;
        let mut slashes = 0usize;
        for (at, byte) in bytes.iter().enumerate() {
            if *byte == b'/' && slashes < depth {
                slashes = slashes.saturating_add(1);
                end = at;
            }
        }
        self.path(bytes.get(..end).unwrap_or(bytes))
    }
}
