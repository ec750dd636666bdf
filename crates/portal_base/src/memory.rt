//! Want of memory, and copies that may meet it.

ghost use Rattle.std.specs.Prelude.{◌≡◌, IfOk};

use std::alloc::{AllocError, AllocFailed, Global};

/// The answer of a call that found no memory.
#[derive(Clone, Copy, Debug, PartialEq, Eq)]
pub struct WantOfMemory;

impl From<AllocError> for WantOfMemory {
    fn from(_error: AllocError) -> WantOfMemory {
        WantOfMemory
    }
}

impl<T: Drop> From<AllocFailed<T>> for WantOfMemory {
    fn from(_error: AllocFailed<T>) -> WantOfMemory {
        WantOfMemory
    }
}

// It stands beside `Clone`, which takes memory by another error, and whose copy is only what the
// type's own rule calls one.
/// A value that can be copied where there is memory for the copy.
///
/// `Clone` says only that a copy stands for its original by the type's own
/// rule; here the copy is equal to it.
pub trait Replica: Drop {
    /// A value equal to this one.
    fn replica(&self, alloc: Global) -> Result<Self, WantOfMemory>
        ensures { IfOk result (λ copy. copy ≡ self.now) };
}

impl Replica for bool {
    fn replica(&self, _alloc: Global) -> Result<bool, WantOfMemory> {
        Ok(*self)
    }
}

impl Replica for u8 {
    fn replica(&self, _alloc: Global) -> Result<u8, WantOfMemory> {
        Ok(*self)
    }
}

impl Replica for u16 {
    fn replica(&self, _alloc: Global) -> Result<u16, WantOfMemory> {
        Ok(*self)
    }
}

impl Replica for u32 {
    fn replica(&self, _alloc: Global) -> Result<u32, WantOfMemory> {
        Ok(*self)
    }
}

impl Replica for u64 {
    fn replica(&self, _alloc: Global) -> Result<u64, WantOfMemory> {
        Ok(*self)
    }
}

impl Replica for usize {
    fn replica(&self, _alloc: Global) -> Result<usize, WantOfMemory> {
        Ok(*self)
    }
}

impl<T: Replica> Replica for Option<T> {
    fn replica(&self, alloc: Global) -> Result<Option<T>, WantOfMemory> {
        match self {
            Some(item) => Ok(Some(item.replica(alloc)?)),
            None => Ok(None),
        }
    }
}
