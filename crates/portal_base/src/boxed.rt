//! An owner of one value, which contracts see as that value.
//!
//! It stands where Rust has `Box`: a `Box` shows its address to contracts, so
//! a copy would never equal its original.

ghost use Rattle.std.specs.Prelude.{◌≡◌, IfOk};

use crate::memory::{Replica, WantOfMemory};
use std::alloc::{AllocError, Global};
use std::marker::Model;

/// A `Box` that contracts see as its value.
#[derive(Debug, Drop)]
pub struct Boxed<T> {
    inner: Box<T>,
}

impl<T> Model for Boxed<T> {
    ghost Value = { T };

    ghost coded = { T.code };

    ghost view = { λ b. b.inner.value };
}

impl<T> Boxed<T> {
    /// The value.
    pub fn get(&self) -> &T
        ensures { result.now ≡ self.now }
    {
        &self.inner
    }

    /// Gives the value back, and frees the place that it stood in.
    pub fn into_inner(self) -> T
        ensures { result ≡ self }
    {
        let Boxed { inner } = self;
        Box::into_inner(inner)
    }
}

impl<T: Drop> Boxed<T> {
    /// An owner of the value, or want of memory, which drops it.
    pub fn new(alloc: Global, value: T) -> Result<Boxed<T>, WantOfMemory>
        ensures { IfOk result (λ b. b ≡ value) }
    {
        Ok(Boxed {
            inner: Box::new(alloc, value)?,
        })
    }
}

impl<T: PartialEq> PartialEq for Boxed<T> {
    ghost eq = { T.eq };

    ghost laws = { T.laws };

    fn eq(&self, other: &Boxed<T>) -> bool {
        self.get() == other.get()
    }
}

impl<T: Clone> Clone for Boxed<T> {
    ghost is_clone = { T.is_clone };

    fn clone(&self) -> Result<Boxed<T>, AllocError> {
        Ok(Boxed {
            inner: self.inner.clone()?,
        })
    }
}

impl<T: Replica> Replica for Boxed<T> {
    fn replica(&self, alloc: Global) -> Result<Boxed<T>, WantOfMemory> {
        Boxed::new(alloc, self.get().replica(alloc)?)
    }
}
