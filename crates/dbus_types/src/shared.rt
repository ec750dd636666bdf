//! An owner of a value that others own too, which contracts see as that value.
//!
//! It stands where Rust has `Arc`, as `Boxed` where it has `Box`. The arrays of
//! one type share it, so that no array holds a copy.

ghost use Rattle.std.specs.Prelude.{◌≡◌, IfOk};

use portal_base::memory::WantOfMemory;
use std::alloc::Global;
use std::marker::Model;
use std::ops::Deref;
use std::sync::Arc;

/// An `Arc` that contracts see as its value.
#[derive(Debug, Drop)]
pub struct Shared<T> {
    inner: Arc<T, Global>,
}

impl<T> Model for Shared<T> {
    ghost Value = { T };

    ghost coded = { T.code };

    ghost view = { λ b. b.inner.value };
}

impl<T> Shared<T> {
    /// The value.
    pub fn get(&self) -> &T
        ensures { result.now ≡ self.now }
    {
        &self.inner
    }

    /// Another owner of the value.
    pub fn share(&self) -> Result<Shared<T>, WantOfMemory>
        ensures { IfOk result (λ b. b ≡ self.now) }
    {
        Ok(Shared {
            inner: Arc::try_clone(&self.inner)?,
        })
    }
}

impl<T: Drop> Shared<T> {
    /// The first owner of the value, or want of memory, which drops it.
    pub fn new(alloc: Global, value: T) -> Result<Shared<T>, WantOfMemory>
        ensures { IfOk result (λ b. b ≡ value) }
    {
        Ok(Shared {
            inner: Arc::new(alloc, value)?,
        })
    }
}

impl<T> Deref for Shared<T> {
    type Target = T;

    ghost deref_gives = { λ c x. x ≡ c };

    fn deref(&self) -> &T
        ensures { result.now ≡ self.now }
    {
        self.get()
    }
}
