//! A list of values, which contracts see as a list.
//!
//! It is a `Vec` whose address and capacity no contract sees, so that two
//! lists of the same items are equal.

ghost use Rattle.std.specs.Prelude.{◌≡◌, ℕ, ◌+◌, ◌-◌, ◌<◌, ◌≤◌, List, [], ◌∷◌, ◌++◌, length, IfOk, OnOk, OnErr, IfSome, IsTrue, ◌↔◌, slice_get, option_copied, MatchOption, take, drop, slice_set, remove, replicate, Some};
ghost use Rattle.std.specs.List.{AllZip};
ghost use Rattle.std.specs.Cmp.Lexicographic.{pointwise, lists_per, lists_equiv};
ghost use Rattle.std.specs.Iterator.Adapters.{IterYieldsInOrder, IterYieldsInReverse};
ghost use Rattle.std.specs.Slice.Iter.{iter_rest};

use crate::memory::{Replica, WantOfMemory};
use std::alloc::{AllocError, Global};
use std::marker::Model;
use std::slice;

/// A list of values.
#[derive(Debug, Drop)]
pub struct List<T> {
    inner: Vec<T>,
}

impl<T> Model for List<T> {
    ghost use Rattle.std.specs.Prelude.{List};
    ghost use Rattle.std.specs.Coded.{coded_list};

    ghost Value = { List T };

    ghost coded = { coded_list T.code };

    ghost view = { λ a. a.inner.items };
}

impl<T> List<T> {
    /// An empty list.
    pub fn new(alloc: Global) -> List<T>
        ensures { result ≡ [] }
    {
        List {
            inner: Vec::new(alloc),
        }
    }

    /// The list of a vector's items.
    pub fn from_vec(inner: Vec<T>) -> List<T>
        ensures { result ≡ inner.items }
    {
        List { inner }
    }

    /// The vector of the items.
    pub fn into_vec(self) -> Vec<T>
        ensures { result.items ≡ self }
    {
        let List { inner } = self;
        inner
    }

    /// The number of items.
    pub fn len(&self) -> usize
        ensures { result ≡ length self.now }
    {
        self.inner.len()
    }

    /// Says whether there is no item.
    pub fn is_empty(&self) -> bool
        ensures { IsTrue result ↔ (self.now ≡ []) }
    {
        self.inner.is_empty()
    }

    /// The items.
    pub fn as_slice(&self) -> &[T]
        ensures { result.now ≡ self.now }
    {
        self.inner.as_slice()
    }

    /// The item at a place.
    pub fn get(&self, index: usize) -> Option<&T>
        ensures { option_copied result ≡ slice_get self.now index }
    {
        self.inner.get(index)
    }

    /// The first item, or `None` of the empty list.
    pub fn first(&self) -> Option<&T>
        ensures { option_copied result ≡ slice_get self.now 0 }
    {
        self.inner.as_slice().first()
    }

    /// The last item, or `None` of the empty list.
    pub fn last(&self) -> Option<&T>
        ensures { option_copied result ≡ slice_get self.now (length self.now - 1) }
    {
        self.inner.as_slice().last()
    }

    /// The items, one after another.
    pub fn iter(&self) -> slice::Iter<'_, T>
        ensures rest { iter_rest result ≡ self.now }
        ensures runs { IterYieldsInOrder T }
        ensures runs_back { IterYieldsInReverse T }
    {
        self.inner.iter()
    }

    /// The last item goes; its value, or `None` of the empty list.
    pub fn pop(&mut self) -> Option<T>
        ensures { MatchOption result ((self.old ≡ [])
            × (self.new ≡ [])) (λ last. self.old ≡ self.new ++ last ∷ []) }
    {
        self.inner.pop()
    }
}

/// A list of bytes.
pub type ByteList = List<u8>;

impl<T: Copy> List<T> {
    /// Puts the items of a slice at the end.
    pub fn extend_from_slice(&mut self, items: &[T]) -> Result<(), WantOfMemory>
        ensures ok { OnOk result (self.new ≡ self.old ++ items.now) }
        ensures err { OnErr result (self.new ≡ self.old) }
    {
        self.inner.extend_from_slice(items)?;
        Ok(())
    }

    /// Writes items over as many others, from a place on.
    pub fn overwrite(&mut self, at: usize, items: &[T])
        requires { at + length items.now ≤ length self.old }
        ensures { self.new ≡ take at self.old
            ++ (items.now ++ drop (at + length items.now) self.old) }
    {
        self.inner[at..at + items.len()].copy_from_slice(items);
    }

    /// Leaves the first `len` items, and puts copies of `item` behind them
    /// until there are `len`.
    pub fn resize(&mut self, len: usize, item: T) -> Result<(), WantOfMemory>
        ensures ok { OnOk result (self.new ≡ take len self.old
            ++ replicate (len - length self.old) item) }
        ensures err { OnErr result (self.new ≡ self.old) }
    {
        self.inner.resize(len, item)?;
        Ok(())
    }

    /// A list of a slice's items.
    pub fn copied(alloc: Global, items: &[T]) -> Result<List<T>, WantOfMemory>
        ensures { IfOk result (λ copy. copy ≡ items.now) }
    {
        let inner = Vec::from_slice(alloc, items)?;
        Ok(List { inner })
    }
}

impl<T: Drop> List<T> {
    /// Leaves the first `len` items, or all where there are fewer.
    pub fn truncate(&mut self, len: usize)
        ensures { self.new ≡ take len self.old }
    {
        self.inner.truncate(len);
    }

    /// Moves the items of `more` to the end, or leaves the list and drops
    /// `more` where there is no memory.
    pub fn append(&mut self, more: List<T>) -> Result<(), WantOfMemory>
        ensures ok { OnOk result (self.new ≡ self.old ++ more) }
        ensures err { OnErr result (self.new ≡ self.old) }
    {
        let List { mut inner } = more;
        self.inner.append(&mut inner)?;
        Ok(())
    }

    /// Takes the item at a place out; those behind it move up by one.
    pub fn remove(&mut self, at: usize) -> T
        requires { at < length self.old }
        ensures item { slice_get self.old at ≡ Some result }
        ensures rest { self.new ≡ remove self.old at }
    {
        self.inner.remove(at)
    }

    /// Writes an item over the one at a place.
    pub fn set(&mut self, at: usize, item: T)
        requires { at < length self.old }
        ensures { self.new ≡ slice_set self.old at item }
    {
        self.inner[at] = item;
    }

    /// Puts an item at the end.
    pub fn push(&mut self, item: T) -> Result<(), WantOfMemory>
        ensures ok { OnOk result (self.new ≡ self.old ++ item ∷ []) }
        ensures err { OnErr result (self.new ≡ self.old) }
    {
        self.inner.push(item)?;
        Ok(())
    }
}

impl<T: PartialEq> PartialEq for List<T> {
    ghost eq = { pointwise T.eq };

    ghost laws = { lists_per T.laws };

    fn eq(&self, other: &List<T>) -> bool {
        self.as_slice() == other.as_slice()
    }
}

impl<T: Eq> Eq for List<T> {
    ghost laws = { lists_equiv T.Eq.laws };
}

impl<T: Clone> Clone for List<T> {
    ghost is_clone = { AllZip T.is_clone };

    fn clone(&self) -> Result<List<T>, AllocError> {
        Ok(List {
            inner: self.inner.clone()?,
        })
    }
}

impl<T: Replica> Replica for List<T> {
    fn replica(&self, alloc: Global) -> Result<List<T>, WantOfMemory> {
        let mut copy = List::new(alloc);
        for item in self.inner.as_slice() {
            copy.push(item.replica(alloc)?)?;
        }
        Ok(copy)
    }
}
