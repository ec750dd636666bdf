//! The paths of a tree's files.

ghost use Rattle.std.specs.Prelude.{◌≡◌, [], false, Bool, ◌||◌, ℕ, List, OnOk, OnErr};
ghost use Rattle.std.specs.List.{list_any};
ghost use Rattle.portal_model.specs.Content.{is_above};
ghost use Rattle.script_form.specs.Paths.{clash};

use portal_base::memory::WantOfMemory;
use portal_base::names::host_path::{HostPath, lies_above};
use std::alloc::Global;
use std::collections::BTreeSet;
use std::marker::Model;
use std::ops::Bound;

/// Paths of files, none of which lies below another. Contracts see the list of
/// them in the order of paths.
///
/// What lies below a path comes right behind it in this order. So a file that
/// lies above a path is the last ahead of it, and the first behind it is one
/// below it where there is any.
#[derive(Drop)]
pub struct PathSet {
    paths: BTreeSet<HostPath>,
}

impl Model for PathSet {
    ghost use Rattle.std.specs.Prelude.{List, ℕ};
    ghost use Rattle.script_form.specs.Paths.{AreApart};

    ghost Value = { List (List ℕ) };

    ghost view = { λ a. a.paths.keys };

    ghost invariant = { λ a. AreApart a.paths.keys };
}

impl PathSet {
    /// No paths.
    pub fn new(alloc: Global) -> PathSet
        ensures { result ≡ [] }
    {
        PathSet {
            paths: BTreeSet::new(alloc),
        }
    }

    /// Whether one of the paths can't be a file beside a file of this path.
    pub fn has_clash(&self, path: &HostPath) -> bool
        ensures { result ≡ list_any (clash path.now) self.now }
    {
        // No file lies below another. So a path that is the last ahead of a new one lies above it
        // where any does, and the first behind it lies below it where any does: two look-ups
        // decide.
        if self.paths.contains(path) {
            return true;
        }
        if self.has_above(path) {
            return true;
        }
        self.has_below(path)
    }

    /// Whether one of the paths lies above this one.
    fn has_above(&self, path: &HostPath) -> bool
        ensures { result ≡ list_any (λ other. is_above other path.now) self.now }
    {
        let mut ahead = self.paths.range((Bound::Unbounded, Bound::Excluded(path)));
        match ahead.next_back() {
            Some(last) => lies_above(last.as_bytes(), path.as_bytes()),
            None => false,
        }
    }

    /// Whether one of the paths lies below this one.
    fn has_below(&self, path: &HostPath) -> bool
        ensures { result ≡ list_any (is_above path.now) self.now }
    {
        let mut behind = self.paths.range((Bound::Excluded(path), Bound::Unbounded));
        match behind.next() {
            Some(first) => lies_above(path.as_bytes(), first.as_bytes()),
            None => false,
        }
    }

    /// Puts a path to those that may be files beside it.
    pub fn add(&mut self, path: HostPath) -> Result<(), WantOfMemory>
        requires { list_any (clash path) self.old ≡ false }
        ensures ok { OnOk result ((test : List ℕ → Bool)
            → list_any test self.new ≡ (test path || list_any test self.old)) }
        ensures err { OnErr result (self.new ≡ self.old) }
    {
        self.paths.insert(path)?;
        Ok(())
    }
}
