//! What one connection named.

ghost use Rattle.std.specs.Prelude.{◌≡◌, IsOk, IfOk, OnOk, OnErr, IfErr, Some, option_copied};
ghost use Rattle.folder_documents.specs.Named.{AreNamings, IsFresh, Names, Keeps, CanName, naming_at};
ghost use Rattle.folder_documents.specs.NamingErrors.{Refuses, RefusesRoom};

use indexmap::IndexSet;
use portal_base::memory::Replica;
use portal_model::naming::Naming;
use std::alloc::Global;
use std::hash::{Hash, Hasher};
use std::marker::Model;
use thiserror::Error;

/// How many namings a connection may have.
const MOST: usize = 65_536;

/// Why a naming gets no number.
#[derive(Clone, Copy, Debug, PartialEq, Eq, Error)]
pub enum NamingError {
    /// The connection has as many as it may.
    #[error("the connection has named as much as it may")]
    Full,
    /// There was no memory.
    #[error("no memory for a naming")]
    Memory,
}

/// A naming, which is found by what it names.
#[derive(Drop)]
struct Key {
    naming: Naming,
}

impl Model for Key {
    ghost use Rattle.portal_model.specs.declared.naming.Naming.{Naming};

    ghost Value = { Naming };

    ghost view = { λ k. k.naming };
}

impl PartialEq for Key {
    ghost use Rattle.folder_documents.specs.Named.{is_same_naming};
    ghost use Rattle.std.proofs.Common.{rules};
    ghost use Rattle.std.specs.Cmp.Rules.{comparing};

    ghost eq = { is_same_naming };

    ghost laws = { Prim.search (comparing, rules) };

    fn eq(&self, other: &Key) -> bool {
        self.naming.view == other.naming.view
            && self.naming.document.number == other.naming.document.number
            && self.naming.path.as_bytes() == other.naming.path.as_bytes()
    }
}

impl Eq for Key {
    ghost use Rattle.std.proofs.Common.{rules};
    ghost use Rattle.std.specs.Cmp.Rules.{comparing};

    ghost laws = { Prim.search (comparing, rules) };
}

impl Hash for Key {
    ghost use Rattle.std.specs.Prelude.{◌++◌};
    ghost use Rattle.std.proofs.Common.{rules};
    ghost use Rattle.std.specs.Cmp.Rules.{comparing, hashing};
    ghost use Rattle.std.specs.Hash as fed;

    ghost hash_input = { λ a. fed.u32 a.view ++ fed.u32 a.document.number
        ++ fed.slice fed.u8 a.path };

    ghost respects_eq = { Prim.search (hashing, rules) };

    fn hash<H: Hasher>(&self, state: &mut H) {
        self.naming.view.hash(state);
        self.naming.document.number.hash(state);
        self.naming.path.as_bytes().hash(state);
    }
}

/// What one connection named, in order.
#[derive(Drop)]
pub(crate) struct SeatNamings {
    // A set by hashing finds a naming at once, has the k-th at once, and can take room ahead.
    // Whoever picks names that meet in it holds up nobody's look-ups but those of his own
    // connection.
    namings: IndexSet<Key>,
}

impl Model for SeatNamings {
    ghost use Rattle.indexmap.specs.IndexSet.{spare};
    ghost use Rattle.folder_documents.specs.Named.{Named, AreNamings};

    ghost Value = { Named };

    ghost view = { λ a. record {
      namings = a.namings.keys;
      room = spare a.namings;
    } };

    ghost invariant = { λ a. AreNamings a.namings.keys };
}

impl SeatNamings {
    /// Nothing yet.
    pub(crate) fn new(alloc: Global) -> SeatNamings
        ensures { IsFresh result }
    {
        SeatNamings {
            namings: IndexSet::new(alloc),
        }
    }

    /// The k-th naming, from 1.
    pub(crate) fn get(&self, k: u32) -> Option<&Naming>
        ensures naming { option_copied result ≡ naming_at (Some self.now) k }
        ensures known { AreNamings self.now.namings }
    {
        let namings = &self.namings;
        let place = k.checked_sub(1)?;
        let key = namings.get_index(place as usize)?;
        Some(&key.naming)
    }

    /// Takes room for a naming, where it isn't there.
    pub(crate) fn reserve(&mut self, alloc: Global, naming: &Naming) -> Result<(), NamingError>
        ensures ok { OnOk result (CanName naming.now self.new) }
        ensures refused { IfErr result (RefusesRoom naming.now self.old) }
        ensures kept { Keeps self.old self.new }
    {
        let Ok(naming) = naming.replica(alloc) else {
            return Err(NamingError::Memory);
        };
        if self.namings.contains(&Key { naming }) {
            return Ok(());
        }
        if self.namings.len() >= MOST {
            return Err(NamingError::Full);
        }
        if self.namings.reserve(1).is_err() {
            return Err(NamingError::Memory);
        }
        Ok(())
    }

    /// The number of a naming; where it wasn't there, it is there from now on.
    pub(crate) fn name(&mut self, naming: Naming) -> Result<u32, NamingError>
        ensures ok { IfOk result (λ k. Names k naming self.old self.new) }
        ensures refused { IfErr result (Refuses naming self.old) }
        ensures err { OnErr result (Keeps self.old self.new) }
        ensures reserved { CanName naming self.old → IsOk result }
    {
        let key = Key { naming };
        if self.namings.len() >= MOST && !self.namings.contains(&key) {
            return Err(NamingError::Full);
        }
        match self.namings.insert_full(key) {
            Ok((place, _)) => Ok(place as u32 + 1),
            Err(_) => Err(NamingError::Memory),
        }
    }
}
