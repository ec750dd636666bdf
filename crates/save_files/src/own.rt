//! The temporaries of one connection.

ghost use Rattle.std.specs.Prelude.{◌≡◌, ◌+◌, ◌<◌, IsOk, IfOk, OnOk, OnErr, IfErr, IsSome, length, option_copied, Some};
ghost use Rattle.save_files.specs.Own.{AreNumbered, IsFresh, Adds, Renames, Removes, RemovesOthers, Keeps, CanAdd, temp_of, found_in, number_at, most_temps, last_number};
ghost use Rattle.save_files.specs.TempErrors.{Refuses};

use indexmap::IndexMap;
use portal_base::list::ByteList;
use portal_base::names::doc_id::DocId;
use portal_model::temporary::Temp;
use std::alloc::Global;
use std::marker::Model;
use thiserror::Error;

/// How many temporaries a connection may have.
const MOST: usize = 64;

/// Why a temporary gets no number.
#[derive(Clone, Copy, Debug, PartialEq, Eq, Error)]
pub enum TempError {
    /// The connection has as many as it may.
    #[error("the connection has as many temporary files as it may")]
    Full,
    /// There was no memory, or no further number.
    #[error("no memory for a temporary file")]
    Memory,
}

/// The temporaries of one connection, by number, and the last number that was given.
#[derive(Drop)]
pub(crate) struct SeatTemps {
    added: u32,
    temps: IndexMap<u32, Temp>,
}

impl Model for SeatTemps {
    ghost use Rattle.indexmap.specs.IndexMap.{spare};
    ghost use Rattle.save_files.specs.Own.{Own, AreNumbered};

    ghost Value = { Own };

    ghost view = { λ a. record {
      added = a.added;
      temps = a.temps.entries;
      room = spare a.temps;
    } };

    ghost invariant = { λ a. AreNumbered a.added a.temps.entries };
}

impl SeatTemps {
    /// No temporary, and no number given.
    pub(crate) fn new(alloc: Global) -> SeatTemps
        ensures { IsFresh result }
    {
        SeatTemps {
            added: 0,
            temps: IndexMap::new(alloc),
        }
    }

    /// The temporary of a number.
    pub(crate) fn get(&self, k: u32) -> Option<&Temp>
        ensures temp { option_copied result ≡ temp_of (Some self.now) k }
        ensures known { AreNumbered self.now.added self.now.temps }
    {
        self.temps.get(&k)
    }

    /// The number of the first temporary in a view, of a document and of a name.
    pub(crate) fn find(&self, view: u32, document: DocId, name: &[u8]) -> Option<u32>
        ensures { result ≡ found_in (Some self.now) view document.number name.now }
    {
        first_called(&self.temps, view, document, name)
    }

    /// The number of the temporary at a place, from 0.
    pub(crate) fn at(&self, place: usize) -> Option<u32>
        ensures { result ≡ number_at (Some self.now) place }
    {
        let (k, _) = self.temps.get_index(place)?;
        Some(*k)
    }

    /// The number of the next temporary.
    fn next(&self) -> Result<u32, TempError>
        ensures number { IfOk result (λ k. k ≡ self.now.added + 1) }
        ensures limit { OnOk result (length self.now.temps < most_temps) }
        ensures refused { IfErr result (Refuses self.now) }
        ensures done { length self.now.temps < most_temps → self.now.added < last_number
            → IsOk result }
    {
        if self.temps.len() >= MOST {
            return Err(TempError::Full);
        }
        match self.added.checked_add(1) {
            Some(k) => Ok(k),
            None => Err(TempError::Memory),
        }
    }

    /// Takes room for one more temporary.
    pub(crate) fn reserve(&mut self) -> Result<(), TempError>
        ensures ok { OnOk result (CanAdd self.new) }
        ensures refused { IfErr result (Refuses self.old) }
        ensures kept { Keeps self.old self.new }
        ensures reserved { CanAdd self.old → IsOk result }
    {
        self.next()?;
        if self.temps.reserve(1).is_err() {
            return Err(TempError::Memory);
        }
        Ok(())
    }

    /// Adds a temporary under the next number.
    pub(crate) fn add(&mut self, temp: Temp) -> Result<u32, TempError>
        ensures ok { IfOk result (λ k. Adds k temp self.old self.new) }
        ensures refused { IfErr result (Refuses self.old) }
        ensures err { OnErr result (Keeps self.old self.new) }
        ensures reserved { CanAdd self.old → IsOk result }
    {
        let k = self.next()?;
        match self.temps.insert(k, temp) {
            Ok(_) => {
                self.added = k;
                Ok(k)
            }
            Err(_) => Err(TempError::Memory),
        }
    }

    /// Gives the temporary of a number another name.
    pub(crate) fn rename(&mut self, k: u32, name: ByteList)
        requires { IsSome (temp_of (Some self.old) k) }
        ensures { Renames k name self.old self.new }
    {
        rename_in(&mut self.temps, k, name);
    }

    /// Takes the temporary of a number out.
    pub(crate) fn remove(&mut self, k: u32) -> Option<Temp>
        ensures temp { result ≡ temp_of (Some self.old) k }
        ensures rest { Removes k self.old self.new }
    {
        // The order stays: those behind it move up, at most as many as a connection may have.
        self.temps.shift_remove(&k)
    }

    /// Takes those in a view, of a document and of a name out, but for that of a number.
    pub(crate) fn remove_others(&mut self, k: u32, view: u32, document: DocId, name: &[u8])
        ensures { RemovesOthers k view document.number name.now self.old self.new }
    {
        take_others(&mut self.temps, k, view, document, name);
    }
}

ghost use Rattle.std.specs.Prelude.{find, option_map};
ghost use Rattle.std.specs.Map.{lookup};
ghost use Rattle.indexmap.specs.IndexMap.{keys, spare, Updates};
ghost use Rattle.std.specs.Prelude.{nat_eq, ◌==◌, ◌&&◌, ◌≤◌, not};
ghost use Rattle.std.specs.List.{filter};
ghost use Rattle.portal_base.specs.Names.{is_same};
ghost use Rattle.save_files.specs.Own.{is_called, is_other, number_in, with_name};

/// The number of the first temporary in a view, of a document and of a name.
fn first_called(temps: &IndexMap<u32, Temp>, view: u32, document: DocId, name: &[u8]) -> Option<u32>
    ensures { result ≡ number_in
        (find (is_called view document.number name.now) temps.now.entries) }
{
    for (k, temp) in temps.iter() {
        if has_name(temp, view, document, name) {
            return Some(*k);
        }
    }
    None
}

/// Says whether a temporary is in a view, of a document, and has a name.
fn has_name(temp: &Temp, view: u32, document: DocId, name: &[u8]) -> bool
    ensures { result ≡ (temp.now.view == view && temp.now.document.number == document.number
        && is_same temp.now.name name.now) }
{
    temp.view == view && temp.document.number == document.number && temp.name.as_slice() == name
}

/// Gives the temporary of a number another name.
fn rename_in(temps: &mut IndexMap<u32, Temp>, k: u32, name: ByteList)
    requires { IsSome (lookup (λ n. k == n) temps.old.entries) }
    ensures updates { Updates nat_eq temps.old temps.new k
        (option_map (with_name name) (lookup (λ n. k == n) temps.old.entries)) }
    ensures keys { keys temps.new ≡ keys temps.old }
    ensures room { spare temps.new ≡ spare temps.old }
{
    if let Some(temp) = temps.get_mut(&k) {
        temp.name = name;
    }
}

/// Takes the temporaries in a view, of a document and of a name out, but for that of a
/// number.
fn take_others(temps: &mut IndexMap<u32, Temp>, k: u32, view: u32, document: DocId, name: &[u8])
    ensures temps { temps.new.entries
        ≡ filter (λ e. not (is_other k view document.number name.now e)) temps.old.entries }
    ensures room { spare temps.old ≤ spare temps.new }
{
    temps.retain(
        |number: &u32, temp: &mut Temp| -> bool
            ensures { (result ≡ not (is_called view document.number name.entry.now
                (number.now, temp.old) && not (number.now == k))) × (temp.new ≡ temp.old) }
        { !(has_name(temp, view, document, name) && *number != k) },
    );
}
