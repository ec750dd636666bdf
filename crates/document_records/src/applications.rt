//! The numbers of applications.

ghost use Rattle.std.specs.Prelude.{◌≡◌, ◌<◌, ◌≤◌, [], Some, length, IfOk, OnOk, OnErr, option_copied};
ghost use Rattle.std.specs.List.{position};
ghost use Rattle.portal_base.specs.Names.{is_same};
ghost use Rattle.portal_model.specs.Applications.{number_of, numbered, name_of_number, HasNumberLeft};
ghost use Rattle.document_records.specs.Applications.{AreNumbered};
ghost use Rattle.document_records.specs.Documents.{front};

use portal_base::list::List;
use portal_base::memory::{Replica, WantOfMemory};
use portal_base::names::AppId;
use std::alloc::Global;
use std::collections::BTreeMap;
use std::marker::Model;

/// The numbered applications; application k is the k-th, from 1.
#[derive(Drop)]
pub struct Applications {
    alloc: Global,
    names: List<AppId>,
    // The list has the order of the numbers, which contracts see; the map finds in it, in about
    // log n steps among n names.
    /// The number of each name, by the bytes of the name.
    numbers: BTreeMap<Vec<u8>, u32>,
}

impl Model for Applications {
    ghost use Rattle.std.specs.Prelude.{List, ℕ};
    ghost use Rattle.document_records.specs.Applications.{IsFoundByName};

    ghost Value = { List (List ℕ) };

    ghost view = { λ a. a.names };

    ghost invariant = { λ a. IsFoundByName a.names a.numbers };
}

impl Applications {
    /// No application has a number.
    pub fn new(alloc: Global) -> Applications
        ensures { result ≡ [] }
    {
        Applications {
            alloc,
            names: List::new(alloc),
            numbers: BTreeMap::new(alloc),
        }
    }

    /// The number of an application, which gets the next one where it has
    /// none.
    pub fn number(&mut self, app: &AppId) -> Result<u32, WantOfMemory>
        requires { HasNumberLeft self.old app.now }
        ensures ok { OnOk result (self.new ≡ numbered self.old app.now) }
        ensures number { IfOk result (λ number. number_of self.new app.now ≡ Some number) }
        ensures err { OnErr result (self.new ≡ self.old) }
    {
        if let Some(number) = self.of(app) {
            return Ok(number);
        }
        let key = Vec::from_slice(self.alloc, app.as_bytes())?;
        self.names.push(app.replica(self.alloc)?)?;
        let number = self.names.len() as u32;
        if self.numbers.insert(key, number).is_err() {
            self.names.pop();
            return Err(WantOfMemory);
        }
        Ok(number)
    }

    /// The number of an application that has one.
    pub fn of(&self, app: &AppId) -> Option<u32>
        ensures { result ≡ number_of self.now app.now }
    {
        self.numbers.get(app.as_bytes()).copied()
    }

    /// The application of a number.
    pub fn name(&self, number: u32) -> Option<&AppId>
        ensures { option_copied result ≡ name_of_number self.now number }
    {
        if number == 0 {
            return None;
        }
        self.names.get(number as usize - 1)
    }

    /// The applications that have a number, by it: the first has 1.
    pub fn names(&self) -> &[AppId]
        ensures { result.now ≡ self.now }
    {
        self.names.as_slice()
    }

    /// How many applications have a number: at most 16777216, which differ.
    pub fn len(&self) -> u32
        ensures count { result ≡ length self.now }
        ensures known { AreNumbered self.now }
    {
        self.names.len() as u32
    }

    /// Takes the last number back: the application that was numbered last has
    /// none.
    pub fn take_back(&mut self)
        requires { 0 < length self.old }
        ensures { self.new ≡ front self.old }
    {
        if let Some(last) = self.names.pop() {
            self.numbers.remove(last.as_bytes());
        }
    }
}
