//! Names in the order in which they first come.

ghost use Rattle.std.specs.Prelude.{◌≡◌, [], true, length, fold, map, IfOk, OnOk};
ghost use Rattle.std.specs.List.{All};
ghost use Rattle.portal_base.specs.Names.{is_app_name};
ghost use Rattle.record_keeper.specs.Naming.{also_named};
ghost use Rattle.record_keeper.specs.SoundRecords.{IsGrant};

use crate::name_set::{Name, NameSet};
use portal_base::list::List;
use portal_base::memory::WantOfMemory;
use portal_base::names::NameError;
use portal_base::names::app_id::AppId;
use portal_model::records::GrantRecord;
use std::alloc::Global;
use std::marker::Model;

/// Names in the order in which they first came, which contracts see as the list
/// of them; a set beside them tells which came.
#[derive(Drop)]
pub struct Named {
    names: List<AppId>,
    known: NameSet,
}

impl Model for Named {
    ghost use Rattle.std.specs.Prelude.{List, ℕ, ◌≡◌};
    ghost use Rattle.std.specs.List.{list_any};
    ghost use Rattle.portal_base.specs.Names.{is_same};

    ghost Value = { List (List ℕ) };

    ghost view = { λ a. a.names };

    ghost invariant = { λ a. (name : List ℕ)
        → list_any (is_same name) a.known ≡ list_any (λ known. is_same known name) a.names };
}

impl Named {
    /// No names.
    pub fn new(alloc: Global) -> Named
        ensures { result ≡ [] }
    {
        Named {
            names: List::new(alloc),
            known: NameSet::new(alloc),
        }
    }

    /// How many names there are.
    pub fn len(&self) -> usize
        ensures { result ≡ length self.now }
    {
        self.names.len()
    }

    /// The names.
    pub fn into_names(self) -> List<AppId>
        ensures { result ≡ self }
    {
        let Named { names, known: _ } = self;
        names
    }

    /// Puts a name behind the others, if it is new. Nothing changes where there
    /// is no memory.
    pub fn add(&mut self, alloc: Global, name: &[u8]) -> Result<(), WantOfMemory>
        requires { is_app_name name.now ≡ true }
        ensures { OnOk result (self.new ≡ also_named self.old name.now) }
    {
        let key = Name::copied(alloc, name)?;
        if self.known.has(&key) {
            return Ok(());
        }
        let app = app_of(alloc, name)?;
        let len = self.names.len();
        self.names.push(app)?;
        match self.known.add(key) {
            Ok(()) => Ok(()),
            Err(error) => {
                self.names.truncate(len);
                Err(error)
            }
        }
    }

    /// Puts the applications that grants name behind the others, each that is
    /// new.
    pub fn add_granted(&mut self, alloc: Global, grants: &[GrantRecord]) -> Result<(), WantOfMemory>
        requires { All IsGrant grants.now }
        ensures { OnOk result (self.new
            ≡ fold also_named self.old (map (λ grant. grant.app) grants.now)) }
    {
        // An application is numbered as a right first names it. In records that aren't bad each
        // grant has a right, so the names in their grants are these.
        for grant in grants {
            self.add(alloc, grant.app.as_slice())?;
        }
        Ok(())
    }
}

/// The application of a name.
fn app_of(alloc: Global, name: &[u8]) -> Result<AppId, WantOfMemory>
    requires { is_app_name name.now ≡ true }
    ensures { IfOk result (λ app. app ≡ name.now) }
{
    match AppId::read(alloc, name) {
        Ok(app) => Ok(app),
        Err(NameError::Memory) => Err(WantOfMemory),
        Err(NameError::BadName { at: _ }) => unreachable!(),
    }
}
