//! The places of entries, by table and identifier.

ghost use Rattle.std.specs.Prelude.{◌≡◌, ℕ, List, cond, Some, None, OnOk, OnErr};
ghost use Rattle.std.specs.BTreeMap.{get_by_text};
ghost use Rattle.portal_base.specs.Names.{is_same};
ghost use Rattle.permission_table.specs.EntryIndex.{KeepPlaces, Places, place_in};

use portal_base::memory::WantOfMemory;
use portal_base::text::Text;
use std::alloc::Global;
use std::collections::BTreeMap;

/// The place of each identifier of a table.
type IdPlaces = BTreeMap<String, usize>;

// Maps in a map, and none by pairs: so that a table and an identifier are looked up as they are
// lent, without memory for a pair.
/// The places of entries, by table and identifier.
#[derive(Drop)]
pub(crate) struct EntryIndex {
    pub(crate) tables: BTreeMap<String, IdPlaces>,
}

impl EntryIndex {
    /// No places.
    pub(crate) fn new(alloc: Global) -> EntryIndex
        ensures { (table id : List ℕ) → place_in result.tables table id ≡ None }
    {
        EntryIndex {
            tables: BTreeMap::new(alloc),
        }
    }

    /// The place of a table and an identifier.
    pub(crate) fn place(&self, table: &Text, id: &Text) -> Option<usize>
        ensures { result ≡ place_in self.now.tables table.now id.now }
    {
        let ids = self.tables.get(table.as_str())?;
        ids.get(id.as_str()).copied()
    }

    /// Gives a table and an identifier a place.
    pub(crate) fn insert(
        &mut self,
        alloc: Global,
        table: Text,
        id: Text,
        place: usize,
    ) -> Result<(), WantOfMemory>
        ensures ok { OnOk result (Places table id (Some place) self.old.tables self.new.tables) }
        ensures err { OnErr result (KeepPlaces self.old.tables self.new.tables) }
    {
        match self.tables.get_mut(table.as_str()) {
            Some(ids) => insert_id(ids, id, place)?,
            None => {
                let mut ids = BTreeMap::new(alloc);
                insert_id(&mut ids, id, place)?;
                self.tables.insert(table.into_string(), ids)?;
            }
        }
        Ok(())
    }

    /// Takes the place of a table and an identifier away. It takes no memory.
    pub(crate) fn remove(&mut self, table: &Text, id: &Text)
        ensures { Places table.now id.now None self.old.tables self.new.tables }
    {
        let Some(ids) = self.tables.get_mut(table.as_str()) else {
            return;
        };
        ids.remove(id.as_str());
        if ids.is_empty() {
            self.tables.remove(table.as_str());
        }
    }
}

/// Gives an identifier of a table a place.
fn insert_id(ids: &mut IdPlaces, id: Text, place: usize) -> Result<(), WantOfMemory>
    ensures ok { OnOk result ((other : List ℕ) → get_by_text ids.new other
        ≡ cond (is_same id other) (Some place) (get_by_text ids.old other)) }
    ensures err { OnErr result ((other : List ℕ) → get_by_text ids.new other
        ≡ get_by_text ids.old other) }
{
    ids.insert(id.into_string(), place)?;
    Ok(())
}
