//! The numbers of the live documents of each path.

ghost use Rattle.std.specs.Prelude.{◌≡◌, ◌==◌, ℕ, List, [], ◌∷◌, ◌++◌, map, cond, nat_eq, IfOk, OnOk, OnErr, IsTrue};
ghost use Rattle.std.specs.List.{position, IsDistinct};
ghost use Rattle.portal_base.specs.Names.{is_same};
ghost use Rattle.document_records.specs.DocumentIndex.{AreByPath, ids_found, other_ids};

use portal_base::list::List;
use portal_base::memory::{Replica, WantOfMemory};
use portal_base::names::{DocId, HostPath};
use portal_model::state::Document;
use std::alloc::Global;
use std::collections::BTreeMap;

/// The numbers of the live documents of each path, in order of addition. A path
/// of which there is none takes no memory.
pub(crate) type IdsByPath = BTreeMap<HostPath, List<DocId>>;

/// The numbers of documents, by their paths.
pub(crate) fn ids_by_path(alloc: Global, live: &[Document]) -> Result<IdsByPath, WantOfMemory>
    ensures { IfOk result (AreByPath live.now) }
{
    let mut by_path = BTreeMap::new(alloc);
    for document in live {
        let path = document.path.replica(alloc)?;
        add_id(alloc, &mut by_path, path, document.id)?;
    }
    Ok(by_path)
}

/// Puts a number behind the others of its path.
pub(crate) fn add_id(
    alloc: Global,
    by_path: &mut IdsByPath,
    path: HostPath,
    id: DocId,
) -> Result<(), WantOfMemory>
    ensures ok { OnOk result ((other : List ℕ) → ids_found by_path.new other
        ≡ cond (is_same path other) (ids_found by_path.old other ++ id ∷ [])
        (ids_found by_path.old other)) }
    ensures err { OnErr result ((other : List ℕ) →
        ids_found by_path.new other ≡ ids_found by_path.old other) }
{
    if let Some(ids) = by_path.get_mut(&path) {
        return ids.push(id);
    }
    let mut ids = List::new(alloc);
    ids.push(id)?;
    by_path.insert(path, ids)?;
    Ok(())
}

/// Takes a number out of those of its path, which differ.
pub(crate) fn remove_id(by_path: &mut IdsByPath, path: &HostPath, id: DocId)
    requires { IsDistinct nat_eq (map (λ x. x.number) (ids_found by_path.old path.now)) }
    ensures { (other : List ℕ) → ids_found by_path.new other
        ≡ cond (is_same path.now other) (other_ids id.number (ids_found by_path.old other))
        (ids_found by_path.old other) }
{
    if leaves_none(by_path, path, id) {
        by_path.remove(path);
    }
}

/// Takes a number out of those of its path, and says whether none is left.
fn leaves_none(by_path: &mut IdsByPath, path: &HostPath, id: DocId) -> bool
    requires { IsDistinct nat_eq (map (λ x. x.number) (ids_found by_path.old path.now)) }
    ensures others { (other : List ℕ) → ids_found by_path.new other
        ≡ cond (is_same path.now other) (other_ids id.number (ids_found by_path.old other))
        (ids_found by_path.old other) }
    ensures none { IsTrue result → ids_found by_path.new path.now ≡ [] }
{
    match by_path.get_mut(path) {
        Some(ids) => {
            take_id(ids, id);
            ids.is_empty()
        }
        None => false,
    }
}

/// Takes a number out of numbers that differ.
fn take_id(ids: &mut List<DocId>, id: DocId)
    requires { IsDistinct nat_eq (map (λ x. x.number) ids.old) }
    ensures { ids.new ≡ other_ids id.number ids.old }
{
    if let Some(at) = place_of(ids.as_slice(), id) {
        ids.remove(at);
    }
}

/// The place of a number among numbers.
fn place_of(ids: &[DocId], id: DocId) -> Option<usize>
    ensures { result ≡ position (λ x. x.number == id.number) ids.now }
{
    ids.iter().position(|other| other.number == id.number)
}
