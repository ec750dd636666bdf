//! The entries of a seat's temporaries in the folder of a document.

ghost use Rattle.std.specs.Prelude.{◌≡◌, ◌<◌, ◌^◌, ◌++◌, IfOk, OnOk, Some, map, slice_get};
ghost use Rattle.std.specs.List.{prefix_len};
ghost use Rattle.portal_model.specs.OpenDir.{entry_of_temp, name_less, names_of_temps};
ghost use Rattle.portal_model.specs.Ordered.{bytes_less, put, put_all};
ghost use Rattle.portal_model.specs.SeatNames.{is_temp_in, temps_in};
ghost use Rattle.file_ops.specs.SeatTemps.{HeldTemps, temps_on};
ghost use Rattle.file_ops.specs.Temporaries.{entries_of, entry_told, is_called_so, puts};

use crate::temporaries::{OwnEntry, own_at};
use app_view::node_of;
use portal_base::list::List;
use portal_base::memory::{Replica, WantOfMemory};
use portal_base::names::DocId;
use portal_model::place::Place;
use portal_model::reply::DirName;
use save_files::Temps;
use std::alloc::Global;

/// How many temporaries a connection may have.
const MOST: u32 = 64;

/// The entries of a seat's temporaries in the folder of a document, in a view: in byte
/// order of their names.
pub(crate) fn names_of_temps(
    alloc: Global,
    temps: &Temps,
    seat: u32,
    view: u32,
    document: DocId,
) -> Result<List<DirName>, WantOfMemory>
    requires { view < 2 ^ 28 }
    ensures { (has : HeldTemps) → temps_on temps.now.seats seat ≡ Some has → IfOk result
        (λ names. names ≡ names_of_temps view (temps_in has.temps view document)) }
{
    let entries = entries_of(alloc, temps, seat, view, document)?;
    in_order(alloc, entries)
}

/// The same, in the order in which they were made.
fn entries_of(
    alloc: Global,
    temps: &Temps,
    seat: u32,
    view: u32,
    document: DocId,
) -> Result<List<DirName>, WantOfMemory>
    requires { view < 2 ^ 28 }
    ensures { (has : HeldTemps) → temps_on temps.now.seats seat ≡ Some has → IfOk result
        (λ entries. entries ≡ map (entry_of_temp view) (temps_in has.temps view document)) }
{
    let mut entries = List::new(alloc);
    for place in 0..MOST {
        push_at(alloc, &mut entries, temps, seat, view, document, place)?;
    }
    // With a call for a number comes that there are no more than there may be.
    let _ = temps.get(seat, 0);
    Ok(entries)
}

/// Adds the entry of the temporary at a place, where that is in the folder.
fn push_at(
    alloc: Global,
    entries: &mut List<DirName>,
    temps: &Temps,
    seat: u32,
    view: u32,
    document: DocId,
    place: u32,
) -> Result<(), WantOfMemory>
    requires { view < 2 ^ 28 }
    ensures { (has : HeldTemps) → temps_on temps.now.seats seat ≡ Some has → OnOk result
        (entries.new ≡ entries.old ++ entries_of view document (slice_get has.temps place)) }
{
    match own_at(temps, seat, place) {
        Some(own) => push_own(alloc, entries, view, document, own),
        None => Ok(()),
    }
}

/// Adds the entry of a temporary, where that is in the folder.
fn push_own(
    alloc: Global,
    entries: &mut List<DirName>,
    view: u32,
    document: DocId,
    own: OwnEntry,
) -> Result<(), WantOfMemory>
    requires { view < 2 ^ 28 }
    ensures { OnOk result (entries.new
        ≡ entries.old ++ entries_of view document (Some (entry_told own.entry))) }
{
    if !is_in(own, view, document) {
        return Ok(());
    }
    entries.push(entry_of_temp(alloc, view, own)?)
}

/// Says whether a temporary is in the folder of a document, in a view.
fn is_in(own: OwnEntry, view: u32, document: DocId) -> bool
    ensures { result ≡ is_temp_in view document (entry_told own.entry) }
{
    own.temp.view == view && own.temp.document.number == document.number
}

/// The entry of a temporary.
fn entry_of_temp(alloc: Global, view: u32, own: OwnEntry) -> Result<DirName, WantOfMemory>
    requires { view < 2 ^ 28 }
    ensures { IfOk result (λ entry. entry ≡ entry_of_temp view (entry_told own.entry)) }
{
    Ok(DirName {
        node: node_of(Place::Temporary { view, k: own.k }),
        name: own.temp.name.replica(alloc)?,
        folder: false,
    })
}

/// Entries in byte order of their names, of which each stands once.
fn in_order(alloc: Global, entries: List<DirName>) -> Result<List<DirName>, WantOfMemory>
    ensures { IfOk result (λ names. names ≡ put_all name_less entries) }
{
    let mut left = entries.into_vec();
    let mut names = Vec::new(alloc);
    put_each(&mut left, &mut names)?;
    Ok(List::from_vec(names))
}

/// Puts each entry in its place, the last one first.
fn put_each(left: &mut Vec<DirName>, names: &mut Vec<DirName>) -> Result<(), WantOfMemory>
    ensures { OnOk result (names.new.items ≡ puts left.old.items names.old.items) }
{
    while let Some(entry) = left.pop() {
        put(names, entry)?;
    }
    Ok(())
}

/// Puts an entry in its place, where it stands instead of one with its name.
fn put(names: &mut Vec<DirName>, entry: DirName) -> Result<(), WantOfMemory>
    ensures { OnOk result (names.new.items ≡ put name_less entry names.old.items) }
{
    let at = place_of(names, entry.name.as_slice());
    if is_at(names, at, entry.name.as_slice()) {
        names[at] = entry;
    } else {
        names.insert(at, entry)?;
    }
    Ok(())
}

/// The place where the entry of a name stands, or would.
fn place_of(names: &[DirName], name: &[u8]) -> usize
    ensures { result ≡ prefix_len (λ e. bytes_less e.name name.now) names.now }
{
    for (at, entry) in names.iter().enumerate() {
        if !is_before(entry, name) {
            return at;
        }
    }
    names.len()
}

/// Says whether the name of an entry is ahead of a name.
fn is_before(entry: &DirName, name: &[u8]) -> bool
    ensures { result ≡ bytes_less entry.now.name name.now }
{
    entry.name.as_slice() < name
}

/// Says whether the entry of a name stands at a place.
fn is_at(names: &[DirName], at: usize, name: &[u8]) -> bool
    ensures { result ≡ is_called_so name.now (slice_get names.now at) }
{
    match names.get(at) {
        Some(entry) => entry.name.as_slice() == name,
        None => false,
    }
}
