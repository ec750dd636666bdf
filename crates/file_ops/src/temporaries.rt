//! The temporaries of a seat, as requests find, make and change them.

ghost use Rattle.std.specs.Prelude.{◌≡◌, ◌+◌, ◌<◌, IfOk, IfSome, IsSome, IsSomeAnd, OnErr, OnOk, Some, not, option_map, slice_get, true};
ghost use Rattle.portal_model.specs.NodeVerdict.{is_dots};
ghost use Rattle.portal_model.specs.NodeVerdict.{Temps as TempsChange};
ghost use Rattle.portal_model.specs.Create.{temp_made};
ghost use Rattle.portal_model.specs.SeatNames.{Begins, Drops, Renames, found_temp, lacks_temp, last_taken, with_taken};
ghost use Rattle.portal_model.specs.declared.temporary.Temp.{Temp as TempNow};
ghost use Rattle.save_files.specs.Own.{CanAdd, own_on, temp_of};
ghost use Rattle.node_looks.specs.OwnFiles.{IsFoundAt, IsFoundOwn};
ghost use Rattle.file_ops.specs.Temporaries.{entry_told, next_name};
ghost use Rattle.file_ops.specs.SeatTemps.{HeldTemps, SeatTemped, TempsKept, seat_temps, temps_on};

use document_records::Document;
use node_looks::OwnFile;
use node_looks::sight::SeenPlace;
use portal_base::files::FileName;
use portal_base::list::List;
use portal_base::memory::{Replica, WantOfMemory};
use portal_base::names::DocId;
use portal_model::temporary::Temp;
use save_files::{TempError, Temps};
use std::alloc::Global;

/// A temporary of a seat.
#[derive(Clone, Copy)]
pub(crate) struct OwnEntry<'a> {
    /// Its number on the connection.
    pub k: u32,
    /// The temporary.
    pub temp: &'a Temp,
}

/// Says whether a name is `.` or `..`.
pub(crate) fn is_dots(name: &[u8]) -> bool
    ensures { result ≡ is_dots name.now }
{
    match name {
        [only] => *only == b'.',
        [first, second] => *first == b'.' && *second == b'.',
        _ => false,
    }
}

/// The temporary of a seat under a name in the folder of a document, in a view.
pub(crate) fn own_called<'a>(
    temps: &'a Temps,
    seat: u32,
    view: u32,
    document: DocId,
    name: &[u8],
) -> Option<OwnEntry<'a>>
    ensures found { (has : HeldTemps) → temps_on temps.now.seats seat ≡ Some has →
        option_map entry_told result ≡ found_temp has.temps view document name.now }
    ensures there { IfSome result
        (λ own. temp_of (own_on temps.now.seats seat) own.k ≡ Some own.temp.now) }
{
    let k = temps.find(seat, view, document, name)?;
    match temps.get(seat, k) {
        Some(temp) => Some(OwnEntry { k, temp }),
        None => None,
    }
}

/// The temporary of a seat at a place of its list, from 0.
pub(crate) fn own_at(temps: &Temps, seat: u32, place: u32) -> Option<OwnEntry>
    ensures { (has : HeldTemps) → temps_on temps.now.seats seat ≡ Some has →
        option_map entry_told result ≡ slice_get has.temps place }
{
    let k = temps.at(seat, place)?;
    match temps.get(seat, k) {
        Some(temp) => Some(OwnEntry { k, temp }),
        None => None,
    }
}

/// The temporary of a seat under a name, as a LOOKUP of the name at a place asks for it.
pub(crate) fn own_file<'a>(
    temps: &'a Temps,
    seat: u32,
    place: Option<SeenPlace>,
    name: &[u8],
) -> Option<OwnFile<'a>>
    ensures { (has : HeldTemps) → temps_on temps.now.seats seat ≡ Some has →
        IsFoundAt place.entry result name.now has.temps }
{
    match place {
        Some(SeenPlace::Folder { view, seen }) => {
            own_file_in(temps, seat, view, seen.document.id, name)
        }
        _ => None,
    }
}

/// The same, in the folder of a document in a view.
fn own_file_in<'a>(
    temps: &'a Temps,
    seat: u32,
    view: u32,
    document: DocId,
    name: &[u8],
) -> Option<OwnFile<'a>>
    ensures { (has : HeldTemps) → temps_on temps.now.seats seat ≡ Some has →
        IsFoundOwn result (found_temp has.temps view document name.now) }
{
    match own_called(temps, seat, view, document, name) {
        Some(own) => Some(OwnFile {
            k: own.k,
            file: &own.temp.file,
        }),
        None => None,
    }
}

/// Takes room for one more temporary of a seat; `false` exactly where it may have no more.
pub(crate) fn take_temp(temps: &mut Temps, seat: u32) -> Result<bool, WantOfMemory>
    requires { IsSome (own_on temps.old.seats seat) }
    ensures full { (has : HeldTemps) → temps_on temps.old.seats seat ≡ Some has →
        IfOk result (λ free. lacks_temp (seat_temps temps.old has) ≡ not free) }
    ensures room { IfOk result (λ free. free ≡ true →
        IsSomeAnd (own_on temps.new.seats seat) CanAdd × (0 < temps.new.room)) }
    ensures kept { TempsKept temps.old temps.new }
{
    match temps.reserve(seat) {
        Ok(()) => Ok(true),
        Err(TempError::Full) => Ok(false),
        Err(TempError::Memory) => Err(WantOfMemory),
    }
}

/// The next file of a document's path that isn't present, as a temporary of this name.
pub(crate) fn next_temp(
    alloc: Global,
    temps: &Temps,
    view: u32,
    document: &Document,
    name: &[u8],
) -> Result<Temp, WantOfMemory>
    ensures { IfOk result (λ temp. temp
        ≡ temp_made view document.now name.now (next_name temps.now document.now)) }
{
    let Some(generation) = temps.last_taken(&document.path).checked_add(1) else {
        return Err(WantOfMemory);
    };
    Ok(Temp {
        document: document.id,
        view,
        name: List::copied(alloc, name)?,
        file: FileName {
            path: document.path.replica(alloc)?,
            generation,
        },
    })
}

/// Adds a temporary for which room was taken: its number.
pub(crate) fn add_temp(temps: &mut Temps, seat: u32, temp: Temp) -> u32
    requires room { IsSomeAnd (own_on temps.old.seats seat) CanAdd }
    requires path { 0 < temps.old.room }
    requires next { temp.file.generation ≡ last_taken temps.old.taken temp.file.path + 1 }
    ensures number { (has : HeldTemps) → temps_on temps.old.seats seat ≡ Some has →
        result ≡ has.added + 1 }
    ensures temps { SeatTemped seat (TempsChange (Begins temp)) temps.old temps.new }
    ensures taken { temps.new.taken
        ≡ with_taken temp.file.path temp.file.generation temps.old.taken }
{
    match temps.add(seat, temp) {
        Ok(k) => k,
        Err(_) => unreachable!(),
    }
}

/// Takes the temporary of a number out.
pub(crate) fn drop_temp(temps: &mut Temps, seat: u32, k: u32)
    ensures temps { SeatTemped seat (TempsChange (Drops k)) temps.old temps.new }
    ensures taken { temps.new.taken ≡ temps.old.taken }
{
    // With a call for a number comes that the numbers of a connection differ.
    let _ = temps.get(seat, k);
    temps.remove(seat, k);
}

/// Gives the temporary of a number another name; another of that name in its folder is
/// gone then.
pub(crate) fn rename_temp(
    temps: &mut Temps,
    seat: u32,
    k: u32,
    view: u32,
    document: DocId,
    name: &[u8],
) -> Result<(), WantOfMemory>
    requires { IsSome (temp_of (own_on temps.old.seats seat) k) }
    ensures ok { (temp : TempNow) → temp.view ≡ view → temp.document ≡ document → OnOk result
        (SeatTemped seat (TempsChange (Renames k temp name.now)) temps.old temps.new) }
    ensures err { OnErr result (TempsKept temps.old temps.new) }
    ensures taken { temps.new.taken ≡ temps.old.taken }
{
    // With a call for a number comes that the numbers of a connection differ.
    let _ = temps.get(seat, k);
    temps.rename(seat, k, name)?;
    temps.remove_others(seat, k, view, document, name);
    Ok(())
}
