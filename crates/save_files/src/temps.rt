//! The temporaries of all connections.

ghost use Rattle.std.specs.Prelude.{◌≡◌, ◌+◌, ◌<◌, ◌≤◌, [], IsOk, IfOk, OnOk, OnErr, IfErr, IfSome, option_copied, None, is_some, IsSome, IsSomeAnd};
ghost use Rattle.save_files.specs.Own.{own_on, temp_of, found_in, number_at, AtSeat, IsKept, Both, Enters, Leaves, Adds, Renames, Removes, RemovesOthers, Keeps, CanAdd};
ghost use Rattle.save_files.specs.Taken.{last_taken, with_taken};
ghost use Rattle.save_files.specs.TempErrors.{Refuses};

use crate::own::{SeatTemps, TempError};
use crate::taken::TakenList;
use indexmap::IndexMap;
use portal_base::list::{ByteList, List};
use portal_base::memory::WantOfMemory;
use portal_base::names::doc_id::DocId;
use portal_base::names::host_path::HostPath;
use portal_model::opening::TakenGeneration;
use portal_model::temporary::Temp;
use std::alloc::Global;
use std::marker::Model;

/// The temporaries of the connections, by seat, and the last generation that was taken
/// for each path.
#[derive(Drop)]
pub struct Temps {
    alloc: Global,
    // Seats and numbers are the portal's own, so no caller picks them.
    seats: IndexMap<u32, SeatTemps>,
    taken: TakenList,
}

impl Model for Temps {
    ghost use Rattle.save_files.specs.Tables.{TempTable, AreWithin};

    ghost Value = { TempTable };

    ghost view = { λ a. record {
      seats = a.seats.entries;
      taken = a.taken.taken;
      room = a.taken.room;
    } };

    ghost invariant = { λ a. AreWithin a.seats.entries };
}

impl Temps {
    /// No connections, and no generation taken.
    pub fn new(alloc: Global) -> Temps
        ensures seats { result.seats ≡ [] }
        ensures taken { result.taken ≡ [] }
    {
        Temps {
            alloc,
            seats: IndexMap::new(alloc),
            taken: TakenList::new(alloc),
        }
    }

    /// No connections, and these generations taken.
    pub fn with_taken(alloc: Global, taken: List<TakenGeneration>) -> Temps
        ensures seats { result.seats ≡ [] }
        ensures taken { result.taken ≡ taken }
    {
        Temps {
            alloc,
            seats: IndexMap::new(alloc),
            taken: TakenList::over(alloc, taken),
        }
    }

    /// A connection begins, with no temporary and no number given. It wasn't
    /// entered, or was left since.
    pub fn enter(&mut self, seat: u32) -> Result<(), WantOfMemory>
        requires { own_on self.old.seats seat ≡ None }
        ensures ok { OnOk result (AtSeat Enters self.old.seats self.new.seats seat) }
        ensures err { OnErr result (self.new.seats ≡ self.old.seats) }
        ensures taken { self.new.taken ≡ self.old.taken }
    {
        self.seats.insert(seat, SeatTemps::new(self.alloc))?;
        Ok(())
    }

    /// Says whether a connection was entered and not left.
    pub fn is_entered(&self, seat: u32) -> bool
        ensures { result ≡ is_some (own_on self.now.seats seat) }
    {
        self.seats.contains_key(&seat)
    }

    /// Takes room for the next temporary of a connection, which was entered and not
    /// left, and for its path among those that generations were taken for.
    pub fn reserve(&mut self, seat: u32) -> Result<(), TempError>
        requires { IsSome (own_on self.old.seats seat) }
        ensures ok { OnOk result (IsSomeAnd (own_on self.new.seats seat) CanAdd
            × (0 < self.new.room)) }
        ensures refused { IfErr result (λ e. IfSome (own_on self.old.seats seat)
            (λ o. Refuses o e)) }
        ensures kept { AtSeat (Both Keeps) self.old.seats self.new.seats seat }
        ensures taken { self.new.taken ≡ self.old.taken }
        ensures room { self.old.room ≤ self.new.room }
        ensures reserved { IsSomeAnd (own_on self.old.seats seat) CanAdd → 0 < self.old.room
            → IsOk result }
    {
        reserve_on(&mut self.seats, &mut self.taken, seat)
    }

    /// Adds a temporary to a connection, which was entered and not left; answers its
    /// number, one more than the connection was given last. Its file's generation is the
    /// next of its path, and is taken.
    pub fn add(&mut self, seat: u32, temp: Temp) -> Result<u32, TempError>
        requires entered { IsSome (own_on self.old.seats seat) }
        requires next { temp.file.generation ≡ last_taken self.old.taken temp.file.path + 1 }
        ensures ok { IfOk result (λ k. AtSeat (Both (Adds k temp)) self.old.seats self.new.seats
            seat) }
        ensures taken { OnOk result (self.new.taken
            ≡ with_taken temp.file.path temp.file.generation self.old.taken) }
        ensures refused { IfErr result (λ e. IfSome (own_on self.old.seats seat)
            (λ o. Refuses o e)) }
        ensures err { OnErr result (AtSeat (Both Keeps) self.old.seats self.new.seats seat
            × (self.new.taken ≡ self.old.taken)) }
        ensures reserved { IsSomeAnd (own_on self.old.seats seat) CanAdd → 0 < self.old.room
            → IsOk result }
    {
        add_on(&mut self.seats, &mut self.taken, seat, temp)
    }

    /// Gives the temporary of a number on a connection, which has it, another name.
    pub fn rename(&mut self, seat: u32, k: u32, name: &[u8]) -> Result<(), WantOfMemory>
        requires { IsSome (temp_of (own_on self.old.seats seat) k) }
        ensures ok { OnOk result (AtSeat (Both (Renames k name.now)) self.old.seats self.new.seats
            seat) }
        ensures err { OnErr result (self.new.seats ≡ self.old.seats) }
        ensures taken { self.new.taken ≡ self.old.taken }
    {
        let name = List::copied(self.alloc, name)?;
        rename_on(&mut self.seats, seat, k, name);
        Ok(())
    }

    /// Takes the temporary of a number on a connection out.
    pub fn remove(&mut self, seat: u32, k: u32) -> Option<Temp>
        ensures temp { result ≡ temp_of (own_on self.old.seats seat) k }
        ensures rest { AtSeat (Both (Removes k)) self.old.seats self.new.seats seat }
        ensures taken { self.new.taken ≡ self.old.taken }
    {
        remove_on(&mut self.seats, seat, k)
    }

    /// Takes the temporaries of a connection in a view, of a document and of a name out,
    /// but for that of a number.
    pub fn remove_others(&mut self, seat: u32, k: u32, view: u32, document: DocId, name: &[u8])
        ensures rest { AtSeat (Both (RemovesOthers k view document.number name.now))
            self.old.seats self.new.seats seat }
        ensures taken { self.new.taken ≡ self.old.taken }
    {
        remove_others_on(&mut self.seats, seat, k, view, document, name);
    }

    /// The temporary of a number on a connection, which has no more than it may; their
    /// numbers differ, and were given to it.
    pub fn get(&self, seat: u32, k: u32) -> Option<&Temp>
        ensures temp { option_copied result ≡ temp_of (own_on self.now.seats seat) k }
        ensures known { IfSome (own_on self.now.seats seat) IsKept }
    {
        self.seats.get(&seat)?.get(k)
    }

    /// The number of the first temporary of a connection in a view, of a document and of
    /// a name.
    pub fn find(&self, seat: u32, view: u32, document: DocId, name: &[u8]) -> Option<u32>
        ensures { result ≡ found_in (own_on self.now.seats seat) view document.number name.now }
    {
        self.seats.get(&seat)?.find(view, document, name)
    }

    /// The number of the temporary of a connection at a place of its list, from 0.
    pub fn at(&self, seat: u32, place: u32) -> Option<u32>
        ensures { result ≡ number_at (own_on self.now.seats seat) place }
    {
        self.seats.get(&seat)?.at(place as usize)
    }

    /// The last generations that were taken, of which each path has one at most.
    pub fn taken(&self) -> &[TakenGeneration]
        ensures { result.now ≡ self.now.taken }
    {
        self.taken.as_slice()
    }

    /// The last generation that was taken for a path, or 0.
    pub fn last_taken(&self, path: &HostPath) -> u64
        ensures { result ≡ last_taken self.now.taken path.now }
    {
        self.taken.last(path.as_bytes())
    }

    /// A connection ends, and its temporaries go.
    pub fn leave(&mut self, seat: u32)
        ensures rest { AtSeat Leaves self.old.seats self.new.seats seat }
        ensures taken { self.new.taken ≡ self.old.taken }
    {
        self.seats.swap_remove(&seat);
    }
}

/// Takes room for the next temporary of a connection.
fn reserve_on(
    seats: &mut IndexMap<u32, SeatTemps>,
    taken: &mut TakenList,
    seat: u32,
) -> Result<(), TempError>
    requires { IsSome (own_on seats.old.entries seat) }
    ensures ok { OnOk result (IsSomeAnd (own_on seats.new.entries seat) CanAdd
        × (0 < taken.new.room)) }
    ensures refused { IfErr result (λ e. IfSome (own_on seats.old.entries seat)
        (λ o. Refuses o e)) }
    ensures kept { AtSeat (Both Keeps) seats.old.entries seats.new.entries seat }
    ensures taken { taken.new.taken ≡ taken.old.taken }
    ensures room { taken.old.room ≤ taken.new.room }
    ensures reserved { IsSomeAnd (own_on seats.old.entries seat) CanAdd → 0 < taken.old.room
        → IsOk result }
{
    room_on(seats, seat)?;
    if taken.reserve().is_err() {
        return Err(TempError::Memory);
    }
    Ok(())
}

/// Takes room for the next temporary of a connection, but for its path.
fn room_on(seats: &mut IndexMap<u32, SeatTemps>, seat: u32) -> Result<(), TempError>
    requires { IsSome (own_on seats.old.entries seat) }
    ensures ok { OnOk result (IsSomeAnd (own_on seats.new.entries seat) CanAdd) }
    ensures refused { IfErr result (λ e. IfSome (own_on seats.old.entries seat)
        (λ o. Refuses o e)) }
    ensures kept { AtSeat (Both Keeps) seats.old.entries seats.new.entries seat }
    ensures reserved { IsSomeAnd (own_on seats.old.entries seat) CanAdd → IsOk result }
{
    match seats.get_mut(&seat) {
        Some(own) => own.reserve(),
        None => Err(TempError::Memory),
    }
}

/// Adds a temporary to a connection.
fn add_on(
    seats: &mut IndexMap<u32, SeatTemps>,
    taken: &mut TakenList,
    seat: u32,
    temp: Temp,
) -> Result<u32, TempError>
    requires { IsSome (own_on seats.old.entries seat) }
    ensures ok { IfOk result (λ k. AtSeat (Both (Adds k temp)) seats.old.entries seats.new.entries
        seat) }
    ensures taken { OnOk result (taken.new.taken
        ≡ with_taken temp.file.path temp.file.generation taken.old.taken) }
    ensures refused { IfErr result (λ e. IfSome (own_on seats.old.entries seat)
        (λ o. Refuses o e)) }
    ensures err { OnErr result (AtSeat (Both Keeps) seats.old.entries seats.new.entries seat
        × (taken.new.taken ≡ taken.old.taken)) }
    ensures reserved { IsSomeAnd (own_on seats.old.entries seat) CanAdd → 0 < taken.old.room
        → IsOk result }
{
    reserve_on(seats, taken, seat)?;
    taken.take(temp.file.path.as_bytes(), temp.file.generation);
    put_on(seats, seat, temp)
}

/// Adds a temporary to a connection, which has room for it.
fn put_on(seats: &mut IndexMap<u32, SeatTemps>, seat: u32, temp: Temp) -> Result<u32, TempError>
    requires { IsSomeAnd (own_on seats.old.entries seat) CanAdd }
    ensures ok { IfOk result (λ k. AtSeat (Both (Adds k temp)) seats.old.entries seats.new.entries
        seat) }
    ensures done { IsOk result }
{
    match seats.get_mut(&seat) {
        Some(own) => own.add(temp),
        None => Err(TempError::Memory),
    }
}

/// Gives the temporary of a number on a connection another name.
fn rename_on(seats: &mut IndexMap<u32, SeatTemps>, seat: u32, k: u32, name: ByteList)
    requires { IsSome (temp_of (own_on seats.old.entries seat) k) }
    ensures { AtSeat (Both (Renames k name)) seats.old.entries seats.new.entries seat }
{
    if let Some(own) = seats.get_mut(&seat) {
        own.rename(k, name);
    }
}

/// Takes the temporary of a number on a connection out.
fn remove_on(seats: &mut IndexMap<u32, SeatTemps>, seat: u32, k: u32) -> Option<Temp>
    ensures temp { result ≡ temp_of (own_on seats.old.entries seat) k }
    ensures rest { AtSeat (Both (Removes k)) seats.old.entries seats.new.entries seat }
{
    match seats.get_mut(&seat) {
        Some(own) => own.remove(k),
        None => None,
    }
}

/// Takes the temporaries of a connection in a view, of a document and of a name out, but
/// for that of a number.
fn remove_others_on(
    seats: &mut IndexMap<u32, SeatTemps>,
    seat: u32,
    k: u32,
    view: u32,
    document: DocId,
    name: &[u8],
)
    ensures { AtSeat (Both (RemovesOthers k view document.number name.now)) seats.old.entries
        seats.new.entries seat }
{
    if let Some(own) = seats.get_mut(&seat) {
        own.remove_others(k, view, document, name);
    }
}
