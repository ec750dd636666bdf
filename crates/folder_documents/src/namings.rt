//! What all connections named.

ghost use Rattle.std.specs.Prelude.{◌≡◌, [], IsOk, IfOk, OnOk, OnErr, IfErr, IfSome, option_copied, None, is_some, IsSome, IsSomeAnd};
ghost use Rattle.folder_documents.specs.Named.{named_on, naming_at, AreNamings, AtSeat, Both, Enters, Leaves, Names, Keeps, CanName};
ghost use Rattle.folder_documents.specs.NamingErrors.{Refuses, RefusesRoom};

use crate::named::{NamingError, SeatNamings};
use indexmap::IndexMap;
use portal_base::memory::WantOfMemory;
use portal_model::naming::Naming;
use std::alloc::Global;
use std::marker::Model;

/// The namings of the connections, by seat.
#[derive(Drop)]
pub struct Namings {
    alloc: Global,
    // Seats are the portal's own numbers, so no caller picks them.
    seats: IndexMap<u32, SeatNamings>,
}

impl Model for Namings {
    ghost use Rattle.std.specs.Prelude.{List, ℕ};
    ghost use Rattle.folder_documents.specs.Named.{Named};

    ghost Value = { List (ℕ × Named) };

    ghost view = { λ a. a.seats.entries };
}

impl Namings {
    /// No connections.
    pub fn new(alloc: Global) -> Namings
        ensures { result ≡ [] }
    {
        Namings {
            alloc,
            seats: IndexMap::new(alloc),
        }
    }

    /// A connection begins, with nothing named. It wasn't entered, or was left
    /// since.
    pub fn enter(&mut self, seat: u32) -> Result<(), WantOfMemory>
        requires { named_on self.old seat ≡ None }
        ensures ok { OnOk result (AtSeat Enters self.old self.new seat) }
        ensures err { OnErr result (self.new ≡ self.old) }
    {
        self.seats.insert(seat, SeatNamings::new(self.alloc))?;
        Ok(())
    }

    /// Says whether a connection was entered and not left.
    pub fn is_entered(&self, seat: u32) -> bool
        ensures { result ≡ is_some (named_on self.now seat) }
    {
        self.seats.contains_key(&seat)
    }

    /// Takes room for a naming of a connection, which was entered and not left.
    pub fn reserve(&mut self, seat: u32, naming: &Naming) -> Result<(), NamingError>
        requires { IsSome (named_on self.old seat) }
        ensures ok { OnOk result (IsSomeAnd (named_on self.new seat) (CanName naming.now)) }
        ensures refused { IfErr result (λ e. IfSome (named_on self.old seat)
            (λ n. RefusesRoom naming.now n e)) }
        ensures kept { AtSeat (Both Keeps) self.old self.new seat }
    {
        reserve_on(self.alloc, &mut self.seats, seat, naming)
    }

    /// The number of a naming on a connection, which was entered and not left. What
    /// wasn't named on it gets the next one, from 1.
    pub fn name(&mut self, seat: u32, naming: Naming) -> Result<u32, NamingError>
        requires { IsSome (named_on self.old seat) }
        ensures ok { IfOk result (λ k. AtSeat (Both (Names k naming)) self.old self.new seat) }
        ensures refused { IfErr result (λ e. IfSome (named_on self.old seat)
            (λ n. Refuses naming n e)) }
        ensures err { OnErr result (AtSeat (Both Keeps) self.old self.new seat) }
        ensures reserved { IsSomeAnd (named_on self.old seat) (CanName naming) → IsOk result }
    {
        name_on(&mut self.seats, seat, naming)
    }

    /// The naming of a number on a connection, whose namings differ and are no more
    /// than there may be.
    pub fn get(&self, seat: u32, k: u32) -> Option<&Naming>
        ensures naming { option_copied result ≡ naming_at (named_on self.now seat) k }
        ensures known { IfSome (named_on self.now seat) (λ n. AreNamings n.namings) }
    {
        self.seats.get(&seat)?.get(k)
    }

    /// A connection ends, and its namings go.
    pub fn leave(&mut self, seat: u32)
        ensures { AtSeat Leaves self.old self.new seat }
    {
        self.seats.swap_remove(&seat);
    }
}

/// Takes room for a naming of a connection.
fn reserve_on(
    alloc: Global,
    seats: &mut IndexMap<u32, SeatNamings>,
    seat: u32,
    naming: &Naming,
) -> Result<(), NamingError>
    requires { IsSome (named_on seats.old.entries seat) }
    ensures ok { OnOk result (IsSomeAnd (named_on seats.new.entries seat) (CanName naming.now)) }
    ensures refused { IfErr result (λ e. IfSome (named_on seats.old.entries seat)
        (λ n. RefusesRoom naming.now n e)) }
    ensures kept { AtSeat (Both Keeps) seats.old.entries seats.new.entries seat }
{
    match seats.get_mut(&seat) {
        Some(named) => named.reserve(alloc, naming),
        None => Err(NamingError::Memory),
    }
}

/// The number of a naming on a connection.
fn name_on(
    seats: &mut IndexMap<u32, SeatNamings>,
    seat: u32,
    naming: Naming,
) -> Result<u32, NamingError>
    requires { IsSome (named_on seats.old.entries seat) }
    ensures ok { IfOk result (λ k. AtSeat (Both (Names k naming))
        seats.old.entries seats.new.entries seat) }
    ensures refused { IfErr result (λ e. IfSome (named_on seats.old.entries seat)
        (λ n. Refuses naming n e)) }
    ensures err { OnErr result (AtSeat (Both Keeps) seats.old.entries seats.new.entries seat) }
    ensures reserved { IsSomeAnd (named_on seats.old.entries seat) (CanName naming) → IsOk result }
{
    match seats.get_mut(&seat) {
        Some(named) => named.name(naming),
        None => Err(NamingError::Memory),
    }
}
