//! The unsent signals of all connections.

ghost use Rattle.std.specs.Prelude.{◌≡◌, ◌↔◌, ℕ, ◌≤◌, [], None, IfOk, OnOk, OnErr, IfSome, IsTrue, unwrap_or, length, slice_get};
ghost use Rattle.indexmap.specs.IndexMap.{set_value_at};
ghost use Rattle.std.specs.Map.{values_of};
ghost use Rattle.change_signals.specs.Unsent.{Boxes, unsent_on, entered, left, told, untold, holding, with_last, without_last, first_become, AtSeat, AtEach, IsSame, IsWaiting};
ghost use Rattle.portal_model.specs.declared.reply.Change.{Change};

use crate::outbox::Outbox;
use dbus_types::shared::Shared;
use indexmap::IndexMap;
use portal_base::list::List;
use portal_base::memory::WantOfMemory;
use portal_model::reply::Change;
use std::alloc::Global;
use std::marker::Model;

/// The unsent signals of the connections that hear of changes, by seat.
#[derive(Drop)]
pub struct Outboxes {
    alloc: Global,
    boxes: IndexMap<u32, Outbox>,
}

impl Model for Outboxes {
    ghost use Rattle.dbus_types.specs.contracts.types.Value as e;
    ghost use Rattle.std.specs.Coded.{codes};
    ghost use Rattle.change_signals.specs.Unsent.{Boxes};

    ghost Value = { Boxes };

    ghost coded = { Prim.hlevel (codes, e.the_row.coded) };

    ghost view = { λ a. a.boxes.entries };
}

impl Outboxes {
    /// No connections.
    pub fn new(alloc: Global) -> Outboxes
        ensures { result ≡ [] }
    {
        Outboxes {
            alloc,
            boxes: IndexMap::new(alloc),
        }
    }

    /// A connection begins, and nothing is unsent on it. It wasn't entered, or was
    /// left since.
    pub fn enter(&mut self, seat: u32) -> Result<(), WantOfMemory>
        requires { unsent_on self.old seat ≡ None }
        ensures ok { OnOk result (AtSeat entered self.old self.new seat) }
        ensures err { OnErr result (self.new ≡ self.old) }
    {
        self.boxes.insert(seat, Outbox::new(self.alloc))?;
        Ok(())
    }

    /// A change is told to every connection, behind what is unsent there.
    pub fn post(&mut self, change: Change) -> Result<(), WantOfMemory>
        ensures ok { OnOk result (AtEach (told change) self.old self.new) }
        ensures err { OnErr result (self.new ≡ self.old) }
    {
        let shared = Shared::new(self.alloc, change)?;
        post_to_all(&mut self.boxes, &shared)
    }

    /// The unsent signals of a connection, of which none is unsent then; none where
    /// it wasn't entered. Where there is no memory to copy them all are as they were.
    pub fn take(&mut self, seat: u32) -> Result<List<Change>, WantOfMemory>
        ensures signals { IfOk result (λ signals. signals
            ≡ unwrap_or (unsent_on self.old seat) []) }
        ensures rest { OnOk result (AtSeat (holding []) self.old self.new seat) }
        ensures err { OnErr result (self.new ≡ self.old) }
    {
        take_at(&mut self.boxes, seat, self.alloc)
    }

    /// Whether some signals of a connection are unsent; none are where it wasn't
    /// entered.
    pub fn waiting(&self, seat: u32) -> bool
        ensures { IsTrue result ↔ IsWaiting self.now seat }
    {
        match self.boxes.get(&seat) {
            Some(outbox) => !outbox.is_empty(),
            None => false,
        }
    }

    /// A connection ends, and its signals go.
    pub fn leave(&mut self, seat: u32)
        ensures { AtSeat left self.old self.new seat }
    {
        self.boxes.swap_remove(&seat);
    }

    /// The last signal goes on every connection. Where the last call was a post,
    /// all are as before it.
    pub fn unpost(&mut self)
        ensures last { AtEach untold self.old self.new }
        ensures back { (before : Boxes) (change : Change)
            → AtEach (told change) before self.old → IsSame before self.new }
    {
        let count = self.boxes.len();
        unpost_first(&mut self.boxes, count);
    }

    /// Signals that were taken from a connection are unsent on it again. Since
    /// then none was told to it.
    pub fn give_back(&mut self, seat: u32, taken: List<Change>)
        requires { IfSome (unsent_on self.old seat) (λ signals. signals ≡ []) }
        ensures { AtSeat (holding taken) self.old self.new seat }
    {
        // The box is empty, as is required: to put changes ahead of others would take memory.
        hold_at(&mut self.boxes, seat, taken, self.alloc);
    }
}

/// Takes what is unsent on a connection; nothing where it wasn't entered.
fn take_at(
    boxes: &mut IndexMap<u32, Outbox>,
    seat: u32,
    alloc: Global,
) -> Result<List<Change>, WantOfMemory>
    ensures signals { IfOk result (λ signals. signals
        ≡ unwrap_or (unsent_on boxes.old.entries seat) []) }
    ensures rest { OnOk result
        (AtSeat (holding []) boxes.old.entries boxes.new.entries seat) }
    ensures err { OnErr result (boxes.new.entries ≡ boxes.old.entries) }
{
    match boxes.get_mut(&seat) {
        Some(outbox) => outbox.take(alloc),
        None => Ok(List::new(alloc)),
    }
}

/// Puts signals in the place of those that are unsent on a connection.
fn hold_at(boxes: &mut IndexMap<u32, Outbox>, seat: u32, signals: List<Change>, alloc: Global)
    ensures { AtSeat (holding signals) boxes.old.entries boxes.new.entries seat }
{
    if let Some(outbox) = boxes.get_mut(&seat) {
        outbox.hold(alloc, signals);
    }
}

/// Adds a change to every box, or to none.
fn post_to_all(
    boxes: &mut IndexMap<u32, Outbox>,
    change: &Shared<Change>,
) -> Result<(), WantOfMemory>
    ensures ok { OnOk result (AtEach (told change.now) boxes.old.entries boxes.new.entries) }
    ensures err { OnErr result (boxes.new.entries ≡ boxes.old.entries) }
{
    for place in 0..boxes.len() {
        match post_at(boxes, place, change) {
            Ok(()) => {}
            Err(error) => {
                unpost_first(boxes, place);
                return Err(error);
            }
        }
    }
    Ok(())
}

/// Adds a change to the box at a place.
fn post_at(
    boxes: &mut IndexMap<u32, Outbox>,
    place: usize,
    change: &Shared<Change>,
) -> Result<(), WantOfMemory>
    ensures ok { OnOk result (IfSome (slice_get (values_of boxes.old.entries) place)
        (λ signals. boxes.new.entries
        ≡ set_value_at boxes.old.entries place (with_last change.now signals))) }
    ensures err { OnErr result (boxes.new.entries ≡ boxes.old.entries) }
{
    let owner = change.share()?;
    match boxes.get_index_mut(place) {
        Some(outbox) => outbox.push(owner),
        None => Ok(()),
    }
}

/// Takes the last signal out of each of the first boxes.
fn unpost_first(boxes: &mut IndexMap<u32, Outbox>, count: usize)
    requires { count ≤ length boxes.old.entries }
    ensures { boxes.new.entries ≡ first_become without_last count boxes.old.entries }
{
    for place in 0..count {
        unpost_at(boxes, place);
    }
}

/// Takes the last signal out of the box at a place.
fn unpost_at(boxes: &mut IndexMap<u32, Outbox>, place: usize)
    ensures { IfSome (slice_get (values_of boxes.old.entries) place) (λ signals. boxes.new.entries
        ≡ set_value_at boxes.old.entries place (without_last signals)) }
{
    if let Some(outbox) = boxes.get_index_mut(place) {
        outbox.pop();
    }
}
