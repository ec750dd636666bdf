//! How a table is laid and cleared, and how places at it are given and
//! gathered.

ghost use Rattle.std.specs.Prelude.{◌≡◌, ℕ, ◌+◌, ◌<◌, ◌≤◌, [], MatchResult, false};
ghost use Rattle.turn_desk.specs.Rules.{Covers, Ends};
ghost use Rattle.turn_desk.specs.Knowing.{fresh};
ghost use Rattle.turn_desk.specs.Views.{Sits, gave, given, joined};

use crate::rule::{Board, Gathers, Numbers, Place, Top};
use atomic_table::{Refused, Table};
use portal_core::storied::Storied;
use std::alloc::{AllocFailed, Global};
use std::snapshot::Snapshot;

/// The table with what keeps the history in its slot, and the first place.
/// That is handed back where there is no memory.
pub(crate) fn lay<S: Storied>(alloc: Global, portal: S) -> Result<(Board<S>, Place<S>), S>
    ensures { MatchResult result
        (λ t. (t.0.shared.table_id.words ≡ 2) × (t.0.shared.table_id.slots ≡ 1)
        × (t.0.shared.key.value ≡ portal) × (t.1.table_id ≡ t.0.shared.table_id)
        × (t.1.me ≡ (fresh 1 (S.opening portal) (S.entries portal) 1, [])))
        (λ back. back ≡ portal) }
{
    let about = Snapshot::of(&portal);
    let served = portal.entry_count();
    let mut slots = Vec::new(alloc);
    if let Err(failed) = slots.push(Some(portal)) {
        let AllocFailed { value } = failed;
        slots.destroy_empty();
        return Err(value.unwrap());
    }
    match Table::new(alloc, &[0, served], slots, &about) {
        Ok(made) => Ok(made),
        Err(refused) => {
            let Refused { mut slots } = refused;
            let portal = slots.pop().unwrap().unwrap();
            slots.destroy_empty();
            Err(portal)
        }
    }
}

/// The first seat gives a number to a new one.
pub(crate) fn split<S: Storied>(top: &Top<S>, place: &mut Place<S>) -> Place<S>
    requires table { (place.old.table_id ≡ top.now.table_id) × (top.now.table_id.words ≡ 2) }
    requires seat { (place.old.me.1 ≡ []) × Sits place.old.me.0 × (place.old.me.0.number ≡ 1)
        × (place.old.me.0.made < 65535) }
    ensures same { (place.new.table_id ≡ place.old.table_id)
        × (result.table_id ≡ place.old.table_id) }
    ensures views { (place.new.me ≡ (gave place.old.me.0, []))
        × (result.me ≡ (given place.old.me.0, [])) }
{
    top.split_seat::<Numbers>(place)
}

/// One seat takes another's view in.
pub(crate) fn join<S: Storied>(top: &Top<S>, place: &mut Place<S>, other: Place<S>)
    requires table { (place.old.table_id ≡ top.now.table_id)
        × (other.table_id ≡ top.now.table_id) × (top.now.table_id.words ≡ 2) }
    requires seat { (place.old.me.1 ≡ []) × (0 < place.old.me.0.number)
        × (place.old.me.0.holds ≡ false) }
    requires other { (other.me.1 ≡ []) × (0 < other.me.0.number) × (other.me.0.holds ≡ false) }
    ensures same { place.new.table_id ≡ place.old.table_id }
    ensures view { place.new.me ≡ (joined place.old.me.0 other.me.0, []) }
{
    top.join_seat::<Gathers>(place, other);
}

/// What keeps the history, once all seats are joined into this one.
pub(crate) fn finish<S: Storied>(board: Board<S>, place: Place<S>) -> S
    requires table { (place.table_id ≡ board.shared.table_id)
        × (board.shared.table_id.slots ≡ 1) }
    requires seat { (place.me.0.number ≡ 1) × (place.me.0.holds ≡ false) }
    requires all { (m : ℕ) → 0 < m → m ≤ place.me.0.made → Covers place.me.0 m }
    ensures { Ends S.opening S.entries board.shared.key.value result place.me.0.made place.me.0 }
{
    let mut closed = board.close_with(place);
    let portal = closed.take(0).unwrap();
    closed.free();
    portal
}
