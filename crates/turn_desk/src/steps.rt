//! The steps of a seat.

ghost use Rattle.std.specs.Prelude.{◌≡◌, ◌≢◌, ℕ, ◌+◌, ◌^◌, ◌<◌, ◌≤◌, Some, [], ◌∷◌, ◌++◌, length, true, None, MatchResult};
ghost use Rattle.portal_model.specs.declared.entry.Entry.{Entry};
ghost use Rattle.portal_model.specs.Seated.{BeginsWith, exchanges};
ghost use Rattle.turn_desk.specs.Views.{Sits, freed, holding, looked, lost, wrote};

use crate::rule::{Adds, Frees, Looks, Place, Takes, Top};
use portal_core::storied::Storied;

/// Takes the turn, and with it what keeps the history; or says which seat
/// holds the turn.
pub(crate) fn try_take<S: Storied>(
    top: &Top<S>,
    place: &mut Place<S>,
    number: u64,
) -> Result<S, u64>
    requires table { (place.old.table_id ≡ top.now.table_id) × (top.now.table_id.words ≡ 2) }
    requires seat { (place.old.me.1 ≡ []) × (number ≡ place.old.me.0.number)
        × Sits place.old.me.0 }
    ensures same { (place.new.table_id ≡ place.old.table_id) × (place.new.id ≡ place.old.id) }
    ensures answer { MatchResult result
        (λ x. (place.new.me ≡ (holding place.old.me.0 (S.entries x), (0, None) ∷ []))
        × (S.opening x ≡ place.old.me.0.opening)
        × BeginsWith (S.entries x) place.old.me.0.seen
        × (exchanges place.old.me.0.number place.old.me.0.opening (S.entries x)
        ≡ place.old.me.0.mine))
        (λ h. (place.new.me ≡ (lost place.old.me.0 h, [])) × (h ≢ 0)
        × (h ≢ place.old.me.0.number) × (h ≤ 65535)) }
{
    let found = top.compare_exchange::<Takes>(place, 0, 0, number);
    if found != 0 {
        return Err(found);
    }
    Ok(top.exchange(place, 0, None).unwrap())
}

/// What keeps the history goes back into its slot.
fn put<S: Storied>(top: &Top<S>, place: &mut Place<S>, portal: S)
    requires table { place.old.table_id ≡ top.now.table_id }
    requires taken { place.old.me.1 ≡ (0, None) ∷ [] }
    ensures { (place.new.table_id ≡ place.old.table_id) × (place.new.id ≡ place.old.id)
        × (place.new.me ≡ (place.old.me.0, (0, Some portal) ∷ [])) }
{
    let left = top.exchange(place, 0, Some(portal));
    let None = left else { unreachable!() };
}

/// After an entry: what keeps the history goes back, the entry is counted, and
/// the turn is free.
pub(crate) fn give_written<S: Storied>(top: &Top<S>, place: &mut Place<S>, portal: S)
    requires table { (place.old.table_id ≡ top.now.table_id) × (top.now.table_id.words ≡ 2) }
    requires seat { (place.old.me.1 ≡ (0, None) ∷ []) × (place.old.me.0.holds ≡ true)
        × (S.opening portal ≡ place.old.me.0.opening) }
    requires entry { (e : Entry) × (S.entries portal ≡ place.old.me.0.found ++ e ∷ [])
        × (e.seat ≡ place.old.me.0.number) }
    requires short { length (S.entries portal) < 2 ^ 64 }
    ensures same { (place.new.table_id ≡ place.old.table_id) × (place.new.id ≡ place.old.id) }
    ensures view { (e : Entry) → S.entries portal ≡ place.old.me.0.found ++ e ∷ []
        → place.new.me ≡ (freed (wrote place.old.me.0 e), []) }
{
    // The portal goes back into its slot, then the entry is counted, then the turn is free: so no
    // seat finds the turn free and the slot empty.
    put(top, place, portal);
    top.fetch_add::<Adds>(place, 1, 1);
    top.swap::<Frees>(place, 0, 0);
}

/// After a refusal: what keeps the history goes back, and the turn is free.
pub(crate) fn give_same<S: Storied>(top: &Top<S>, place: &mut Place<S>, portal: S)
    requires table { (place.old.table_id ≡ top.now.table_id) × (top.now.table_id.words ≡ 2) }
    requires seat { (place.old.me.1 ≡ (0, None) ∷ []) × (place.old.me.0.holds ≡ true)
        × (S.opening portal ≡ place.old.me.0.opening) }
    requires same { S.entries portal ≡ place.old.me.0.found }
    ensures same { (place.new.table_id ≡ place.old.table_id) × (place.new.id ≡ place.old.id) }
    ensures view { place.new.me ≡ (freed place.old.me.0, []) }
{
    put(top, place, portal);
    top.swap::<Frees>(place, 0, 0);
}

/// Reads the length of the history.
pub(crate) fn look<S: Storied>(top: &Top<S>, place: &mut Place<S>) -> u64
    requires table { (place.old.table_id ≡ top.now.table_id) × (top.now.table_id.words ≡ 2) }
    requires seat { (place.old.me.1 ≡ []) × Sits place.old.me.0 }
    ensures same { (place.new.table_id ≡ place.old.table_id) × (place.new.id ≡ place.old.id) }
    ensures view { place.new.me ≡ (looked place.old.me.0 result, []) }
    ensures far { (length place.old.me.0.seen ≤ result) × (place.old.me.0.known ≤ result) }
{
    top.load::<Looks>(place, 1)
}
