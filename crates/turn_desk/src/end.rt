//! How a turn ends.

ghost use Rattle.std.specs.Prelude.{◌≡◌, ◌≢◌, ◌⊎◌, ℕ, ◌<◌, [], Some, IfSome, IfNone, vec_len, slice_get, false};
ghost use Rattle.portal_model.specs.History.{of_seat};
ghost use Rattle.portal_model.specs.Seated.{BeginsWith};
ghost use Rattle.turn_desk.specs.Deals.{AreAll, Stands};
ghost use Rattle.turn_desk.specs.Views.{IsKept};

use crate::rule::{Place, Top};
use crate::seats::{Pass, Turn};
use crate::table::{finish, join};
use portal_core::storied::Storied;

/// All are joined into the root.
fn gather<S: Storied>(top: &Top<S>, root: Place<S>, mut passes: Vec<Pass<S>>) -> Place<S>
    requires table { (root.table_id ≡ top.now.table_id) × (top.now.table_id.words ≡ 2) }
    requires root { (root.me.1 ≡ []) × (0 < root.me.0.number) × (root.me.0.holds ≡ false) }
    requires passes { (k : ℕ) (p : _) → slice_get passes.items k ≡ Some p
        → p.table ≡ top.now.table_id }
    ensures table { result.table_id ≡ top.now.table_id }
    ensures root { (result.me.0.number ≡ root.me.0.number)
        × (result.me.0.made ≡ root.me.0.made) × (result.me.0.holds ≡ false)
        × (result.me.1 ≡ []) }
    ensures kept { ((result.me.0 ≡ root.me.0) × (vec_len passes ≡ 0))
        ⊎ IsKept result.me.0 root.me.0 }
    ensures others { (k : ℕ) (p : _) → slice_get passes.items k ≡ Some p
        → IsKept result.me.0 p.knows }
{
    let mut root = root;
    while let Some(pass) = passes.pop() {
        let Pass { place, number: _ } = pass;
        join(top, &mut root, place);
    }
    passes.destroy_empty();
    root
}

/// Where the pass of the first seat lies.
fn place_of_first<S: Storied>(passes: &[Pass<S>]) -> Option<usize>
    ensures found { IfSome result
        (λ k. (p : _) × (slice_get passes.now k ≡ Some p) × (p.knows.number ≡ 1)) }
    ensures none { IfNone result
        ((k : ℕ) (p : _) → slice_get passes.now k ≡ Some p → p.knows.number ≢ 1) }
{
    for at in 0..passes.len() {
        if passes[at].number() == 1 {
            return Some(at);
        }
    }
    None
}

/// Takes the portal back from a turn, given all its passes, in whatever order.
/// It takes no memory.
///
/// The portal's history goes on from that at the start. Of each seat it begins
/// with what the seat has seen, has just the entries that the seat knows for
/// its own, and is as long as the seat once read; of numbers without a pass it
/// has no entries but those from before the start.
pub fn close<S: Storied>(turn: Turn<S>, passes: Vec<Pass<S>>) -> S
    requires { AreAll turn.table turn.seats passes.items }
    ensures opening { S.opening result ≡ S.opening turn.start }
    ensures begins { BeginsWith (S.entries result) (S.entries turn.start) }
    ensures seats { (k : ℕ) (p : _) → slice_get passes.items k ≡ Some p
        → Stands (S.opening turn.start) (S.entries result) p.knows }
    ensures others { (n : ℕ) → (n ≡ 0) ⊎ (turn.seats < n)
        → of_seat n (S.entries result) ≡ of_seat n (S.entries turn.start) }
{
    let mut passes = passes;
    let Turn {
        board,
        seats: _,
        sleepers: _,
    } = turn;
    // Passes may come in whatever order: the first seat's view knows how many numbers were given.
    let Some(at) = place_of_first(passes.as_slice()) else {
        unreachable!()
    };
    let first = passes.remove(at);
    let Pass { place, number: _ } = first;
    let root = gather(&board.shared, place, passes);
    finish(board, root)
}
