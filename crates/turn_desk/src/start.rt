//! How a turn is started.

ghost use Rattle.std.specs.Prelude.{◌≡◌, ℕ, ◌+◌, ◌≤◌, [], Some, vec_len, vec_capacity, slice_get, MatchResult, IfOk, ◌==◌, if◌then◌else◌};
ghost use Rattle.portal_desk.specs.Opening.{IsOpeningState};
ghost use Rattle.portal_model.specs.History.{Legal, cost};
ghost use Rattle.turn_desk.specs.declared.start.TurnError.TheVariants as TurnError;
ghost use Rattle.turn_desk.specs.Deals.{IsDealt};
ghost use Rattle.turn_desk.specs.Knowing.{fresh};

use crate::rule::{Place, Top};
use crate::seats::{Pass, Turn};
use crate::sleepers::Sleepers;
use crate::table::{lay, split};
use portal_core::storied::Storied;
use std::alloc::Global;

/// A turn, and a pass for each of its seats, in the order of their numbers.
#[derive(Drop)]
pub struct Started<S: Storied> {
    /// The turn.
    pub turn: Turn<S>,
    // A plain `Vec`, since contracts see the room of no other list.
    /// The passes. They have room for as many, so that each is put back
    /// without memory.
    pub passes: Vec<Pass<S>>,
}

/// Why a turn isn't started.
#[derive(Drop)]
pub enum TurnError<S> {
    /// There was no memory.
    Memory {
        /// The portal, handed back.
        portal: S,
    },
}

/// One pass of each number from 2 on. The first place is given back.
fn spread<S: Storied>(
    top: &Top<S>,
    first: Place<S>,
    passes: &mut Vec<Pass<S>>,
    seats: u32,
) -> Place<S>
    requires table { (first.table_id ≡ top.now.table_id) × (top.now.table_id.words ≡ 2)
        × (1 ≤ seats) × (seats ≤ 65535) }
    requires first { first.me ≡ (fresh 1 first.me.0.opening first.me.0.base 1, []) }
    requires started { IsOpeningState first.me.0.opening }
    requires legal { Legal first.me.0.opening first.me.0.base }
    requires within { cost first.me.0.base ≤ first.me.0.opening.limits.history }
    requires room { (passes.old.items ≡ []) × (seats ≤ vec_capacity passes.old) }
    ensures first { (result.table_id ≡ top.now.table_id)
        × (result.me ≡ (fresh 1 first.me.0.opening first.me.0.base seats, [])) }
    ensures length { (vec_len passes.new + 1 ≡ seats)
        × (vec_capacity passes.new ≡ vec_capacity passes.old) }
    ensures passes { (k : ℕ) (p : _) → slice_get passes.new.items k ≡ Some p
        → IsDealt top.now.table_id first.me.0.opening first.me.0.base 0 (k + 2) p }
{
    let mut first = first;
    for k in 1..seats {
        let place = split(top, &mut first);
        passes.push_reserved(Pass {
            place,
            number: k + 1,
        });
    }
    first
}

impl<S: Storied> Turn<S> {
    /// A turn over a portal, for 1 to 65,535 seats, with a pass for each
    /// number from 1 on.
    ///
    /// `Memory` hands the portal back.
    pub fn start(alloc: Global, portal: S, seats: u32) -> Result<Started<S>, TurnError<S>>
        requires { (1 ≤ seats) × (seats ≤ 65535) }
        ensures value { MatchResult result
            (λ t. (t.turn.start ≡ portal) × (t.turn.seats ≡ seats))
            (λ error. error ≡ TurnError.Memory portal) }
        ensures room { IfOk result (λ t. seats ≤ vec_capacity t.passes) }
        ensures passes { IfOk result (λ t. (vec_len t.passes ≡ seats)
            × ((k : ℕ) (p : _) → slice_get t.passes.items k ≡ Some p
            → IsDealt t.turn.table (S.opening portal) (S.entries portal)
            (if k == 0 then seats else 0) (k + 1) p)) }
    {
        portal.known();
        let mut passes: Vec<Pass<S>> = Vec::new(alloc);
        if passes.reserve(seats as usize).is_err() {
            passes.destroy_empty();
            return Err(TurnError::Memory { portal });
        }
        let (board, first) = match lay(alloc, portal) {
            Ok(laid) => laid,
            Err(portal) => {
                passes.destroy_empty();
                return Err(TurnError::Memory { portal });
            }
        };
        let place = spread(&board.shared, first, &mut passes, seats);
        passes.push_reserved(Pass { place, number: 1 });
        passes.rotate_right(1);
        Ok(Started {
            turn: Turn {
                board,
                seats,
                sleepers: Sleepers::new(),
            },
            passes,
        })
    }
}
