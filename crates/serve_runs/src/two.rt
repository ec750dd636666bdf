//! A turn of two seats.

ghost use Rattle.std.specs.Prelude.{◌≡◌, ◌≤◌, [], vec_capacity, IfOk};
ghost use Rattle.turn_desk.specs.Deals.{IsDealt, Stands};

use portal_core::storied::Storied;
use std::alloc::Global;
use turn_desk::end::close;
use turn_desk::seats::{Pass, Turn};
use turn_desk::start::{Started, TurnError};

/// A turn, the passes of its two seats, and room for them.
#[derive(Drop)]
pub struct Two<S: Storied> {
    /// The turn.
    pub turn: Turn<S>,
    /// The pass of seat 1.
    pub first: Pass<S>,
    /// The pass of seat 2.
    pub second: Pass<S>,
    /// Where they lay.
    pub room: Vec<Pass<S>>,
}

/// A turn of two seats over a portal, or the portal where there is no memory.
pub fn start_two<S: Storied>(alloc: Global, portal: S) -> Result<Two<S>, S>
    ensures turn { IfOk result (λ t. (t.turn.start ≡ portal) × (t.turn.seats ≡ 2)) }
    ensures first { IfOk result (λ t. IsDealt t.turn.table (S.opening portal) (S.entries portal)
        2 1 t.first) }
    ensures second { IfOk result (λ t. IsDealt t.turn.table (S.opening portal) (S.entries portal)
        0 2 t.second) }
    ensures room { IfOk result (λ t. (t.room.items ≡ []) × (2 ≤ vec_capacity t.room)) }
{
    match Turn::start(alloc, portal, 2) {
        Ok(started) => {
            let Started { turn, mut passes } = started;
            let second = passes.pop().unwrap();
            let first = passes.pop().unwrap();
            Ok(Two {
                turn,
                first,
                second,
                room: passes,
            })
        }
        Err(TurnError::Memory { portal }) => Err(portal),
    }
}

/// The portal again, once both seats have left.
pub fn close_two<S: Storied>(
    turn: Turn<S>,
    room: Vec<Pass<S>>,
    first: Pass<S>,
    second: Pass<S>,
) -> S
    requires turn { turn.seats ≡ 2 }
    requires room { (room.items ≡ []) × (2 ≤ vec_capacity room) }
    requires first { (first.table ≡ turn.table) × (first.knows.number ≡ 1)
        × (first.knows.made ≡ 2) }
    requires second { (second.table ≡ turn.table) × (second.knows.number ≡ 2) }
    ensures first { Stands (S.opening turn.start) (S.entries result) first.knows }
    ensures second { Stands (S.opening turn.start) (S.entries result) second.knows }
{
    let mut passes = room;
    passes.push_reserved(second);
    passes.push_reserved(first);
    close(turn, passes)
}
