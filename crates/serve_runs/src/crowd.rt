//! Two threads ask one portal.

ghost use Rattle.std.specs.Prelude.{◌≡◌, ◌≤◌, [], vec_capacity};
ghost use Rattle.turn_desk.specs.Sights.{Stays};

use crate::two::{Two, close_two};
use portal_core::storied::Storied;
use portal_model::asked::Asked;
use portal_model::request::Request;
use std::alloc::Global;
use std::thread::{Threads, join};
use turn_desk::seats::{Pass, Turn};
use vector_lines::error::VectorError;
use vector_lines::output::Output;

/// How often each thread asks.
const ROUNDS: u32 = 100_000;

/// What requests came to.
#[derive(Clone, Copy)]
pub struct Counts {
    /// How many were answered.
    pub answered: u64,
    /// How many found another seat at the turn.
    pub busy: u64,
}

/// What a seat was answered.
#[derive(Drop)]
pub struct Worked<S: Storied> {
    /// Its pass.
    pub pass: Pass<S>,
    /// What its requests came to.
    pub counts: Counts,
}

/// Whether the history is as long as the answers are many, and how often was
/// asked.
pub fn crowd_at<S: Storied + Send + Drop, R: Threads + Sync>(
    rt: &R,
    alloc: Global,
    two: Two<S>,
) -> Result<String, VectorError>
    requires turn { two.turn.seats ≡ 2 }
    requires first { (two.first.table ≡ two.turn.table) × (two.first.knows.number ≡ 1)
        × (two.first.knows.made ≡ 2) }
    requires second { (two.second.table ≡ two.turn.table) × (two.second.knows.number ≡ 2) }
    requires room { (two.room.items ≡ []) × (2 ≤ vec_capacity two.room) }
{
    let Two {
        turn,
        first,
        second,
        room,
    } = two;
    let shared = &turn;
    let (one, two) = join(
        rt,
        move || -> Worked<S>
            requires { first.table ≡ shared.now.table }
            ensures { Stays first result.pass }
        { work(alloc, shared, first) },
        move || -> Worked<S>
            requires { second.table ≡ shared.now.table }
            ensures { Stays second result.pass }
        { work(alloc, shared, second) },
    );
    let answered = one.counts.answered.saturating_add(two.counts.answered);
    let busy = one.counts.busy.saturating_add(two.counts.busy);
    let portal = close_two(turn, room, one.pass, two.pass);
    let entries = portal.entry_count();
    drop(portal);
    crowd_told(alloc, entries, answered, busy)
}

fn crowd_told(
    alloc: Global,
    entries: u64,
    answered: u64,
    busy: u64,
) -> Result<String, VectorError> {
    let same = entries == answered;
    let mut out = Output::new(alloc);
    out.text("an entry for each answer: ");
    out.shown(&same);
    out.text("\nasked ");
    out.number(answered.saturating_add(busy));
    Ok(out.into_text()?)
}

/// Asks again and again.
fn work<S: Storied>(alloc: Global, turn: &Turn<S>, pass: Pass<S>) -> Worked<S>
    requires { pass.table ≡ turn.now.table }
    ensures { Stays pass result.pass }
{
    let mut seat = pass.sit(turn);
    let mut counts = Counts {
        answered: 0,
        busy: 0,
    };
    for _ in 0..ROUNDS {
        counts = counted(counts, seat.try_ask(alloc, Request::Collect));
    }
    Worked {
        pass: seat.leave(),
        counts,
    }
}

/// The counts with one answer more.
fn counted(counts: Counts, asked: Asked) -> Counts {
    match asked {
        Asked::Answered(_) => Counts {
            answered: counts.answered.saturating_add(1),
            busy: counts.busy,
        },
        Asked::Busy { .. } => Counts {
            answered: counts.answered,
            busy: counts.busy.saturating_add(1),
        },
        Asked::Refused(_) => counts,
    }
}
