//! Two connections that are polled beside each other.

ghost use Rattle.std.specs.Prelude.{◌≡◌, [], IfOk, IsSome, false};
ghost use Rattle.portal_model.specs.Seated.{is_open, state_seen};
ghost use Rattle.turn_desk.specs.Deals.{IsDealt};
ghost use Rattle.turn_desk.specs.Sights.{seated_of};

use crate::client::{Line, SCRIPT, limits_for, line_of, words_of};
use crate::log::{Log, put_bytes};
use crate::polled::{Connection, connect, half_of, until_over};
use crate::served::Half;
use futures::future::join;
use futures::test::MockTask;
use portal_core::storied::Storied;
use portal_desk::TryDesk;
use portal_lines::opened_by;
use std::alloc::Global;
use std::cell::Cell;
use turn_desk::seats::{Pass, Turn};
use turn_desk::start::{Started, TurnError};
use vector_lines::error::{LineError, VectorError};
use vector_lines::notation::bytes;
use vector_lines::output::Output;

/// A turn, and the passes of its two seats.
#[derive(Drop)]
struct Seats<S: Storied> {
    turn: Turn<S>,
    one: Pass<S>,
    other: Pass<S>,
}

/// What two connections came to.
#[derive(Drop)]
struct Halves {
    first: Half,
    second: Half,
}

/// `beside WHO KIND OPTIONS BYTES | WHO KIND OPTIONS BYTES`: what each poll of two
/// connections of one portal answers, each of which gets its bytes, until both are over,
/// and behind it how many bytes both wrote; and the bytes that were written on each, where
/// there are any. In each poll the first goes as far as it can without waiting, and then the
/// second. The options are those of `Words`; the first one's limit is that of the portal.
pub fn beside(task: &MockTask, alloc: Global, rest: &str) -> Result<Output, VectorError> {
    let (one, other) = rest.split_once(" | ").unwrap_or((rest, ""));
    let words = words_of(one);
    let bytes = bytes(alloc, words.bytes)?;
    let line = line_of(&words, bytes.as_slice())?;
    beside_another(task, alloc, &line, other)
}

/// The same of what a line says of the first, and the words of the second.
fn beside_another(
    task: &MockTask,
    alloc: Global,
    first: &Line<'_>,
    other: &str,
) -> Result<Output, VectorError> {
    let words = words_of(other);
    let bytes = bytes(alloc, words.bytes)?;
    let second = line_of(&words, bytes.as_slice())?;
    beside_lines(task, alloc, first, &second)
}

/// The same of what a line says of both.
fn beside_lines(
    task: &MockTask,
    alloc: Global,
    first: &Line<'_>,
    second: &Line<'_>,
) -> Result<Output, VectorError> {
    let written = Cell::new(0);
    let mut log = Log::new(alloc, &written);
    let halves = both(task, alloc, first, second, &mut log)?;
    put_halves(&mut log, &halves);
    drop(halves);
    Ok(log.out)
}

/// What both come to over a portal of their own.
fn both(
    task: &MockTask,
    alloc: Global,
    first: &Line<'_>,
    second: &Line<'_>,
    log: &mut Log<'_>,
) -> Result<Halves, VectorError> {
    match opened_by(alloc, SCRIPT, limits_for(first)) {
        Ok(portal) => both_over(task, alloc, portal, first, second, log),
        Err(error) => Err(error),
    }
}

/// The same over a portal that has no connection yet.
#[tactic(auto, using(crate::proofs::Closed::none_dealt))]
fn both_over<S: Storied + Drop>(
    task: &MockTask,
    alloc: Global,
    portal: S,
    first: &Line<'_>,
    second: &Line<'_>,
    log: &mut Log<'_>,
) -> Result<Halves, VectorError>
    requires { S.entries portal ≡ [] }
{
    portal.known();
    match seats_of(alloc, portal) {
        Ok(seats) => both_seated(task, alloc, seats, first, second, log),
        Err(portal) => {
            drop(portal);
            Err(VectorError::Line(LineError::Memory))
        }
    }
}

/// The seats of a portal, or the portal where there is no memory.
fn seats_of<S: Storied>(alloc: Global, portal: S) -> Result<Seats<S>, S>
    ensures first { IfOk result (λ s. IsDealt s.turn.table (S.opening portal) (S.entries portal)
        2 1 s.one) }
    ensures second { IfOk result (λ s. IsDealt s.turn.table (S.opening portal) (S.entries portal)
        0 2 s.other) }
{
    match Turn::start(alloc, portal, 2) {
        Ok(started) => {
            let Started { turn, mut passes } = started;
            let other = passes.pop().unwrap();
            let one = passes.pop().unwrap();
            Ok(Seats { turn, one, other })
        }
        Err(TurnError::Memory { portal }) => Err(portal),
    }
}

/// The same at its seats, none of which has an open connection.
fn both_seated<S: Storied + Drop>(
    task: &MockTask,
    alloc: Global,
    seats: Seats<S>,
    first: &Line<'_>,
    second: &Line<'_>,
    log: &mut Log<'_>,
) -> Result<Halves, VectorError>
    requires one { seats.one.table ≡ seats.turn.table }
    requires other { seats.other.table ≡ seats.turn.table }
    requires one_closed { is_open (state_seen (seated_of seats.one)) seats.one.knows.number
        ≡ false }
    requires other_closed { is_open (state_seen (seated_of seats.other))
        seats.other.knows.number ≡ false }
{
    let Seats { turn, one, other } = seats;
    let (one, other) = (one.sit(&turn), other.sit(&turn));
    let halves = both_at(task, alloc, one, other, first, second, log);
    drop(turn);
    halves
}

/// The same at desks.
fn both_at<D: TryDesk + Drop>(
    task: &MockTask,
    alloc: Global,
    one: D,
    other: D,
    first: &Line<'_>,
    second: &Line<'_>,
    log: &mut Log<'_>,
) -> Result<Halves, VectorError>
    requires one { is_open (state_seen (D.seated one)) (D.seated one).seat ≡ false }
    requires other { is_open (state_seen (D.seated other)) (D.seated other).seat ≡ false }
{
    let one = connect(alloc, one, first, log.written)?;
    match connect(alloc, other, second, log.written) {
        Ok(other) => both_polled(task, one, other, log),
        Err(error) => {
            drop(one);
            Err(error)
        }
    }
}

/// The same of connections.
fn both_polled<D: TryDesk + Drop>(
    task: &MockTask,
    one: Connection<'_, D>,
    other: Connection<'_, D>,
    log: &mut Log<'_>,
) -> Result<Halves, VectorError>
    requires one { IsSome one.session }
    requires other { IsSome other.session }
{
    let (one, other) = until_over(task, join(one, other), log)?;
    Ok(Halves {
        first: half_of(one),
        second: half_of(other),
    })
}

/// Tells what both came to.
fn put_halves(log: &mut Log<'_>, halves: &Halves) {
    log.out.text("Ready(");
    log.out.debug(&halves.first.served);
    log.out.text(", ");
    log.out.debug(&halves.second.served);
    log.out.text(")");
    log.put_count();
    put_bytes(&mut log.out, &halves.first.written);
    put_bytes(&mut log.out, &halves.second.written);
}
