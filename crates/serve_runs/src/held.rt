//! A seat is busy while a call of another is held.

ghost use Rattle.std.specs.Prelude.{◌≡◌};
ghost use Rattle.turn_desk.specs.Sights.{Stays};

use crate::held_tree::Meeting;
use crate::two::Two;
use portal_base::who::{Kind, Who};
use portal_core::storied::Storied;
use portal_model::asked::Asked;
use portal_model::request::{NodeOp, NodeRequest, Request};
use std::alloc::Global;
use std::thread::{Threads, join};
use std::time::Clock;
use turn_desk::seats::{Pass, Turn};
use vector_lines::error::{LineError, VectorError};
use vector_lines::output::Output;

/// The node of the document's file, as the host sees it.
const NODE: u64 = 8_589_934_602;

/// What seat 2 is answered while a look is held that seat 1 asked for, then
/// what it is answered to the same request, and how long the history is.
pub fn held_at<S: Storied + Send + Drop, R: Threads + Clock + Sync>(
    rt: &R,
    alloc: Global,
    meeting: &Meeting,
    two: Two<S>,
) -> Result<String, VectorError>
    requires first { two.first.table ≡ two.turn.table }
    requires second { two.second.table ≡ two.turn.table }
{
    let Two {
        turn,
        first,
        second,
        room: _,
    } = two;
    let shared = &turn;
    let first = enter(alloc, shared, first);
    let second = enter(alloc, shared, second);
    let (one, two) = join(
        rt,
        move || -> Result<String, LineError>
            requires { first.table ≡ shared.now.table }
        { ask_held(alloc, meeting, shared, first) },
        move || -> Result<String, LineError>
            requires { second.table ≡ shared.now.table }
        { ask_meanwhile(rt, alloc, meeting, shared, second) },
    );
    in_lines(alloc, one, two)
}

/// A mount of the host is opened.
fn enter<S: Storied>(alloc: Global, turn: &Turn<S>, pass: Pass<S>) -> Pass<S>
    requires { pass.table ≡ turn.now.table }
    ensures { Stays pass result }
{
    let mut seat = pass.sit(turn);
    let enter = Request::Enter {
        who: Who::Host,
        kind: Kind::Mount,
    };
    drop(seat.try_ask(alloc, enter));
    seat.leave()
}

/// The attributes of the document's file.
fn attributes() -> Request {
    Request::Node(NodeRequest {
        node: NODE,
        uid: 1000,
        gid: 1000,
        op: NodeOp::GetAttr { flags: 0, fh: 0 },
    })
}

/// What the seat is answered whose call is held.
fn ask_held<S: Storied>(
    alloc: Global,
    meeting: &Meeting,
    turn: &Turn<S>,
    pass: Pass<S>,
) -> Result<String, LineError>
    requires { pass.table ≡ turn.now.table }
{
    let mut out = Output::new(alloc);
    let mut seat = pass.sit(turn);
    put_asked(&mut out, "seat 1: ", &seat.try_ask(alloc, attributes()));
    meeting.done.step();
    out.into_text()
}

/// What another seat is answered meanwhile, and then to what was handed back; and how long the
/// history is.
fn ask_meanwhile<S: Storied, R: Clock>(
    rt: &R,
    alloc: Global,
    meeting: &Meeting,
    turn: &Turn<S>,
    pass: Pass<S>,
) -> Result<String, LineError>
    requires { pass.table ≡ turn.now.table }
{
    let mut out = Output::new(alloc);
    let mut seat = pass.sit(turn);
    meeting.come.wait(rt);
    let asked = seat.try_ask(alloc, attributes());
    meeting.go.step();
    meeting.done.wait(rt);
    put_asked(&mut out, "seat 2: ", &asked);
    if let Some(request) = handed_back(asked) {
        put_asked(&mut out, "seat 2: ", &seat.try_ask(alloc, request));
    }
    out.text("front ");
    out.number(seat.front());
    out.into_text()
}

/// The request that a busy seat was handed back.
fn handed_back(asked: Asked) -> Option<Request> {
    match asked {
        Asked::Busy {
            holder: _holder,
            request,
        } => Some(request),
        Asked::Answered(_reply) => None,
        Asked::Refused(_why) => None,
    }
}

/// Adds a line with what a seat was answered.
fn put_asked(out: &mut Output, seat: &str, asked: &Asked) {
    out.text(seat);
    out.debug(asked);
    out.text("\n");
}

/// What one seat was told, and then the other.
fn in_lines(
    alloc: Global,
    one: Result<String, LineError>,
    two: Result<String, LineError>,
) -> Result<String, VectorError> {
    let two = two?;
    let one = one?;
    let mut out = Output::new(alloc);
    out.text(one.as_str());
    out.text(two.as_str());
    Ok(out.into_text()?)
}
