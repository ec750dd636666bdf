//! Requests of the portal, one after another.

ghost use Rattle.std.specs.Prelude.{◌<◌, ◌^◌};

use crate::answers::put_reply;
use crate::book::put_book;
use crate::desk::put_asked_at_desk;
use crate::given::put_given;
use crate::limits::limits_of;
use crate::requests::request_of;
use portal_base::limits::Limits;
use portal_lines::{ScriptPortal, let_go, opened_by};
use std::alloc::Global;
use vector_lines::error::{VectorError, bad};
use vector_lines::notation::{cut, number, small_number, text};
use vector_lines::output::Output;

/// `portal LIMITS SCRIPT | STEP | STEP ..`: what each step is answered by a portal that the
/// script opens within these limits; and then how many entries the history has, and their
/// cost. `given ..`: the same, and behind the answer of each request what the outside gave
/// to it.
///
/// A step is a request, behind the number of its seat; or `desk SEAT REQUEST, REQUEST ..`,
/// which asks them of one desk of the seat; `now MOMENT`, which is what the clock shows from
/// then on; `book`, which tells the live documents and the numbered applications; `renew`,
/// which begins a new history; or `reserve COUNT BYTES`, which takes memory ahead.
pub fn portal(
    alloc: Global,
    out: &mut Output,
    rest: &str,
    is_given: bool,
) -> Result<(), VectorError> {
    let (words, rest) = cut(rest);
    let mut portal = opened_in(alloc, rest, limits_of(words)?)?;
    let answered = put_steps(alloc, out, &mut portal, rest, is_given);
    let_go(portal);
    answered
}

/// A portal that the script ahead of the steps opens.
fn opened_in(alloc: Global, rest: &str, limits: Limits) -> Result<ScriptPortal, VectorError>
    requires made { limits.made < 2 ^ 32 }
    requires queued { limits.queued < 2 ^ 32 }
{
    let script = text(alloc, rest.split(" | ").next().unwrap_or(""))?;
    opened_by(alloc, script.as_slice(), limits)
}

/// What each step behind the script is answered, and the history then.
fn put_steps(
    alloc: Global,
    out: &mut Output,
    portal: &mut ScriptPortal,
    rest: &str,
    is_given: bool,
) -> Result<(), VectorError> {
    for step in rest.split(" | ").skip(1) {
        put_step(alloc, out, portal, step, is_given)?;
        out.text(" | ");
    }
    put_history(out, portal);
    Ok(())
}

/// How many entries the history has, and their cost.
fn put_history(out: &mut Output, portal: &ScriptPortal) {
    let history = portal.history();
    out.number(history.len());
    out.text(" entries of ");
    out.number(history.cost());
}

/// What a step is answered.
fn put_step(
    alloc: Global,
    out: &mut Output,
    portal: &mut ScriptPortal,
    step: &str,
    is_given: bool,
) -> Result<(), VectorError> {
    let (word, rest) = cut(step);
    match word {
        "desk" => return put_asked_at_desk(alloc, out, portal, rest),
        "now" => put_moment(out, portal, number(rest)?),
        "book" => put_book(out, &portal.book()),
        "renew" => put_renewed(alloc, out, portal),
        "reserve" => return put_reserved(alloc, out, portal, rest),
        _ => {
            put_asked(alloc, out, portal, small_number(word)?, rest)?;
            if is_given {
                put_last_given(out, portal);
            }
        }
    }
    Ok(())
}

/// Sets the clock of a portal.
fn put_moment(out: &mut Output, portal: &mut ScriptPortal, moment: u64) {
    portal.clock_mut().set(moment);
    out.text("set");
}

/// Whether a new history begins.
fn put_renewed(alloc: Global, out: &mut Output, portal: &mut ScriptPortal) {
    match portal.renew(alloc) {
        Ok(()) => out.text("begun"),
        Err(error) => out.debug(&error),
    }
}

/// Takes memory ahead for so many requests, and tells whether there is enough then.
fn put_reserved(
    alloc: Global,
    out: &mut Output,
    portal: &mut ScriptPortal,
    rest: &str,
) -> Result<(), VectorError> {
    let (count, bytes) = cut(rest);
    let count = small_number(count)?;
    portal.reserve(alloc, count, number(bytes)?)?;
    let is_enough = portal.spare() >= u64::from(count);
    out.text(if is_enough { "reserved" } else { "too little" });
    Ok(())
}

/// What a request of a seat is answered.
fn put_asked(
    alloc: Global,
    out: &mut Output,
    portal: &mut ScriptPortal,
    seat: u32,
    words: &str,
) -> Result<(), VectorError> {
    if seat == 0 {
        return bad();
    }
    let request = request_of(alloc, words)?;
    let reply = portal.ask(alloc, seat, request);
    put_reply(out, &reply);
    drop(reply);
    Ok(())
}

/// What the outside gave to the last entry.
fn put_last_given(out: &mut Output, portal: &ScriptPortal) {
    let history = portal.history();
    if let Some(entry) = history.entry(history.len().saturating_sub(1)) {
        put_given(out, &entry.given);
    }
}
