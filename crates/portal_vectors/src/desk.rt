//! Requests of one desk of a seat.

use crate::answers::put_reply;
use crate::requests::request_of;
use portal_core::local_desk::LocalDesk;
use portal_desk::Desk;
use portal_lines::ScriptPortal;
use std::alloc::Global;
use vector_lines::error::{VectorError, bad};
use vector_lines::notation::{cut, small_number};
use vector_lines::output::Output;

/// `SEAT REQUEST, REQUEST ..`: what each request is answered, and how many the desk refused
/// by then.
pub fn put_asked_at_desk(
    alloc: Global,
    out: &mut Output,
    portal: &mut ScriptPortal,
    rest: &str,
) -> Result<(), VectorError> {
    let (seat, requests) = cut(rest);
    let seat = small_number(seat)?;
    if seat == 0 {
        return bad();
    }
    let mut desk = LocalDesk::new(portal, seat);
    put_each(alloc, out, &mut desk, requests)
}

fn put_each(
    alloc: Global,
    out: &mut Output,
    desk: &mut LocalDesk<ScriptPortal>,
    requests: &str,
) -> Result<(), VectorError> {
    for (index, words) in requests.split(", ").enumerate() {
        out.text(if index > 0 { ", " } else { "" });
        put_asked(alloc, out, desk, words)?;
    }
    Ok(())
}

/// What one request of a desk is answered.
fn put_asked(
    alloc: Global,
    out: &mut Output,
    desk: &mut LocalDesk<ScriptPortal>,
    words: &str,
) -> Result<(), VectorError> {
    let request = request_of(alloc, words)?;
    let reply = desk.ask(alloc, request);
    put_reply(out, &reply);
    drop(reply);
    out.text(" refused ");
    out.number(desk.refusals());
    Ok(())
}
