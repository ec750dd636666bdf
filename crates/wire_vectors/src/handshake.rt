//! The handshake of a bus connection.

use dbus_auth::{Auth, AuthAnswer};
use std::alloc::Global;
use vector_lines::error::LineError;
use vector_lines::notation;
use vector_lines::output::Output;

/// The server's GUID.
const GUID: [u8; 16] = [
    0x01, 0x23, 0x45, 0x67, 0x89, 0xab, 0xcd, 0xef, 0x01, 0x23, 0x45, 0x67, 0x89, 0xab, 0xcd, 0xef,
];

/// The longest line that is taken, in bytes.
const LONGEST: usize = 1024;

/// `cell LINE`: what the line is answered ahead of OK, during the wait for DATA
/// and behind OK; and behind each answer the state that it leads to.
pub fn cell(alloc: Global, out: &mut Output, rest: &str) -> Result<(), LineError> {
    let line = notation::text(alloc, rest)?;
    let line = line.as_slice();
    put_cell(alloc, out, "", line)?;
    out.text(" | ");
    put_cell(alloc, out, "AUTH EXTERNAL", line)?;
    out.text(" | ");
    put_cell(alloc, out, "AUTH EXTERNAL 30", line)
}

/// What a line is answered behind another one, if there is one, and the state behind it. The
/// state is told by two more lines: BEGIN, which leaves it as it is and isn't
/// early behind OK alone, and then DATA, which is answered OK during the wait
/// for it alone.
fn put_cell(alloc: Global, out: &mut Output, former: &str, line: &[u8]) -> Result<(), LineError> {
    let mut auth = Auth::new(&GUID);
    if !former.is_empty() {
        said(alloc, &mut auth, former.as_bytes())?;
    }
    put_said(out, &said(alloc, &mut auth, line)?);
    let begin = said(alloc, &mut auth, b"BEGIN")?;
    let data = said(alloc, &mut auth, b"DATA")?;
    out.text(state_behind(&begin, &data));
    Ok(())
}

/// The state that the answers to BEGIN and then to DATA tell.
fn state_behind(begin: &AuthAnswer, data: &AuthAnswer) -> &'static str {
    match (begin, data) {
        (AuthAnswer::Begin, _) => ", after",
        (_, AuthAnswer::Say(reply)) if reply.as_slice().starts_with(b"OK") => ", wait",
        _ => ", before",
    }
}

/// `talk LINE | LINE ..`: what each line of a client is answered.
pub fn talk(alloc: Global, out: &mut Output, rest: &str) -> Result<(), LineError> {
    let mut auth = Auth::new(&GUID);
    for (index, line) in rest.split('|').enumerate() {
        if index > 0 {
            out.text(" | ");
        }
        put_said(out, &said(alloc, &mut auth, line.trim().as_bytes())?);
    }
    Ok(())
}

/// What a line is answered.
fn said(alloc: Global, auth: &mut Auth, line: &[u8]) -> Result<AuthAnswer, LineError> {
    if line.len() > LONGEST {
        return Err(LineError::BadLine);
    }
    Ok(auth.step(alloc, line)?)
}

/// An answer, a line without its CR LF.
fn put_said(out: &mut Output, answer: &AuthAnswer) {
    match answer {
        AuthAnswer::Say(reply) => {
            let line = reply.as_slice().strip_suffix(b"\r\n");
            out.lossy(line.unwrap_or(b"(no line)"));
        }
        AuthAnswer::Begin => out.text("(messages follow)"),
        AuthAnswer::Early => out.text("(too early)"),
    }
}
