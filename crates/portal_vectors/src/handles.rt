//! Room for handles.

use open_handles::{Handle, Handles};
use portal_base::limits::Limits;
use portal_base::list::List;
use std::alloc::Global;
use vector_lines::error::LineError;
use vector_lines::notation::{cut, number};
use vector_lines::output::Output;

/// The seat of the one connection.
const SEAT: u32 = 1;

/// `handles LIMIT STEP STEP ..`: what each step is answered on a connection that may have so
/// many handles open.
pub fn handles(alloc: Global, out: &mut Output, rest: &str) -> Result<(), LineError> {
    let (limit, steps) = cut(rest);
    let mut handles = Handles::new(alloc, &limits(number(limit)?));
    let answered = put_steps(alloc, out, &mut handles, steps);
    drop(handles);
    answered
}

/// What each step is answered, on a connection that is entered first.
fn put_steps(
    alloc: Global,
    out: &mut Output,
    handles: &mut Handles,
    steps: &str,
) -> Result<(), LineError> {
    if handles.is_entered(SEAT) {
        return Err(LineError::BadLine);
    }
    handles.enter(SEAT)?;
    for (index, step) in steps.split(' ').enumerate() {
        out.text(if index > 0 { " " } else { "" });
        put_step(alloc, out, handles, step)?;
    }
    Ok(())
}

/// Limits of which that of handles counts.
fn limits(handles: u64) -> Limits {
    Limits {
        documents: 0,
        made: 0,
        history: 0,
        handles,
        queued: 0,
        file_bytes: 0,
    }
}

/// `reserve`, for room for the next handle; and `add`, for a folder's.
fn put_step(
    alloc: Global,
    out: &mut Output,
    handles: &mut Handles,
    step: &str,
) -> Result<(), LineError> {
    if !handles.is_entered(SEAT) {
        return Err(LineError::BadLine);
    }
    match step {
        "reserve" => out.debug(&handles.reserve(SEAT)),
        "add" => out.debug(&handles.add(SEAT, folder(alloc))),
        _ => return Err(LineError::BadLine),
    }
    Ok(())
}

/// A folder without entries.
fn folder(alloc: Global) -> Handle {
    Handle::Folder {
        node: 1,
        names: List::new(alloc),
    }
}
