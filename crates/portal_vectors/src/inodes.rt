//! Counts of nodes.

use inode_table::InodeTable;
use std::alloc::Global;
use std::str::SplitWhitespace;
use vector_lines::error::LineError;
use vector_lines::notation::{next, next_number, next_small};
use vector_lines::output::Output;

/// `inodes STEP, STEP ..`: what each step that looks answers, over no counts at
/// first.
pub fn inodes(alloc: Global, out: &mut Output, rest: &str) -> Result<(), LineError> {
    let mut inodes = InodeTable::new(alloc);
    let answered = put_steps(out, &mut inodes, rest);
    drop(inodes);
    answered
}

fn put_steps(out: &mut Output, inodes: &mut InodeTable, rest: &str) -> Result<(), LineError> {
    for step in rest.split(", ") {
        put_step(out, inodes, step)?;
    }
    Ok(())
}

/// `reserve COUNT`, `remember SEAT NODE`, `forget SEAT NODE COUNT`, `leave SEAT`; and
/// `get SEAT NODE` and `len`, which look.
fn put_step(out: &mut Output, inodes: &mut InodeTable, step: &str) -> Result<(), LineError> {
    let mut words = step.split_whitespace();
    match next(&mut words) {
        "len" => put_count(out, inodes.len() as u64),
        "reserve" => inodes.reserve(next_small(&mut words)?)?,
        "leave" => inodes.leave(next_small(&mut words)?),
        word => return put_step_on_node(out, inodes, word, words),
    }
    Ok(())
}

/// A step on the count of a seat at a node.
fn put_step_on_node(
    out: &mut Output,
    inodes: &mut InodeTable,
    word: &str,
    mut words: SplitWhitespace<'_>,
) -> Result<(), LineError> {
    let seat = next_small(&mut words)?;
    let node = next_number(&mut words)?;
    match word {
        "remember" => inodes.remember(seat, node)?,
        "forget" => inodes.forget(seat, node, next_number(&mut words)?),
        "get" => put_count(out, inodes.get(seat, node)),
        _ => return Err(LineError::BadLine),
    }
    Ok(())
}

fn put_count(out: &mut Output, count: u64) {
    out.text("[");
    out.number(count);
    out.text("]");
}
