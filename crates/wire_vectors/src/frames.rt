//! Frames of FUSE, read and written.

use crate::parts::{put_after, put_digits};
use fuse_reply::dirent::fill_dirents;
use fuse_reply::reply::write_reply;
use fuse_wire::frame::{split, unique_of};
use fuse_wire::request::{FuseAsk, read_request};
use portal_base::list::List;
use portal_base::split::Split;
use portal_model::reply::{Attr, DirName, NodeAnswer};
use std::alloc::Global;
use std::str::SplitWhitespace;
use vector_lines::error::LineError;
use vector_lines::notation::{bytes, cut, next, next_number, next_small, number};
use vector_lines::output::Output;

/// `frame BYTES`: whether a frame stands at the front of the bytes; and where
/// they are one, its number and what it asks. `local BYTES`: the frame that
/// answers a request that is answered without the portal.
pub fn frame(alloc: Global, out: &mut Output, kind: &str, rest: &str) -> Result<(), LineError> {
    let bytes = bytes(alloc, rest)?;
    let bytes = bytes.as_slice();
    match split(bytes) {
        Split::Whole { len } if len == bytes.len() => {
            let ask = read_request(alloc, bytes)?;
            put_ask(alloc, out, kind, unique_of(bytes), &ask);
        }
        found => out.debug(&found),
    }
    Ok(())
}

fn put_ask(alloc: Global, out: &mut Output, kind: &str, unique: u64, ask: &FuseAsk) {
    match ask {
        FuseAsk::Local(answer) if kind == "local" => put_reply(alloc, out, unique, answer),
        ask => {
            out.number(unique);
            put_after(out, ": ", ask);
        }
    }
}

/// The frame that tells an answer to the request with a number:
///
/// - `attributes UNIQUE ATTR`: the attributes, written as `attr` reads them.
/// - `entry UNIQUE ATTR`: the node that was found.
/// - `created UNIQUE FH ATTR`: the file that was made, and its handle.
/// - `opened UNIQUE FH`: the handle.
/// - `content UNIQUE BYTES`: the bytes that were read.
/// - `written UNIQUE SIZE`: how many bytes were written.
/// - `names UNIQUE OFFSET SIZE ENTRIES`: the entries of a folder.
/// - `errno UNIQUE NUMBER`: an error.
/// - `answer UNIQUE WORD`: an answer without a part: `empty`, `quiet` or `statfs`.
pub fn answer(alloc: Global, out: &mut Output, kind: &str, rest: &str) -> Result<(), LineError> {
    let (unique, rest) = cut(rest);
    let unique = number(unique)?;
    let answer = answer_of(alloc, kind, rest)?;
    put_reply(alloc, out, unique, &answer);
    Ok(())
}

fn answer_of(alloc: Global, kind: &str, rest: &str) -> Result<NodeAnswer, LineError> {
    let mut words = rest.split_whitespace();
    match kind {
        "attributes" => Ok(NodeAnswer::Attr(attr(words)?)),
        "entry" => Ok(NodeAnswer::Entry(attr(words)?)),
        "created" => {
            let fh = next_number(&mut words)?;
            let attr = attr(words)?;
            Ok(NodeAnswer::Created { attr, fh })
        }
        "opened" => {
            let fh = next_number(&mut words)?;
            Ok(NodeAnswer::Opened { fh })
        }
        "content" => Ok(NodeAnswer::Content(bytes(alloc, rest)?)),
        "written" => {
            let size = next_small(&mut words)?;
            Ok(NodeAnswer::Written { size })
        }
        "names" => {
            let offset = next_number(&mut words)?;
            let size = next_small(&mut words)?;
            let names = names(alloc, words)?;
            Ok(NodeAnswer::Names {
                names,
                offset,
                size,
            })
        }
        "errno" => {
            let errno = next_small(&mut words)?;
            Ok(NodeAnswer::Error { errno })
        }
        "answer" => part(rest),
        _ => Err(LineError::BadLine),
    }
}

/// An answer without a part.
fn part(word: &str) -> Result<NodeAnswer, LineError> {
    match word {
        "empty" => Ok(NodeAnswer::Empty),
        "quiet" => Ok(NodeAnswer::Quiet),
        "statfs" => Ok(NodeAnswer::Statfs),
        _ => Err(LineError::BadLine),
    }
}

/// `dirents OFFSET SIZE ENTRIES`: the entries of a folder from an offset that
/// fit into a size.
pub fn dirents(alloc: Global, out: &mut Output, rest: &str) -> Result<(), LineError> {
    let mut words = rest.split_whitespace();
    let offset = next_number(&mut words)?;
    let size = next_small(&mut words)?;
    let names = names(alloc, words)?;
    put_digits(out, fill_dirents(alloc, &names, offset, size));
    Ok(())
}

/// Entries of a folder.
fn names(alloc: Global, entries: SplitWhitespace<'_>) -> Result<List<DirName>, LineError> {
    let mut names = List::new(alloc);
    for entry in entries {
        names.push(name(alloc, entry)?)?;
    }
    Ok(names)
}

/// `NODE/d/NAME` of a folder, and `NODE/f/NAME` of a file.
fn name(alloc: Global, entry: &str) -> Result<DirName, LineError> {
    let (node, rest) = entry.split_once('/').unwrap_or((entry, ""));
    let (kind, name) = rest.split_once('/').unwrap_or((rest, ""));
    let node = number(node)?;
    let name = List::copied(alloc, name.as_bytes())?;
    Ok(DirName {
        node,
        name,
        folder: kind == "d",
    })
}

/// `NODE SIZE BLOCKS MOMENT MODE LINKS UID GID BLOCK_SIZE`, with MODE in octal
/// digits.
fn attr(mut words: SplitWhitespace<'_>) -> Result<Attr, LineError> {
    Ok(Attr {
        node: next_number(&mut words)?,
        size: next_number(&mut words)?,
        blocks: next_number(&mut words)?,
        moment: next_number(&mut words)?,
        mode: octal(next(&mut words))?,
        links: next_small(&mut words)?,
        uid: next_small(&mut words)?,
        gid: next_small(&mut words)?,
        block_size: next_small(&mut words)?,
    })
}

fn octal(word: &str) -> Result<u32, LineError> {
    u32::from_str_radix(word, 8).map_err(|_| LineError::BadLine)
}

fn put_reply(alloc: Global, out: &mut Output, unique: u64, answer: &NodeAnswer) {
    match write_reply(alloc, unique, answer) {
        Ok(Some(frame)) => out.digits(frame.as_slice()),
        Ok(None) => out.text("quiet"),
        Err(error) => out.debug(&error),
    }
}
