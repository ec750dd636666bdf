//! Requests on nodes as lines name them, by the user 1000 and the group 1001.

use portal_model::request::{NodeOp, NodeRequest};
use std::alloc::Global;
use std::str::SplitWhitespace;
use vector_lines::error::LineError;
use vector_lines::notation::{cut, next_number, next_small, number, small_number, text};

/// The request of a word, of the node ahead of what else it is given: `named NODE NAME` for a
/// LOOKUP, `forget NODE COUNT`, `getattr NODE FLAGS FH`, `setattr NODE VALID FH SIZE`, `open
/// NODE FLAGS`, `create NODE FLAGS NAME`, `read NODE FH OFFSET SIZE`, `write NODE FH OFFSET
/// TEXT`, `flush NODE FH`, `fsync NODE FH`, `release NODE FH`, `opendir NODE`, `readdir NODE FH
/// OFFSET SIZE`, `releasedir NODE FH`, `access NODE MASK`, `rename NODE NEW_NODE FLAGS OLD NEW`
/// and `unlink NODE NAME`.
pub fn node_request(alloc: Global, word: &str, rest: &str) -> Result<NodeRequest, LineError> {
    let (node, rest) = cut(rest);
    let node = number(node)?;
    Ok(NodeRequest {
        node,
        uid: 1000,
        gid: 1001,
        op: op(alloc, word, rest)?,
    })
}

fn op(alloc: Global, word: &str, rest: &str) -> Result<NodeOp, LineError> {
    match word {
        "named" => Ok(NodeOp::Lookup {
            name: text(alloc, rest)?,
        }),
        "unlink" => Ok(NodeOp::Unlink {
            name: text(alloc, rest)?,
        }),
        "create" => created(alloc, rest),
        "rename" => renamed(alloc, rest),
        "write" => written(alloc, rest),
        "opendir" => Ok(NodeOp::OpenDir),
        "open" | "access" | "getattr" | "setattr" => flagged(word, rest),
        _ => numbered(word, rest),
    }
}

/// A CREATE, by its flags and a name.
fn created(alloc: Global, rest: &str) -> Result<NodeOp, LineError> {
    let (flags, name) = cut(rest);
    let flags = small_number(flags)?;
    Ok(NodeOp::Create {
        name: text(alloc, name)?,
        flags,
    })
}

/// A RENAME into a folder, by its flags and both names.
fn renamed(alloc: Global, rest: &str) -> Result<NodeOp, LineError> {
    let (new_parent, rest) = cut(rest);
    let (flags, names) = cut(rest);
    let (old_name, new_name) = cut(names);
    let new_parent = number(new_parent)?;
    let flags = small_number(flags)?;
    Ok(NodeOp::Rename {
        new_parent,
        flags,
        old_name: text(alloc, old_name)?,
        new_name: text(alloc, new_name)?,
    })
}

/// A WRITE by the number of a handle.
fn written(alloc: Global, rest: &str) -> Result<NodeOp, LineError> {
    let (fh, rest) = cut(rest);
    let (offset, content) = cut(rest);
    let fh = number(fh)?;
    let offset = number(offset)?;
    Ok(NodeOp::Write {
        fh,
        offset,
        content: text(alloc, content)?,
    })
}

/// An OPEN or an ACCESS by its flags; a GETATTR or a SETATTR, by the number of a handle too.
fn flagged(word: &str, rest: &str) -> Result<NodeOp, LineError> {
    let mut words = rest.split_whitespace();
    let flags = next_small(&mut words)?;
    match word {
        "open" => Ok(NodeOp::Open { flags }),
        "access" => Ok(NodeOp::Access { mask: flags }),
        "getattr" => Ok(NodeOp::GetAttr {
            flags,
            fh: next_number(&mut words)?,
        }),
        _ => Ok(NodeOp::SetAttr {
            valid: flags,
            fh: next_number(&mut words)?,
            size: next_number(&mut words)?,
        }),
    }
}

/// A request by the number of a handle; or a FORGET, by its count.
fn numbered(word: &str, rest: &str) -> Result<NodeOp, LineError> {
    let mut words = rest.split_whitespace();
    let fh = next_number(&mut words)?;
    match word {
        "forget" => Ok(NodeOp::Forget { count: fh }),
        "flush" => Ok(NodeOp::Flush { fh }),
        "fsync" => Ok(NodeOp::Fsync { fh }),
        "release" => Ok(NodeOp::Release { fh }),
        "releasedir" => Ok(NodeOp::ReleaseDir { fh }),
        _ => part(word, fh, words),
    }
}

/// A READ or a READDIR.
fn part(word: &str, fh: u64, mut words: SplitWhitespace<'_>) -> Result<NodeOp, LineError> {
    let offset = next_number(&mut words)?;
    let size = next_small(&mut words)?;
    match word {
        "read" => Ok(NodeOp::Read { fh, offset, size }),
        "readdir" => Ok(NodeOp::ReadDir { fh, offset, size }),
        _ => Err(LineError::BadLine),
    }
}
