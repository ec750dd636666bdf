//! The real tree of files.

use crate::replaced;
use host_real::{RealTree, System};
use host_tree::{HostTree, ListAnswer, LookAnswer, TreeRead};
use portal_base::files::{ChildName, FileName, Look};
use portal_base::names::HostPath;
use std::alloc::Global;
use std::fs;
use vector_lines::error::{LineError, VectorError, given};
use vector_lines::notation::{bytes, cut, number, small_number};
use vector_lines::output::Output;

/// How many files each tree keeps open.
const KEPT: usize = 2;

/// `KIND ROOT ..`: what a line of a kind tells of the files below a root.
pub fn over_tree<R: System>(
    rt: &R,
    system: &HostRuntime,
    out: &mut Output,
    kind: &str,
    rest: &str,
) -> Result<(), VectorError> {
    let alloc = system.alloc();
    let (root, rest) = cut(rest);
    let mut tree = given(alloc, RealTree::open(*rt, *system, alloc, root, KEPT))?;
    let outcome = match kind {
        "tree" => put_steps(alloc, out, &mut tree, rest),
        "gone" => put_gone(system, out, &mut tree, root, rest),
        "mode" => replaced::mode(system, out, &mut tree, root, rest),
        _ => replaced::over_file(system, out, &mut tree, kind, root, rest),
    };
    drop(tree);
    outcome
}

/// `beside ROOT STEP, STEP ..`: what each step answers over two trees of one root, in turn.
pub fn beside<R: System>(
    rt: &R,
    system: &HostRuntime,
    out: &mut Output,
    rest: &str,
) -> Result<(), VectorError> {
    let alloc = system.alloc();
    let (root, steps) = cut(rest);
    let mut one = given(alloc, RealTree::open(*rt, *system, alloc, root, KEPT))?;
    let mut other = given(alloc, RealTree::open(*rt, *system, alloc, root, KEPT))?;
    let outcome = put_turns(alloc, out, &mut one, &mut other, steps);
    drop(one);
    drop(other);
    outcome
}

fn put_turns<T: HostTree>(
    alloc: Global,
    out: &mut Output,
    one: &mut T,
    other: &mut T,
    steps: &str,
) -> Result<(), VectorError> {
    for (index, step) in steps.split(',').enumerate() {
        if index % 2 == 0 {
            put_step(alloc, out, one, step)?;
        } else {
            put_step(alloc, out, other, step)?;
        }
        out.text("; ");
    }
    Ok(())
}

/// `tree ROOT STEP, STEP ..`: what each step answers over the files below a root.
fn put_steps<T: HostTree>(
    alloc: Global,
    out: &mut Output,
    tree: &mut T,
    steps: &str,
) -> Result<(), VectorError> {
    for step in steps.split(',') {
        put_step(alloc, out, tree, step)?;
        out.text("; ");
    }
    Ok(())
}

/// `gone ROOT AWAY`: what a tree shows of its root while that is moved away, and once
/// it is back.
fn put_gone<T: HostTree>(
    system: &HostRuntime,
    out: &mut Output,
    tree: &mut T,
    root: &str,
    away: &str,
) -> Result<(), VectorError> {
    let alloc = system.alloc();
    given(alloc, fs::rename(system, root, away))?;
    put_step(alloc, out, tree, "look /")?;
    given(alloc, fs::rename(system, away, root))?;
    out.text("; ");
    Ok(put_step(alloc, out, tree, "look /")?)
}

/// `look PATH`, `list PATH`, `create PATH NOW`; and of the file of a path `attr PATH`, `later
/// PATH`, which asks for its generation 1, `read PATH OFFSET SIZE`, `sync PATH`, `fresh PATH NOW`,
/// `turn PATH`, `write PATH OFFSET NOW BYTES` and `len PATH SIZE NOW`. Behind a path `#` and a
/// number name a generation.
fn put_step<T: HostTree>(
    alloc: Global,
    out: &mut Output,
    tree: &mut T,
    step: &str,
) -> Result<(), LineError> {
    let (kind, rest) = cut(step.trim());
    let (path, rest) = cut(rest);
    let (path, generation) = match path.split_once('#') {
        Some((path, generation)) => (path, number(generation)?),
        None => (path, u64::from(kind == "later")),
    };
    let file = FileName {
        path: HostPath::read(alloc, path.as_bytes())?,
        generation,
    };
    let outcome = put_call(alloc, out, tree, kind, &file, rest);
    drop(file);
    outcome
}

fn put_call<T: HostTree>(
    alloc: Global,
    out: &mut Output,
    tree: &mut T,
    kind: &str,
    file: &FileName,
    rest: &str,
) -> Result<(), LineError> {
    match kind {
        "look" => put_look(out, tree.look(&file.path)),
        "list" => put_list(out, tree.list(&file.path)),
        "create" => out.debug(&tree.create(&file.path, number(rest)?)),
        "attr" | "later" => out.debug(&tree.attr(file)),
        "read" => {
            let (offset, size) = cut(rest);
            put_read(out, tree.read(file, number(offset)?, small_number(size)?));
        }
        "sync" => out.debug(&tree.sync(file)),
        "turn" => out.debug(&tree.turn(file)),
        "fresh" => out.debug(&tree.fresh(file, number(rest)?)),
        _ => return put_change(alloc, out, tree, kind, file, rest),
    }
    Ok(())
}

/// A look, of whose generation the highest bit alone is shown: the others are of the file.
fn put_look(out: &mut Output, look: LookAnswer) {
    match look {
        LookAnswer::Is(
            Look::File {
                generation,
                size,
                moment,
            },
        ) => {
            let generation = generation & 1 << 63;
            out.debug(&LookAnswer::Is(Look::File {
                generation,
                size,
                moment,
            }));
        }
        other => out.debug(&other),
    }
}

/// The names in a folder, or why none came.
fn put_list(out: &mut Output, answer: ListAnswer) {
    match answer {
        ListAnswer::Names(names) => put_names(out, names.as_slice()),
        ListAnswer::NotFolder => out.text("NotFolder"),
        ListAnswer::Failed => out.text("Failed"),
        ListAnswer::Memory => out.text("Memory"),
    }
}

/// Names, those of folders with a slash behind them.
fn put_names(out: &mut Output, names: &[ChildName]) {
    out.text("Names(");
    for (index, child) in names.iter().enumerate() {
        if index > 0 {
            out.text(" ");
        }
        out.lossy(child.name.as_slice());
        if child.folder {
            out.text("/");
        }
    }
    out.text(")");
}

/// The bytes that are read, as digits, or why none came.
fn put_read(out: &mut Output, answer: TreeRead) {
    match answer {
        TreeRead::Got(bytes) => {
            out.text("Got(");
            out.digits(bytes.as_slice());
            out.text(")");
        }
        other => out.debug(&other),
    }
}

/// `write PATH OFFSET NOW BYTES` and `len PATH SIZE NOW`.
fn put_change<T: HostTree>(
    alloc: Global,
    out: &mut Output,
    tree: &mut T,
    kind: &str,
    file: &FileName,
    rest: &str,
) -> Result<(), LineError> {
    let (place, rest) = cut(rest);
    let (now, content) = cut(rest);
    let (place, now) = (number(place)?, number(now)?);
    match kind {
        "write" => {
            let content = bytes(alloc, content)?;
            out.debug(&tree.write(file, place, content.as_slice(), now));
        }
        "len" => out.debug(&tree.set_len(file, place, now)),
        _ => return Err(LineError::BadLine),
    }
    Ok(())
}
