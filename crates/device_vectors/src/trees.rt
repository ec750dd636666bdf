//! Trees of files in memory.

ghost use Rattle.std.specs.Prelude.{◌≡◌, ◌≢◌};
ghost use Rattle.portal_base.specs.Names.{root};

use crate::lists::{cut_at, put_between};
use host_tree::{HostTree, ListAnswer, MemoryTree, QuietTree, TreeRead};
use portal_base::files::{ChildName, FileName};
use portal_base::list::List;
use portal_base::names::HostPath;
use std::alloc::Global;
use std::str::SplitWhitespace;
use vector_lines::error::LineError;
use vector_lines::notation::{bytes, cut, next, next_number, next_small, number, numbers};
use vector_lines::output::Output;

/// `tree FAILS | FILE | STEP, STEP ..`: what each step answers over a tree whose
/// calls of these numbers fail, and which has the file, if one is written:
/// `PATH MOMENT BYTES`.
pub fn tree(alloc: Global, out: &mut Output, rest: &str) -> Result<(), LineError> {
    let (fails, rest) = cut_at(rest, '|');
    let (file, steps) = cut_at(rest, '|');
    let mut tree = tree_of(alloc, fails, file.trim())?;
    put_steps(alloc, out, &mut tree, steps)
}

fn tree_of(alloc: Global, fails: &str, file: &str) -> Result<MemoryTree, LineError> {
    let fails = numbers(alloc, fails)?;
    let mut tree = MemoryTree::new(alloc, fails);
    if !file.is_empty() {
        let (path, rest) = cut(file);
        let (moment, content) = cut(rest);
        let path = HostPath::read(alloc, path.as_bytes())?;
        if path.as_bytes() != b"/".as_slice() {
            tree.add_file(path, bytes(alloc, content)?, number(moment)?)?;
        }
    }
    Ok(tree)
}

/// `quiet STEP, STEP ..`: what each step answers over an empty tree that never
/// fails.
pub fn quiet(alloc: Global, out: &mut Output, rest: &str) -> Result<(), LineError> {
    let mut tree = QuietTree::new(alloc);
    put_steps(alloc, out, &mut tree, rest)
}

/// What each step answers.
fn put_steps<T: HostTree>(
    alloc: Global,
    out: &mut Output,
    tree: &mut T,
    steps: &str,
) -> Result<(), LineError> {
    for step in steps.split(',') {
        put_step(alloc, out, tree, step)?;
        out.text("; ");
    }
    Ok(())
}

/// What a step answers, `CALL FILE WORD ..`. A file is a path, behind which `#` and a number may
/// name a generation; that of `later` is 1.
fn put_step<T: HostTree>(
    alloc: Global,
    out: &mut Output,
    tree: &mut T,
    step: &str,
) -> Result<(), LineError> {
    let mut words = step.split_whitespace();
    let kind = next(&mut words);
    let usual = if kind == "later" { "1" } else { "0" };
    let file = next(&mut words);
    let (path, generation) = file.split_once('#').unwrap_or((file, usual));
    let generation = number(generation)?;
    let path = HostPath::read(alloc, path.as_bytes())?;
    let file = FileName { path, generation };
    put_answer(alloc, out, tree, kind, &file, words)
}

/// `look PATH`, `list PATH`, `create PATH NOW`, `settle PATH`; and of the file of a path
/// `attr PATH`, `read PATH OFFSET SIZE`, `write PATH OFFSET NOW BYTES`, `len PATH SIZE NOW`,
/// `sync PATH`, `fresh PATH NOW`, `turn PATH`, `later PATH`.
fn put_answer<T: HostTree>(
    alloc: Global,
    out: &mut Output,
    tree: &mut T,
    kind: &str,
    file: &FileName,
    words: SplitWhitespace<'_>,
) -> Result<(), LineError> {
    match kind {
        "look" => out.debug(&tree.look(&file.path)),
        "attr" | "later" => out.debug(&tree.attr(file)),
        "settle" => out.debug(&tree.settle()),
        "sync" => out.debug(&tree.sync(file)),
        "turn" => out.debug(&tree.turn(file)),
        "list" => put_listed(out, &tree.list(&file.path)),
        _ => return put_numbered(alloc, out, tree, kind, file, words),
    }
    Ok(())
}

/// What a call answers that is given a number first.
fn put_numbered<T: HostTree>(
    alloc: Global,
    out: &mut Output,
    tree: &mut T,
    kind: &str,
    file: &FileName,
    mut words: SplitWhitespace<'_>,
) -> Result<(), LineError> {
    let number = next_number(&mut words)?;
    match kind {
        "create" => out.debug(&tree.create(&file.path, number)),
        "fresh" => out.debug(&tree.fresh(file, number)),
        "read" => put_found(out, &tree.read(file, number, next_small(&mut words)?)),
        "len" => out.debug(&tree.set_len(file, number, next_number(&mut words)?)),
        "write" => return put_write(alloc, out, tree, file, number, words),
        _ => return Err(LineError::BadLine),
    }
    Ok(())
}

/// What a write answers.
fn put_write<T: HostTree>(
    alloc: Global,
    out: &mut Output,
    tree: &mut T,
    file: &FileName,
    offset: u64,
    mut words: SplitWhitespace<'_>,
) -> Result<(), LineError> {
    let now = next_number(&mut words)?;
    let content = bytes(alloc, next(&mut words))?;
    out.debug(&tree.write(file, offset, content.as_slice(), now));
    Ok(())
}

/// The names in a folder, those of folders with a slash behind them, or why none came.
fn put_listed(out: &mut Output, answer: &ListAnswer) {
    match answer {
        ListAnswer::Names(names) => put_names(out, names),
        ListAnswer::NotFolder => out.text("NotFolder"),
        ListAnswer::Failed => out.text("Failed"),
        ListAnswer::Memory => out.text("Memory"),
    }
}

fn put_names(out: &mut Output, names: &List<ChildName>) {
    out.text("Names(");
    for (index, child) in names.iter().enumerate() {
        put_between(out, index, " ");
        out.lossy(child.name.as_slice());
        out.text(if child.folder { "/" } else { "" });
    }
    out.text(")");
}

/// The bytes that are read, as digits, or why none came.
fn put_found(out: &mut Output, answer: &TreeRead) {
    match answer {
        TreeRead::Got(bytes) => {
            out.text("Got(");
            out.digits(bytes.as_slice());
            out.text(")");
        }
        answer => out.debug(answer),
    }
}
