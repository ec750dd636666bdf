//! The devices of a run, which have what a script says of them.

ghost use Rattle.std.specs.Prelude.{◌≡◌, IfOk, OnOk, map};
ghost use Rattle.portal_base.specs.Content.{ArePlaced, paths_of};
ghost use Rattle.script_form.specs.Opening.{file_in, records_of};
ghost use Rattle.script_form.specs.Order.{IsScript};
ghost use Rattle.script_form.specs.Devices.{script_keeper, tree_files, script_tree, tree_with, with_files, script_words};

use crate::opening::{documents_in, entries_in, time_behind};
use crate::outside::{ToldOutside, outside_of};
use host_tree::MemoryTree;
use portal_base::list::List;
use portal_base::memory::{Replica, WantOfMemory};
use portal_base::outside::ListWords;
use portal_model::opening::OpeningDocument;
use portal_model::records::{DocRecord, Records};
use record_keeper::{MemoryKeeper, RECORDS_VERSION};
use script_lines::script::{Script, ScriptLine};
use std::alloc::Global;

/// The devices that a script speaks of, before their first use.
#[derive(Drop)]
pub struct ScriptDevices {
    /// The tree of its files.
    pub tree: MemoryTree,
    /// The keeper of its records.
    pub keeper: MemoryKeeper,
    /// Its words.
    pub words: ListWords,
}

/// The devices of a script: a tree of its files and a keeper of its records,
/// with the calls that it makes fail, and its words.
pub fn devices_of(alloc: Global, script: &Script) -> Result<ScriptDevices, WantOfMemory>
    requires { IsScript script.now.lines }
    ensures tree { IfOk result (λ devices. devices.tree ≡ script_tree script.now.lines) }
    ensures keeper { IfOk result (λ devices. devices.keeper ≡ script_keeper script.now.lines) }
    ensures words { IfOk result (λ devices. devices.words ≡ script_words script.now.lines) }
{
    let ToldOutside {
        words,
        tree_fails,
        keeper_fails,
    } = outside_of(alloc, script)?;
    let tree = tree_in(alloc, script.lines.as_slice(), tree_fails)?;
    let records = records_in(alloc, script.lines.as_slice())?;
    let keeper = MemoryKeeper::new(alloc, records, keeper_fails)?;
    Ok(ScriptDevices {
        tree,
        keeper,
        words: ListWords::new(words),
    })
}

/// The records that lines keep.
fn records_in(alloc: Global, lines: &[ScriptLine]) -> Result<Records, WantOfMemory>
    ensures { IfOk result (λ records. records ≡ records_of lines.now) }
{
    let documents = documents_in(alloc, lines)?;
    Ok(Records {
        version: RECORDS_VERSION,
        documents: kept_of(alloc, documents.as_slice())?,
        entries: entries_in(alloc, lines)?,
    })
}

/// What is kept of documents.
fn kept_of(alloc: Global, documents: &[OpeningDocument]) -> Result<List<DocRecord>, WantOfMemory>
    ensures { IfOk result (λ kept. kept ≡ map (λ d. d.kept) documents.now) }
{
    let mut kept = List::new(alloc);
    for document in documents {
        kept.push(document.kept.replica(alloc)?)?;
    }
    Ok(kept)
}

/// The tree of the files that lines add, whose calls of these numbers fail.
fn tree_in(
    alloc: Global,
    lines: &[ScriptLine],
    fails: List<u64>,
) -> Result<MemoryTree, WantOfMemory>
    requires { IsScript lines.now }
    ensures { IfOk result (λ tree. tree ≡ tree_with (tree_files lines.now) fails) }
{
    let mut tree = MemoryTree::new(alloc, fails);
    let mut time = 0;
    for line in lines {
        match add_file(alloc, &mut tree, line, time) {
            Ok(()) => {}
            Err(error) => return Err(error),
        }
        time = time_behind(line, time);
    }
    Ok(tree)
}

/// Adds the file of a line, with the moment now in force.
fn add_file(
    alloc: Global,
    tree: &mut MemoryTree,
    line: &ScriptLine,
    time: u64,
) -> Result<(), WantOfMemory>
    requires fresh { tree.old ≡ tree_with tree.old.files.present tree.old.count.calls.failing }
    requires placed { ArePlaced
        (paths_of (with_files tree.old.files.present (file_in time line.now))) }
    ensures { OnOk result (tree.new ≡ tree_with
        (with_files tree.old.files.present (file_in time line.now)) tree.old.count.calls.failing) }
{
    match line {
        ScriptLine::File { path, content } => {
            tree.add_file(path.replica(alloc)?, content.replica(alloc)?, time)
        }
        _ => Ok(()),
    }
}
