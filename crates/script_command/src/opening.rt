//! The state that a script opens with, as plain data.

ghost use Rattle.std.specs.Prelude.{◌≡◌, IfOk, OnOk, map, true};
ghost use Rattle.std.specs.List.{list_all};
ghost use Rattle.host_tree.specs.Trees.{file_with, put_file};
ghost use Rattle.portal_base.specs.Content.{ArePlaced, paths_of};
ghost use Rattle.portal_model.specs.Opening.{file_of, first_item, is_first_item};
ghost use Rattle.script_form.specs.Devices.{tree_files, with_files};
ghost use Rattle.script_form.specs.Opening.{file_in, time_behind};
ghost use Rattle.script_form.specs.Order.{IsScript};
ghost use Rattle.script_command.specs.Openings.{AreAtTheirs, AreFirst, StandsFor, files_in};

use portal_base::list::{ByteList, List};
use portal_base::memory::{Replica, WantOfMemory};
use portal_base::names::HostPath;
use portal_model::opening::{FileItem, OpeningState};
use script_form::opening::opening_of;
use script_lines::script::{Script, ScriptLine};
use script_replay::settings::limits;
use std::alloc::Global;
use std::collections::BTreeMap;

/// The files of a tree, each at its path.
type FileTable = BTreeMap<HostPath, FileItem>;

/// The state that a script opens with, whose files stand in the order of their
/// paths, as a tree has them, each the first of its path.
pub fn opening_over_tree(alloc: Global, script: &Script) -> Result<OpeningState, WantOfMemory>
    requires { IsScript script.now.lines }
    ensures { IfOk result (StandsFor script.now.lines) }
{
    // A tree has its files in order of their paths, and the script in that of its lines.
    let opening = opening_of(alloc, script, limits())?;
    let Ok(files) = files_by_path(alloc, script.lines.as_slice()) else {
        drop(opening);
        return Err(WantOfMemory);
    };
    Ok(holding(opening, files))
}

/// An opening state with these files in place of its own.
fn holding(opening: OpeningState, files: List<FileItem>) -> OpeningState
    ensures { result ≡ record opening { files = files } }
{
    let OpeningState {
        limits,
        documents,
        made,
        applications,
        entries,
        files: _,
        taken,
    } = opening;
    OpeningState {
        limits,
        documents,
        made,
        applications,
        entries,
        files,
        taken,
    }
}

/// The files that lines add, in the order of their paths.
fn files_by_path(alloc: Global, lines: &[ScriptLine]) -> Result<List<FileItem>, WantOfMemory>
    requires { IsScript lines.now }
    ensures files { IfOk result (λ files. map file_of files ≡ tree_files lines.now) }
    ensures first { IfOk result (λ files. list_all is_first_item files ≡ true) }
{
    let table = table_of(alloc, lines)?;
    files_of(alloc, table)
}

/// The files of a table, in the order of their paths.
fn files_of(alloc: Global, table: FileTable) -> Result<List<FileItem>, WantOfMemory>
    ensures { IfOk result (λ files. files ≡ map (λ e. e.1) table.entries) }
{
    let files = table.into_values().collect(alloc)?;
    Ok(List::from_vec(files))
}

/// The table of the files that lines add.
fn table_of(alloc: Global, lines: &[ScriptLine]) -> Result<FileTable, WantOfMemory>
    requires { IsScript lines.now }
    ensures files { IfOk result (λ table. files_in table.entries ≡ tree_files lines.now) }
    ensures first { IfOk result (λ table. AreFirst table.entries) }
{
    let mut table = BTreeMap::new(alloc);
    let mut time = 0;
    for line in lines {
        match add_line(alloc, &mut table, &mut time, line) {
            Ok(()) => {}
            Err(error) => return Err(error),
        }
    }
    Ok(table)
}

/// Adds the file of a line, where it has one; a line of a time sets the moment.
fn add_line(
    alloc: Global,
    table: &mut FileTable,
    time: &mut u64,
    line: &ScriptLine,
) -> Result<(), WantOfMemory>
    requires placed { ArePlaced
        (paths_of (with_files (files_in table.old.entries) (file_in time.old line.now))) }
    requires keyed { AreAtTheirs table.old.entries }
    requires first { AreFirst table.old.entries }
    ensures files { OnOk result (files_in table.new.entries
        ≡ with_files (files_in table.old.entries) (file_in time.old line.now)) }
    ensures keyed { OnOk result (AreAtTheirs table.new.entries) }
    ensures first { OnOk result (AreFirst table.new.entries) }
    ensures time { OnOk result (time.new ≡ time_behind time.old line.now) }
{
    match line {
        ScriptLine::File { path, content } => add_file(alloc, table, path, content, *time),
        ScriptLine::Now { moment } => {
            *time = *moment;
            Ok(())
        }
        _ => Ok(()),
    }
}

/// Adds a file.
fn add_file(
    alloc: Global,
    table: &mut FileTable,
    path: &HostPath,
    content: &ByteList,
    moment: u64,
) -> Result<(), WantOfMemory>
    requires placed { ArePlaced (paths_of (put_file (file_with path.now content.now moment)
        (files_in table.old.entries))) }
    requires keyed { AreAtTheirs table.old.entries }
    requires first { AreFirst table.old.entries }
    ensures files { OnOk result (files_in table.new.entries
        ≡ put_file (file_with path.now content.now moment) (files_in table.old.entries)) }
    ensures keyed { OnOk result (AreAtTheirs table.new.entries) }
    ensures first { OnOk result (AreFirst table.new.entries) }
{
    let file = item(alloc, path, content, moment)?;
    let Ok(key) = path.replica(alloc) else {
        drop(file);
        return Err(WantOfMemory);
    };
    table.insert(key, file)?;
    Ok(())
}

/// A file, as plain data.
fn item(
    alloc: Global,
    path: &HostPath,
    content: &ByteList,
    moment: u64,
) -> Result<FileItem, WantOfMemory>
    ensures { IfOk result (λ item. item
        ≡ first_item path.now content.now moment) }
{
    Ok(FileItem {
        path: List::copied(alloc, path.as_bytes())?,
        content: content.replica(alloc)?,
        moment,
        generation: 0,
        present: true,
    })
}
