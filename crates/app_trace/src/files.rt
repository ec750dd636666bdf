//! The files of an opening state.

ghost use Rattle.std.specs.Prelude.{◌≡◌, None, OnOk, true, IfOk};
ghost use Rattle.portal_base.specs.Content.{ArePlaced, file_at, paths_of};
ghost use Rattle.portal_base.specs.Names.{is_host_path};
ghost use Rattle.portal_model.specs.Opening.{file_of, opened};
ghost use Rattle.portal_model.specs.Valid.{Valid};
ghost use Rattle.app_trace.specs.Contents.{ShowAlike, with_item};

use document_records::opening::known_path;
use portal_base::files::File;
use portal_base::memory::{Replica, WantOfMemory};
use portal_model::opening::{FileItem, OpeningState};
use std::alloc::Global;
use tree_files::TreeFiles;

/// The files of the tree that a portal opens over, and those beside them. Of n files it takes about
/// n log n steps.
pub fn files_of(alloc: Global, opening: &OpeningState) -> Result<TreeFiles, WantOfMemory>
    requires { Valid (opened opening.now) }
    ensures shown { IfOk result
        (λ files. ShowAlike files.present (opened opening.now).files) }
    // Of a tree they stand in their order already.
    ensures placed { IfOk result (λ files. ArePlaced (paths_of (opened opening.now).files)
        → files.present ≡ (opened opening.now).files) }
    ensures hidden { IfOk result (λ files. files.hidden ≡ (opened opening.now).hidden) }
{
    let mut files = TreeFiles::new(alloc);
    for item in opening.files.as_slice() {
        add_file(alloc, &mut files, item)?;
    }
    Ok(files)
}

/// Adds a file of an opening state, whose path has none that is present where this one is.
fn add_file(alloc: Global, files: &mut TreeFiles, item: &FileItem) -> Result<(), WantOfMemory>
    requires name { is_host_path item.now.path ≡ true }
    requires fresh { item.now.present ≡ true → file_at files.old.present item.now.path ≡ None }
    ensures { OnOk result (files.new ≡ with_item item.now files.old) }
{
    let file = file_of(alloc, item)?;
    if item.present {
        files.add(file)
    } else {
        files.add_hidden(file)
    }
}

/// A file of an opening state, as a tree has it.
fn file_of(alloc: Global, item: &FileItem) -> Result<File, WantOfMemory>
    requires { is_host_path item.now.path ≡ true }
    ensures { IfOk result (λ file. file ≡ file_of item.now) }
{
    let bytes = item.content.replica(alloc)?;
    match known_path(alloc, item.path.as_slice()) {
        Ok(path) => Ok(File {
            path,
            generation: item.generation,
            bytes,
            moment: item.moment,
        }),
        Err(error) => Err(error),
    }
}
