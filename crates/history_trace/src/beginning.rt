//! The portal that a replay begins with.

ghost use Rattle.std.specs.Prelude.{◌≡◌, [], cond, false, map, true, Some, IfOk, OnOk};
ghost use Rattle.std.specs.List.{list_all};
ghost use Rattle.file_generations.specs.Generations.{held_with, put_present};
ghost use Rattle.portal_base.specs.Content.{ArePlaced, paths_of};
ghost use Rattle.portal_base.specs.FileChanges.{put_file};
ghost use Rattle.portal_base.specs.Names.{is_host_path};
ghost use Rattle.host_tree.specs.Beside.{AreHeld};
ghost use Rattle.host_tree.specs.Devices.{put_hidden, quiet_with_hidden, quiet_with_present};
ghost use Rattle.portal_desk.specs.Opening.{IsOpeningState};
ghost use Rattle.portal_model.specs.Opening.{file_of, held_items, opened};
ghost use Rattle.portal_model.specs.Valid.{Valid};
ghost use Rattle.history_trace.specs.Replayed.{Begins, tree_begun, tree_with, without_files};

use crate::idle::IdleKeeper;
use document_records::opening::known_path;
use host_tree::{HostTree, QuietTree};
use portal_base::files::File;
use portal_base::list::List;
use portal_base::memory::{Replica, WantOfMemory};
use portal_base::outside::{ListWords, SetClock};
use portal_core::portal::Portal;
use portal_model::opening::{FileItem, OpeningState};
use std::alloc::Global;

/// A portal over devices that never fail.
pub(crate) type QuietPortal = Portal<QuietTree, IdleKeeper, SetClock, ListWords>;

/// A portal that opens with a state, and has the files of that state, present or not.
pub(crate) fn opened_portal(
    alloc: Global,
    opening: &OpeningState,
) -> Result<QuietPortal, WantOfMemory>
    requires valid { Valid (opened opening.now) }
    requires started { IsOpeningState (opened opening.now) }
    ensures { IfOk result (λ portal. Begins opening.now portal.story) }
{
    let tree = tree_of(alloc, opening.files.as_slice())?;
    match lists_copied(alloc, opening) {
        Ok(lists) => Portal::reopen(
            alloc,
            tree,
            IdleKeeper,
            SetClock::new(0),
            ListWords::new(List::new(alloc)),
            lists,
        ),
        Err(error) => Err(error),
    }
}

/// A copy of an opening state, but for its files.
fn lists_copied(alloc: Global, opening: &OpeningState) -> Result<OpeningState, WantOfMemory>
    ensures { IfOk result (λ copy. copy ≡ without_files opening.now) }
{
    let documents = opening.documents.replica(alloc)?;
    let made = opening.made.replica(alloc)?;
    let applications = opening.applications.replica(alloc)?;
    let entries = opening.entries.replica(alloc)?;
    let taken = opening.taken.replica(alloc)?;
    Ok(OpeningState {
        limits: opening.limits,
        documents,
        made,
        applications,
        entries,
        files: List::new(alloc),
        taken,
    })
}

/// A tree that has these files and began with them, each present or beside those that are. The
/// present ones stand in the order of a tree.
fn tree_of(alloc: Global, files: &[FileItem]) -> Result<QuietTree, WantOfMemory>
    requires names { list_all is_host_path (paths_of (map file_of files.now)) ≡ true }
    requires placed { ArePlaced (paths_of (held_items files.now).present) }
    requires held { AreHeld (held_items files.now) }
    ensures { IfOk result (λ tree. tree ≡ tree_with (held_items files.now)) }
{
    // What isn't present lies in a folder of what is, so this comes first.
    let mut tree = present_tree(alloc, files)?;
    for item in files {
        add_hidden(alloc, &mut tree, item)?;
    }
    tree.settle()?;
    Ok(tree)
}

/// A tree that has those of the files that are present.
fn present_tree(alloc: Global, files: &[FileItem]) -> Result<QuietTree, WantOfMemory>
    requires names { list_all is_host_path (paths_of (map file_of files.now)) ≡ true }
    requires placed { ArePlaced (paths_of (held_items files.now).present) }
    ensures { IfOk result
        (λ tree. tree ≡ tree_begun (held_with (held_items files.now).present [])) }
{
    let mut tree = QuietTree::new(alloc);
    for item in files {
        add_present(alloc, &mut tree, item)?;
    }
    Ok(tree)
}

/// Adds a file to those that the tree has, where it is present.
fn add_present(alloc: Global, tree: &mut QuietTree, item: &FileItem) -> Result<(), WantOfMemory>
    requires path { is_host_path item.now.path ≡ true }
    requires fresh { tree.old.made ≡ 0 }
    requires placed { item.now.present ≡ true
        → ArePlaced (paths_of (put_file (file_of item.now) tree.old.files.present)) }
    requires held { item.now.present ≡ true
        → AreHeld (put_present (file_of item.now) tree.old.files) }
    ensures { OnOk result (tree.new
        ≡ cond item.now.present (quiet_with_present (file_of item.now) tree.old) tree.old) }
{
    if item.present {
        let file = file_of(alloc, item)?;
        tree.add_present(file)
    } else {
        Ok(())
    }
}

/// Adds a file to those that the tree has, where it isn't present.
fn add_hidden(alloc: Global, tree: &mut QuietTree, item: &FileItem) -> Result<(), WantOfMemory>
    requires path { is_host_path item.now.path ≡ true }
    requires fresh { tree.old.made ≡ 0 }
    requires held { item.now.present ≡ false
        → AreHeld (put_hidden (file_of item.now) tree.old.files) }
    ensures { OnOk result (tree.new
        ≡ cond item.now.present tree.old (quiet_with_hidden (file_of item.now) tree.old)) }
{
    if item.present {
        Ok(())
    } else {
        let file = file_of(alloc, item)?;
        tree.add_hidden(file)
    }
}

/// A file of an opening state, as a tree has it.
fn file_of(alloc: Global, item: &FileItem) -> Result<File, WantOfMemory>
    requires { is_host_path item.now.path ≡ true }
    ensures { IfOk result (λ file. file ≡ file_of item.now) }
{
    let bytes = item.content.replica(alloc)?;
    match known_path(alloc, item.path.as_slice()) {
        Ok(path) => Ok(File {
            path,
            generation: item.generation,
            bytes,
            moment: item.moment,
        }),
        Err(error) => Err(error),
    }
}
