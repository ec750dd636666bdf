//! What the tree of files has at paths, and at and below them.

ghost use Rattle.std.specs.Prelude.{◌≡◌, ◌+◌, ◌<◌, ◌++◌, ◌∷◌, [], None, cond, false, length, map, option_copied, slice_get, true, IfOk, OnOk};
ghost use Rattle.std.specs.Cmp.Lexicographic.{slice_cmp};
ghost use Rattle.std.specs.List.Sorted.{IsPermutation, IsSortedBy};
ghost use Rattle.std.specs.Ordering.{nat_cmp};
ghost use Rattle.app_world.specs.View.{below_at as below_of_view, contents_at as contents_of_view, files_below as files_of_folder, holding_at, path_below as below_of_path, path_content as content_of_path};
ghost use Rattle.portal_base.specs.Names.{parent_of};
ghost use Rattle.portal_model.specs.Content.{OfFile, content_at as content_of_tree, content_of, is_folder as is_folder_of_tree};
ghost use Rattle.app_trace.specs.Contents.{comes_again, file_less, once_each, path_if, path_less, paths_held};
ghost use Rattle.app_trace.specs.Told.{below_told, content_told, holding_told, path_told};

use crate::view::{Content, HeldDocument, Holding, PathBelow, PathContent};
use portal_base::files::File;
use portal_base::list::List;
use portal_base::memory::{Replica, WantOfMemory};
use portal_base::names::HostPath;
use portal_model::state::Document;
use std::alloc::Global;
use std::cmp::Ordering;
use tree_files::{KeptFile, TreeFiles};

/// What is at the path of each document that is no folder, in byte order of the
/// paths, of which none is repeated. Of n files and k paths it takes about k log n
/// steps.
pub fn contents_of(
    alloc: Global,
    files: &TreeFiles,
    held: &[HeldDocument],
) -> Result<List<PathContent>, WantOfMemory>
    ensures { IfOk result (λ contents. map path_told contents
        ≡ contents_of_view files.now.present (paths_held false held.now)) }
{
    let paths = paths_held(alloc, held, false)?;
    let paths = by_bytes(paths);
    contents_at(alloc, files, paths.as_slice())
}

/// The files at and below the path of each document that is a folder, in byte order
/// of the paths, of which none is repeated. Of n files and k paths it takes about
/// k n steps, beside the sorting of what is found.
pub fn below_of(
    alloc: Global,
    files: &TreeFiles,
    held: &[HeldDocument],
) -> Result<List<PathBelow>, WantOfMemory>
    ensures { IfOk result (λ below. map below_told below
        ≡ below_of_view files.now.present (paths_held true held.now)) }
{
    let paths = paths_held(alloc, held, true)?;
    let paths = by_bytes(paths);
    below_at(alloc, files, paths.as_slice())
}

/// What there is for a document.
pub fn holding_of(
    alloc: Global,
    files: &TreeFiles,
    document: &Document,
) -> Result<Holding, WantOfMemory>
    ensures { IfOk result
        (λ holding. holding_told holding ≡ holding_at files.now.present document.now) }
{
    if document.folder {
        return Ok(Holding::Below {
            files: files_below(alloc, files, &document.path)?,
        });
    }
    Ok(Holding::Alone {
        content: content_at(alloc, files, &document.path)?,
    })
}

/// The paths of the documents that are folders, or of those that are none.
fn paths_held(
    alloc: Global,
    held: &[HeldDocument],
    folder: bool,
) -> Result<List<HostPath>, WantOfMemory>
    ensures { IfOk result (λ paths. paths ≡ paths_held folder held.now) }
{
    let mut paths = List::new(alloc);
    for item in held {
        push_path(alloc, &mut paths, item, folder)?;
    }
    Ok(paths)
}

/// Adds the path of a document, where it is a folder as told.
fn push_path(
    alloc: Global,
    paths: &mut List<HostPath>,
    item: &HeldDocument,
    folder: bool,
) -> Result<(), WantOfMemory>
    ensures { OnOk result (paths.new ≡ paths.old ++ path_if folder item.now) }
{
    if item.document.folder != folder {
        return Ok(());
    }
    paths.push(item.document.path.replica(alloc)?)
}

/// Paths in byte order.
fn by_bytes(paths: List<HostPath>) -> List<HostPath>
    ensures same { IsPermutation paths result }
    ensures order { IsSortedBy path_less result }
{
    // Whatever the order in which they came: views are compared by what is found in them.
    let mut paths = paths.into_vec();
    paths.sort_unstable_by(|first, second| byte_order(first, second));
    List::from_vec(paths)
}

/// Which of two paths has its place first.
fn byte_order(first: &HostPath, second: &HostPath) -> Ordering
    ensures { result ≡ slice_cmp nat_cmp first.now second.now }
{
    first.as_bytes().cmp(second.as_bytes())
}

/// What is at each of the paths, of which equal ones stand together.
fn contents_at(
    alloc: Global,
    files: &TreeFiles,
    paths: &[HostPath],
) -> Result<List<PathContent>, WantOfMemory>
    ensures { IfOk result (λ contents. map path_told contents
        ≡ map (content_of_path files.now.present) (once_each paths.now)) }
{
    let mut contents = List::new(alloc);
    for index in 0..paths.len() {
        let path = &paths[index];
        let again = comes_again(path, next_of(paths, index));
        push_content(alloc, &mut contents, files, path, again)?;
    }
    Ok(contents)
}

/// The files at and below each of the paths, of which equal ones stand together.
fn below_at(
    alloc: Global,
    files: &TreeFiles,
    paths: &[HostPath],
) -> Result<List<PathBelow>, WantOfMemory>
    ensures { IfOk result (λ below. map below_told below
        ≡ map (below_of_path files.now.present) (once_each paths.now)) }
{
    let mut below = List::new(alloc);
    for index in 0..paths.len() {
        let path = &paths[index];
        let again = comes_again(path, next_of(paths, index));
        push_below(alloc, &mut below, files, path, again)?;
    }
    Ok(below)
}

/// Adds the files at and below a path, unless the path comes again.
fn push_below(
    alloc: Global,
    below: &mut List<PathBelow>,
    files: &TreeFiles,
    path: &HostPath,
    repeats: bool,
) -> Result<(), WantOfMemory>
    ensures { OnOk result (map below_told below.new ≡ map below_told below.old
        ++ cond repeats [] (below_of_path files.now.present path.now ∷ [])) }
{
    if repeats {
        return Ok(());
    }
    below.push(path_below(alloc, files, path)?)
}

/// A path, and the files at and below it.
fn path_below(alloc: Global, files: &TreeFiles, path: &HostPath) -> Result<PathBelow, WantOfMemory>
    ensures { IfOk result (λ below. below_told below ≡ below_of_path files.now.present path.now) }
{
    Ok(PathBelow {
        files: files_below(alloc, files, path)?,
        path: path.replica(alloc)?,
    })
}

/// The files at and below a path, in byte order of their paths.
pub fn files_below(
    alloc: Global,
    files: &TreeFiles,
    path: &HostPath,
) -> Result<List<File>, WantOfMemory>
    ensures { IfOk result (λ found. found ≡ files_of_folder files.now.present path.now) }
{
    let found = files.in_folder(alloc, path)?;
    Ok(files_by_bytes(found))
}

/// Files in byte order of their paths, which differ.
fn files_by_bytes(files: List<File>) -> List<File>
    ensures same { IsPermutation files result }
    ensures order { IsSortedBy file_less result }
{
    let mut files = files.into_vec();
    files.sort_unstable_by(|first, second| byte_order(&first.path, &second.path));
    List::from_vec(files)
}

/// Adds what is at a path, unless the path comes again.
fn push_content(
    alloc: Global,
    contents: &mut List<PathContent>,
    files: &TreeFiles,
    path: &HostPath,
    again: bool,
) -> Result<(), WantOfMemory>
    ensures { OnOk result (map path_told contents.new ≡ map path_told contents.old
        ++ cond again [] (content_of_path files.now.present path.now ∷ [])) }
{
    if again {
        return Ok(());
    }
    contents.push(path_content(alloc, files, path)?)
}

/// The path behind the one of a place.
fn next_of(paths: &[HostPath], index: usize) -> Option<&HostPath>
    requires { index < length paths.now }
    ensures { option_copied result ≡ slice_get paths.now (index + 1) }
{
    paths.get(index + 1)
}

/// Says whether the path that comes next is the same.
fn comes_again(path: &HostPath, next: Option<&HostPath>) -> bool
    ensures { result ≡ comes_again path.now (option_copied next.entry) }
{
    match next {
        Some(next) => *next == *path,
        None => false,
    }
}

/// A path, and what is there.
fn path_content(
    alloc: Global,
    files: &TreeFiles,
    path: &HostPath,
) -> Result<PathContent, WantOfMemory>
    ensures { IfOk result
        (λ content. path_told content ≡ content_of_path files.now.present path.now) }
{
    Ok(PathContent {
        content: content_at(alloc, files, path)?,
        path: path.replica(alloc)?,
    })
}

/// What is at a path.
pub fn content_at(
    alloc: Global,
    files: &TreeFiles,
    path: &HostPath,
) -> Result<Content, WantOfMemory>
    ensures { IfOk result
        (λ content. content_told content ≡ content_of_tree files.now.present path.now) }
{
    match files.at(path) {
        Some(file) => file_content(alloc, file),
        None => content_without_file(alloc, files, path),
    }
}

/// What a file is.
pub fn file_content(alloc: Global, file: &KeptFile) -> Result<Content, WantOfMemory>
    ensures { IfOk result
        (λ content. content_told content
        ≡ OfFile file.now.generation file.now.bytes file.now.moment) }
{
    Ok(Content::File {
        generation: file.generation,
        bytes: file.bytes.replica(alloc)?,
        moment: file.moment,
    })
}

/// What is at a path that has no file.
fn content_without_file(
    alloc: Global,
    files: &TreeFiles,
    path: &HostPath,
) -> Result<Content, WantOfMemory>
    ensures { IfOk result (λ content. content_told content
        ≡ content_of None (is_folder_of_tree files.now.present path.now)
        (is_folder_of_tree files.now.present (parent_of path.now))) }
{
    if files.is_folder(path) {
        return Ok(Content::Folder);
    }
    let parent = path.parent(alloc)?;
    Ok(Content::Missing {
        room: files.is_folder(&parent),
    })
}
