//! The kinds of files that a call needs.

ghost use Rattle.std.specs.Prelude.{◌≡◌, ◌&&◌, map, not};
ghost use Rattle.std.specs.List.{list_all, list_any};
ghost use Rattle.portal_base.specs.Names.{is_same, root};
ghost use Rattle.portal_model.specs.Add.{are_exported, are_folders_and_files, are_of_kind, is_file, is_folder_look};

use add_files::{PlanItem, exports};
use portal_base::files::Look;
use portal_base::names::host_path::is_root;
use portal_model::request::AddRequest;

/// Says whether what the tree showed is what a call needs, by its plan: a file at
/// each path, or a folder with a name, where folders are exported; or, where files
/// are named, a folder at each path and then a file or nothing in it.
pub fn are_of_kind(add: &AddRequest, items: &[PlanItem], looks: &[Look]) -> bool
    ensures { result ≡ are_of_kind add.now (map (λ item. item.path) items.now) looks.now }
{
    if add.named {
        are_folders_and_files(looks)
    } else if exports(add) {
        are_exported(items, looks)
    } else {
        are_files(looks)
    }
}

/// Says whether each look shows a folder, and none of the paths is the root, which
/// has no name.
fn are_exported(items: &[PlanItem], looks: &[Look]) -> bool
    ensures { result ≡ are_exported (map (λ item. item.path) items.now) looks.now }
{
    !has_root(items) && looks.iter().all(|look| is_folder(*look))
}

/// Says whether one of the paths is the root.
fn has_root(items: &[PlanItem]) -> bool
    ensures { result
        ≡ list_any (λ path. is_same path root) (map (λ item. item.path) items.now) }
{
    items.iter().any(|item| is_root(item.path.as_bytes()))
}

/// Says whether each look shows a file.
fn are_files(looks: &[Look]) -> bool
    ensures { result ≡ list_all is_file looks.now }
{
    looks.iter().all(|look| is_file(*look))
}

/// Says whether the looks show a folder and then a file or nothing, and so on.
fn are_folders_and_files(looks: &[Look]) -> bool
    ensures { result ≡ are_folders_and_files looks.now }
{
    let mut at = 0;
    while looks.len() - at >= 2 {
        if !is_place(looks[at], looks[at + 1]) {
            return false;
        }
        at += 2;
    }
    at == looks.len()
}

/// Says whether the first shows a folder and the second a file or nothing.
fn is_place(above: Look, named: Look) -> bool
    ensures { result ≡ (is_folder_look above && not (is_folder_look named)) }
{
    is_folder(above) && !is_folder(named)
}

fn is_file(look: Look) -> bool
    ensures { result ≡ is_file look }
{
    matches!(look, Look::File { .. })
}

fn is_folder(look: Look) -> bool
    ensures { result ≡ is_folder_look look }
{
    matches!(look, Look::Folder)
}
