//! What a tree shows at the paths that a call looks at.

ghost use Rattle.std.specs.Prelude.{◌≡◌, ◌++◌, length, map, true, IfOk, OnErr, OnOk};
ghost use Rattle.std.specs.List.{flat_map};
ghost use Rattle.portal_model.specs.AddArguments.{document_path, paths_looked_at};
ghost use Rattle.add_files.specs.Items.{are_below, paths_of, presented_of};
ghost use Rattle.add_calls.specs.Shown.{Asked, Shows};

use add_files::PlanItem;
use host_tree::{HostTree, LookAnswer};
use portal_base::files::Look;
use portal_base::list::List;
use portal_base::memory::{Replica, WantOfMemory};
use portal_base::names::HostPath;
use portal_model::request::AddRequest;
use std::alloc::Global;

/// What a tree showed at paths, one after another.
#[derive(Drop)]
pub struct Shown {
    /// What it showed, in the order of its calls.
    pub looks: List<Look>,
    /// Whether the call behind these failed.
    pub failed: bool,
}

/// Asks the tree at each path, one after another, up to a call that fails.
///
/// The memory for all of it is taken before the tree is asked.
pub fn look_all<T: HostTree>(
    alloc: Global,
    tree: &mut T,
    paths: &[HostPath],
) -> Result<Shown, WantOfMemory>
    ensures shows { IfOk result (λ shown.
        Shows (T.is tree.old).told paths.now shown.looks shown.failed) }
    ensures asked { IfOk result (λ shown.
        Asked (T.is tree.old) (length shown.looks) shown.failed (T.is tree.new)) }
    ensures err { OnErr result (T.is tree.new ≡ T.is tree.old) }
{
    // All memory for looks is taken before the tree is asked.
    let mut looks = Vec::with_capacity(alloc, paths.len())?;
    for path in paths {
        match tree.look(path) {
            LookAnswer::Is(look) => looks.push_reserved(look),
            LookAnswer::Failed => {
                return Ok(Shown {
                    looks: List::from_vec(looks),
                    failed: true,
                });
            }
        }
    }
    Ok(Shown {
        looks: List::from_vec(looks),
        failed: false,
    })
}

/// The paths that a call looks at, over the presented files that it takes and
/// its plan: that of each file, or of each folder and then of the named file in
/// it.
pub fn paths_shown(
    alloc: Global,
    add: &AddRequest,
    presented: &[HostPath],
    items: &[PlanItem],
) -> Result<List<HostPath>, WantOfMemory>
    requires below { are_below (length presented.now) add.now.handles ≡ true }
    requires planned { map (λ item. item.path) items.now
        ≡ paths_of add.now presented.now add.now.handles }
    ensures { IfOk result (λ paths. paths
        ≡ flat_map (paths_looked_at add.now) (presented_of presented.now add.now.handles)) }
{
    let handles = add.handles.as_slice();
    let mut paths = List::new(alloc);
    for at in 0..handles.len() {
        let file = &presented[handles[at] as usize];
        if let Err(error) = push_looked_at(alloc, add, file, &items[at].path, &mut paths) {
            return Err(error);
        }
    }
    Ok(paths)
}

/// Puts the paths that are looked at for a file behind others.
fn push_looked_at(
    alloc: Global,
    add: &AddRequest,
    file: &HostPath,
    document: &HostPath,
    paths: &mut List<HostPath>,
) -> Result<(), WantOfMemory>
    requires { document.now ≡ document_path add.now file.now }
    ensures { OnOk result (paths.new ≡ paths.old ++ paths_looked_at add.now file.now) }
{
    if add.named {
        paths.push(file.replica(alloc)?)?;
    }
    paths.push(document.replica(alloc)?)?;
    Ok(())
}
