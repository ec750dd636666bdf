//! The path of a name in a folder.

ghost use Rattle.std.specs.Prelude.{◌≡◌, IfOk};
ghost use Rattle.folder_documents.specs.Children.{child_of_folder};

use portal_base::memory::WantOfMemory;
use portal_base::names::NameError;
use portal_base::names::host_path::HostPath;
use std::alloc::Global;

/// The path of a name in a folder; `None` exactly where the name is `.` or `..` or
/// the joined path is no path on the host.
pub fn child_path(
    alloc: Global,
    parent: &HostPath,
    name: &[u8],
) -> Result<Option<HostPath>, WantOfMemory>
    ensures { IfOk result (λ path. path ≡ child_of_folder parent.now name.now) }
{
    // Each of the two breaks the rule of paths, so a child has neither name; joined to the root
    // they do as well.
    match parent.child(alloc, name) {
        Ok(path) => Ok(Some(path)),
        Err(NameError::BadName { .. }) => Ok(None),
        Err(NameError::Memory) => Err(WantOfMemory),
    }
}
