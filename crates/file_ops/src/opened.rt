//! Looks at open files.

ghost use Rattle.host_tree.specs.Trees.{Asks, is_look_fault};
ghost use Rattle.host_tree.specs.declared.tree.TreeCall.TheVariants as TreeCall;
ghost use Rattle.portal_model.specs.Walk.{Named};
ghost use Rattle.file_ops.specs.Tries.{IsOfGeneration, ShowsAt};

use host_tree::{AttrAnswer, HostTree, LookAnswer};
use portal_base::files::{FileName, Look};

/// What there is of a file, by its name.
pub(crate) fn look_named<T: HostTree>(tree: &mut T, name: &FileName) -> LookAnswer
    ensures asks { Asks TreeCall.Attr (T.is tree.old) (is_look_fault result) (T.is tree.new) }
    ensures shows { ShowsAt (T.is tree.old).told (Named name.now) result }
    ensures generation { IsOfGeneration name.now.generation result }
{
    // The file is told by its path and generation: what the host puts there under the same path is
    // the same file to a handle.
    match tree.attr(name) {
        AttrAnswer::Is { size, moment } => LookAnswer::Is(Look::File {
            generation: name.generation,
            size,
            moment,
        }),
        AttrAnswer::NotFile => LookAnswer::Is(Look::Missing),
        AttrAnswer::Failed => LookAnswer::Failed,
    }
}
