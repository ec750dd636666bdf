//! What an application holds of the state that a portal opens with.

ghost use Rattle.std.specs.Prelude.{◌≡◌, IfOk};
ghost use Rattle.app_world.specs.View.{view};
ghost use Rattle.portal_model.specs.Opening.{opened};
ghost use Rattle.portal_model.specs.Valid.{Valid};
ghost use Rattle.app_trace.specs.Told.{view_told};

use crate::contents::{below_of, contents_of};
use crate::files::files_of;
use crate::held::held_documents;
use crate::view::AppView;
use document_records::opening::rights;
use portal_base::list::List;
use portal_base::memory::WantOfMemory;
use portal_base::names::AppId;
use portal_model::opening::OpeningState;
use std::alloc::Global;

/// What an application holds of the state that a portal opens with, in which
/// no connection is open: the limits that it meets, the documents in which it
/// has a right, what is at their paths, and at and below those of folders.
pub fn view_of(alloc: Global, opening: &OpeningState, app: &AppId) -> Result<AppView, WantOfMemory>
    requires { Valid (opened opening.now) }
    ensures { IfOk result (λ held. view_told held ≡ view (opened opening.now) app.now) }
{
    let items = opening.documents.as_slice();
    let rights = rights(alloc, items)?;
    let documents = held_documents(alloc, items, &rights, app)?;
    let files = files_of(alloc, opening)?;
    let contents = contents_of(alloc, &files, documents.as_slice())?;
    let below = below_of(alloc, &files, documents.as_slice())?;
    Ok(AppView {
        handles: opening.limits.handles,
        queued: opening.limits.queued,
        file_bytes: opening.limits.file_bytes,
        documents,
        connections: List::new(alloc),
        contents,
        below,
        // What files are known by their names is told by connections alone.
        files: List::new(alloc),
    })
}
