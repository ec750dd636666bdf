//! The documents that an opening state begins with.

ghost use Rattle.std.specs.Prelude.{◌≡◌, ◌<◌, ◌≤◌, ◌^◌, length, map, nat_eq, true, IfOk};
ghost use Rattle.std.specs.List.{IsDistinct, list_all};
ghost use Rattle.portal_base.specs.Names.{is_host_path};
ghost use Rattle.portal_model.specs.Opening.{document_kept};
ghost use Rattle.portal_model.specs.Valid.{is_made};

use crate::Documents;
use crate::known::known_path;
use portal_base::limits::Limits;
use portal_base::list::List;
use portal_base::memory::WantOfMemory;
use portal_base::names::DocId;
use portal_model::opening::OpeningDocument;
use portal_model::state::Document;
use std::alloc::Global;

/// The live documents, and the numbers that were made, which theirs are among.
pub fn documents(
    alloc: Global,
    items: &[OpeningDocument],
    made: &[DocId],
    limits: &Limits,
) -> Result<Documents, WantOfMemory>
    requires paths { list_all (λ d. is_host_path d.path) (map document_kept items.now) ≡ true }
    requires differ { IsDistinct nat_eq (map (λ d. d.kept.number) items.now) }
    requires made_of { list_all (λ d. is_made made.now d.kept.number) items.now ≡ true }
    requires live { length items.now ≤ limits.now.documents }
    requires made { length made.now ≤ limits.now.made }
    requires limit { limits.now.made < 2 ^ 32 }
    ensures { IfOk result (λ documents. documents ≡ record {
      most_live = limits.now.documents;
      most_made = limits.now.made;
      live = map document_kept items.now;
      made = made.now;
    }) }
{
    let mut live = List::new(alloc);
    for item in items {
        live.push(document(alloc, item)?)?;
    }
    Documents::of(alloc, limits, live, made)
}

/// A document of an opening state.
pub fn document(alloc: Global, item: &OpeningDocument) -> Result<Document, WantOfMemory>
    requires { is_host_path item.now.kept.path ≡ true }
    ensures { IfOk result (λ d. d ≡ document_kept item.now) }
{
    Ok(Document {
        id: DocId {
            number: item.kept.number,
        },
        path: known_path(alloc, item.kept.path.as_slice())?,
        persistent: item.persistent,
        reusable: item.kept.reusable,
        strict: item.kept.strict,
        folder: item.folder,
    })
}
