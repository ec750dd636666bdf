//! The documents in which an application has a right.

ghost use Rattle.std.specs.Prelude.{◌≡◌, ◌++◌, map, nat_eq, true, IfOk, OnOk};
ghost use Rattle.std.specs.List.{IsDistinct, list_all};
ghost use Rattle.std.specs.List.Sorted.{IsPermutation, IsSortedBy};
ghost use Rattle.std.specs.Ordering.{nat_cmp};
ghost use Rattle.app_world.specs.View.{held_documents as held_of_view};
ghost use Rattle.portal_base.specs.Names.{is_host_path};
ghost use Rattle.portal_model.specs.Opening.{document_kept};
ghost use Rattle.portal_model.specs.State.{held_of};
ghost use Rattle.app_trace.specs.Held.{held_among, held_if, number_less};
ghost use Rattle.app_trace.specs.Told.{held_told};

use crate::view::HeldDocument;
use document_records::Grants;
use document_records::opening::document;
use portal_base::list::List;
use portal_base::memory::WantOfMemory;
use portal_base::names::{AppId, DocId};
use portal_model::opening::OpeningDocument;
use rights_rule::Rights;
use std::alloc::Global;
use std::cmp::Ordering;

/// The documents of an opening state in which an application has one of these
/// rights, in rising order of their numbers. Of n documents it takes about
/// n log n steps.
pub(crate) fn held_documents(
    alloc: Global,
    items: &[OpeningDocument],
    rights: &Grants,
    app: &AppId,
) -> Result<List<HeldDocument>, WantOfMemory>
    requires paths { list_all (λ d. is_host_path d.path) (map document_kept items.now) ≡ true }
    requires differ { IsDistinct nat_eq (map (λ d. d.kept.number) items.now) }
    ensures { IfOk result (λ held. map held_told held
        ≡ held_of_view (held_of rights.now app.now) (map document_kept items.now)) }
{
    let held = held_among(alloc, items, rights, app)?;
    Ok(by_number(held))
}

/// These in order of addition.
fn held_among(
    alloc: Global,
    items: &[OpeningDocument],
    rights: &Grants,
    app: &AppId,
) -> Result<List<HeldDocument>, WantOfMemory>
    requires { list_all (λ d. is_host_path d.path) (map document_kept items.now) ≡ true }
    ensures { IfOk result (λ held. held ≡ held_among rights.now app.now items.now) }
{
    let mut held = List::new(alloc);
    for item in items {
        let id = DocId {
            number: item.kept.number,
        };
        push_held(alloc, &mut held, item, rights.rights(app, id))?;
    }
    Ok(held)
}

/// Adds a document, where there are rights in it.
fn push_held(
    alloc: Global,
    held: &mut List<HeldDocument>,
    item: &OpeningDocument,
    rights: Rights,
) -> Result<(), WantOfMemory>
    requires { is_host_path item.now.kept.path ≡ true }
    ensures { OnOk result (held.new ≡ held.old ++ held_if rights item.now) }
{
    if rights.is_empty() {
        return Ok(());
    }
    let document = document(alloc, item)?;
    held.push(HeldDocument { document, rights })
}

/// Documents in rising order of their numbers.
fn by_number(held: List<HeldDocument>) -> List<HeldDocument>
    ensures same { IsPermutation held result }
    ensures order { IsSortedBy number_less result }
{
    let mut held = held.into_vec();
    held.sort_unstable_by(|first, second| number_order(first, second));
    List::from_vec(held)
}

/// Which of two documents has its place first.
fn number_order(first: &HeldDocument, second: &HeldDocument) -> Ordering
    ensures { result ≡ nat_cmp first.now.document.id.number second.now.document.id.number }
{
    first.document.id.number.cmp(&second.document.id.number)
}
