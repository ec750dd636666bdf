//! The documents that a caller reaches.

ghost use Rattle.std.specs.Prelude.{◌≡◌, option_map, option_copied};
ghost use Rattle.portal_model.specs.Arguments.{document_named};
ghost use Rattle.portal_model.specs.Documents.{id_of_document};
ghost use Rattle.portal_model.specs.Rights.{held_by};
ghost use Rattle.grant_revoke.specs.Records.{reached_in};

use document_records::{Documents, Grants};
use portal_base::names::DocId;
use portal_base::who::Who;
use rights_rule::Rights;

/// A live document in which a caller has a right.
#[derive(Clone, Copy)]
pub struct Reached {
    /// Its number.
    pub id: DocId,
    /// The rights that the caller has.
    pub held: Rights,
}

/// The document of an identifier, where the caller has a right in it.
pub fn reach(documents: &Documents, grants: &Grants, who: &Who, doc: &[u8]) -> Option<Reached>
    ensures { result ≡ reached_in documents.now.live grants.now who.now doc.now }
{
    let id = document_named(documents, doc)?;
    let held = held_by(grants, who, id);
    // Who has no right in a document isn't told whether it is there.
    if held.is_empty() {
        return None;
    }
    Some(Reached { id, held })
}

/// The number of the live document of an identifier.
fn document_named(documents: &Documents, doc: &[u8]) -> Option<DocId>
    ensures { result ≡ option_map id_of_document (document_named documents.now.live doc.now) }
{
    let document = documents.find(DocId::read(doc)?)?;
    Some(document.id)
}

/// The rights of a caller in a live document: the host has every right.
fn held_by(grants: &Grants, who: &Who, id: DocId) -> Rights
    ensures { result ≡ held_by grants.now who.now id.number }
{
    match who {
        Who::Host => Rights::ALL,
        Who::App(app) => grants.rights(app, id),
    }
}
