//! The rights that an opening state begins with.

ghost use Rattle.std.specs.Prelude.{◌≡◌, cond, true, IfOk, OnOk};
ghost use Rattle.std.specs.List.{list_all};
ghost use Rattle.portal_base.specs.Names.{is_app_name};
ghost use Rattle.portal_model.specs.Opening.{rights_kept, set_of_bits as set_kept, with_grant, with_grants};
ghost use Rattle.portal_model.specs.Rights.{are_in_order};
ghost use Rattle.rights_rule.specs.Rights.{no_rights};
ghost use Rattle.document_records.specs.Given.{given_by};

use crate::known::known_name;
use crate::{Grant, Grants};
use portal_base::list::List;
use portal_base::memory::WantOfMemory;
use portal_base::names::DocId;
use portal_model::opening::OpeningDocument;
use portal_model::records::GrantRecord;
use rights_rule::Rights;
use std::alloc::Global;

/// The rights that are held in the documents.
pub fn rights(alloc: Global, items: &[OpeningDocument]) -> Result<Grants, WantOfMemory>
    requires { list_all (λ t. is_app_name t.app) (rights_kept items.now) ≡ true }
    ensures { IfOk result (λ rights. rights ≡ rights_kept items.now) }
{
    let mut grants = List::new(alloc);
    for item in items {
        add_grants(alloc, &mut grants, item)?;
    }
    Grants::of(alloc, grants)
}

/// Adds the rights of a document to those that are given together.
fn add_grants(
    alloc: Global,
    grants: &mut List<Grant>,
    item: &OpeningDocument,
) -> Result<(), WantOfMemory>
    requires order { are_in_order (given_by grants.old) ≡ true }
    requires names { list_all (λ t. is_app_name t.app) (with_grants (given_by grants.old) item.now)
        ≡ true }
    ensures { OnOk result (given_by grants.new ≡ with_grants (given_by grants.old) item.now) }
{
    let number = item.kept.number;
    for grant in item.kept.grants.as_slice() {
        add_grant(alloc, grants, number, grant)?;
    }
    Ok(())
}

/// Adds the rights of a record, whose application has a name where there are
/// some.
fn add_grant(
    alloc: Global,
    grants: &mut List<Grant>,
    number: u32,
    grant: &GrantRecord,
) -> Result<(), WantOfMemory>
    requires order { are_in_order (given_by grants.old) ≡ true }
    requires names { list_all (λ t. is_app_name t.app)
        (with_grant number (given_by grants.old) grant.now) ≡ true }
    ensures { OnOk result
        (given_by grants.new ≡ with_grant number (given_by grants.old) grant.now) }
{
    let rights = set_of_bits(grant.rights);
    if rights.is_empty() {
        return Ok(());
    }
    let app = known_name(alloc, grant.app.as_slice())?;
    let id = DocId { number };
    grants.push(Grant { id, app, rights })?;
    Ok(())
}

/// The rights that a record's number stands for.
fn set_of_bits(bits: u8) -> Rights
    ensures { result ≡ set_kept bits }
{
    let read = right_if(bits % 2 == 1, Rights::READ);
    let write = right_if(bits / 2 % 2 == 1, Rights::WRITE);
    let grant = right_if(bits / 4 % 2 == 1, Rights::GRANT_PERMISSIONS);
    let delete = right_if(bits / 8 % 2 == 1, Rights::DELETE);
    read.union(write).union(grant).union(delete)
}

/// A right, where there is one.
fn right_if(given: bool, right: Rights) -> Rights
    ensures { result ≡ cond given right no_rights }
{
    if given { right } else { Rights::NONE }
}
