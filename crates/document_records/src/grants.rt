//! Which application has which right in which document.

ghost use Rattle.std.specs.Prelude.{◌≡◌, [], OnOk, OnErr, IfOk, map, fold, None, true, false, option_copied};
ghost use Rattle.std.specs.BTreeMap.{get};
ghost use Rattle.std.specs.List.{prefix_len, find, filter};
ghost use Rattle.std.specs.Ordering.{nat_cmp};
ghost use Rattle.portal_model.specs.State.{held_of};
ghost use Rattle.portal_model.specs.Ordered.{put};
ghost use Rattle.rights_rule.specs.Rights.{is_no_right};
ghost use Rattle.portal_model.specs.Info.{holders, row_of};
ghost use Rattle.portal_model.specs.Kept.{grant_record};
ghost use Rattle.portal_model.specs.Rights.{add_rights, take_rights, forget_document, are_in_order};
ghost use Rattle.document_records.specs.GrantIndex.{documents_of};

use crate::by_app;
use crate::by_app::NumbersByApp;
use crate::holdings::{records_left, rows};
use portal_base::list::List;
use portal_base::memory::{Replica, WantOfMemory};
use portal_base::names::{AppId, DocId};
use portal_model::records::{GrantRecord, Row};
use rights_rule::Rights;
use std::alloc::Global;
use std::cmp::Ordering;
use std::collections::BTreeMap;
use std::marker::Model;

/// The rights of one application in one document.
#[derive(Drop)]
pub struct Grant {
    /// The document.
    pub id: DocId,
    /// The application.
    pub app: AppId,
    /// Its rights in it.
    pub rights: Rights,
}

/// The rights of applications in documents, as triples of an application, a
/// number and a right, in order of the number, the bytes of the application's
/// name, and the right.
#[derive(Drop)]
pub struct Grants {
    alloc: Global,
    // Those of a document stand together, in order of the name, whatever way they came: so they are
    // found by halving, and no call goes over those of other documents.
    documents: BTreeMap<u32, Vec<Grant>>,
    // So no call on one application goes over documents in which it has no right.
    by_app: NumbersByApp,
}

impl Model for Grants {
    ghost use Rattle.std.specs.Prelude.{List};
    ghost use Rattle.portal_model.specs.declared.state.Triple.{Triple};

    ghost Value = { List Triple };

    ghost use Rattle.document_records.specs.Grants.{triples_of_all};
    ghost use Rattle.document_records.specs.GrantIndex.{AreIndexed};

    ghost view = { λ a. triples_of_all a.documents.entries };

    ghost invariant = { λ a. AreIndexed a.documents a.by_app };
}

impl Grants {
    /// No rights.
    pub fn new(alloc: Global) -> Grants
        ensures { result ≡ [] }
    {
        Grants {
            alloc,
            documents: BTreeMap::new(alloc),
            by_app: BTreeMap::new(alloc),
        }
    }

    /// The rights that grants give together. The grants may come in any order
    /// and several of one application in one document; n of them take about
    /// n log n steps.
    pub fn of(alloc: Global, grants: List<Grant>) -> Result<Grants, WantOfMemory>
        ensures { IfOk result (λ rights. rights ≡ fold with_given [] grants) }
    {
        let mut grants = grants.into_vec();
        // In their order each is added behind the others.
        grants.sort_unstable_by(|first, second| place_order(first, second));
        gathered(alloc, &grants)
    }

    /// The rights of an application in a document. All rights stand in their
    /// order, none twice.
    pub fn rights(&self, app: &AppId, id: DocId) -> Rights
        ensures held { result ≡ held_of self.now app.now id.number }
        ensures order { are_in_order self.now ≡ true }
    {
        match find(in_document(&self.documents, id), app, id) {
            Some(grant) => grant.rights,
            None => Rights::NONE,
        }
    }

    /// Adds rights of an application in a document, which takes no memory where
    /// there are none to add.
    pub fn add(&mut self, app: &AppId, id: DocId, rights: Rights) -> Result<(), WantOfMemory>
        ensures ok { OnOk result (self.new ≡ add_rights app.now id rights self.old) }
        ensures some { OnErr result (is_no_right rights ≡ false) }
        ensures err { OnErr result (self.new ≡ self.old) }
    {
        if find(in_document(&self.documents, id), app, id).is_some() {
            give_in(&mut self.documents, app, id, rights);
            return Ok(());
        }
        if rights.is_empty() {
            return Ok(());
        }
        let grant = Grant {
            id,
            app: app.replica(self.alloc)?,
            rights,
        };
        by_app::add_number(self.alloc, &mut self.by_app, app, id)?;
        if insert_in(self.alloc, &mut self.documents, grant).is_err() {
            by_app::remove_number(&mut self.by_app, app, id);
            return Err(WantOfMemory);
        }
        Ok(())
    }

    /// Takes rights of an application in a document away, and no others.
    pub fn remove(&mut self, app: &AppId, id: DocId, rights: Rights)
        ensures { self.new ≡ take_rights app.now id.number rights self.old }
    {
        take_in(&mut self.documents, app, id, rights);
        if find(in_document(&self.documents, id), app, id).is_none() {
            by_app::remove_number(&mut self.by_app, app, id);
        }
    }

    /// The documents in which an application has a right, by identifier. Of n
    /// documents it takes about n steps, however many others there are.
    pub fn documents_of(&self, app: &AppId) -> Result<List<DocId>, WantOfMemory>
        ensures { IfOk result (λ ids. ids ≡ documents_of self.now app.now) }
    {
        by_app::documents_of(self.alloc, &self.by_app, app)
    }

    /// The applications that have a right in a document, in byte order of their
    /// names, each with the names of its rights.
    pub fn rows(&self, id: DocId) -> Result<List<Row>, WantOfMemory>
        ensures { IfOk result (λ rows. rows
            ≡ map (row_of self.now id.number) (holders self.now id.number)) }
    {
        rows(self.alloc, in_document(&self.documents, id), id)
    }

    /// The rights in a document as they are kept, in byte order of the
    /// applications' names.
    pub fn records(&self, id: DocId) -> Result<List<GrantRecord>, WantOfMemory>
        ensures { IfOk result (λ records. records
            ≡ map (grant_record self.now id.number) (holders self.now id.number)) }
    {
        records_left(
            self.alloc,
            in_document(&self.documents, id),
            id,
            &[],
            Rights::NONE,
        )
    }

    /// The same, as they will be kept once these rights of an application are
    /// taken away.
    pub fn records_without(
        &self,
        app: &AppId,
        id: DocId,
        rights: Rights,
    ) -> Result<List<GrantRecord>, WantOfMemory>
        ensures { IfOk result (λ records. let left = take_rights app.now id.number rights self.now
            in records ≡ map (grant_record left id.number) (holders left id.number)) }
    {
        records_left(
            self.alloc,
            in_document(&self.documents, id),
            id,
            app.as_bytes(),
            rights,
        )
    }

    /// Takes all rights in a document away.
    pub fn forget(&mut self, id: DocId)
        ensures { self.new ≡ forget_document id.number self.old }
    {
        if let Some(grants) = self.documents.remove(&id.number) {
            by_app::remove_numbers(&mut self.by_app, grants.as_slice(), id);
        }
    }
}

ghost use Rattle.document_records.specs.Grants.{AreKept, is_of, is_before, given, taken, has_a_right, grant_less, grant_order, are_grants_in_order, with_given, all_grants, triples_of_all, is_in_document, AreKeptByNumber};

/// Which of two grants has its place first.
fn place_order(first: &Grant, second: &Grant) -> Ordering
    ensures { result ≡ grant_order first.now second.now }
{
    if first.id.number == second.id.number {
        return first.app.as_bytes().cmp(second.app.as_bytes());
    }
    first.id.number.cmp(&second.id.number)
}

/// The rights of grants that are added one after another.
fn gathered(alloc: Global, grants: &[Grant]) -> Result<Grants, WantOfMemory>
    ensures { IfOk result (λ rights. rights ≡ fold with_given [] grants.now) }
{
    let mut rights = Grants::new(alloc);
    for grant in grants {
        rights.add(&grant.app, grant.id, grant.rights)?;
    }
    Ok(rights)
}

/// Says whether a grant is of an application in a document.
fn is_of(grant: &Grant, app: &AppId, id: DocId) -> bool
    ensures { result ≡ is_of app.now id.number grant.now }
{
    grant.id.number == id.number && grant.app == *app
}

/// Says whether a grant stands ahead of those of an application in a document.
fn is_before(grant: &Grant, app: &AppId, id: DocId) -> bool
    ensures { result ≡ is_before app.now id.number grant.now }
{
    if grant.id.number == id.number {
        grant.app.as_bytes() < app.as_bytes()
    } else {
        grant.id.number < id.number
    }
}

/// The grant of an application in a document.
fn find<'a>(grants: &'a [Grant], app: &AppId, id: DocId) -> Option<&'a Grant>
    requires { are_grants_in_order grants.now ≡ true }
    ensures { option_copied result ≡ find (is_of app.now id.number) grants.now }
{
    let grant = grants.get(place_of(grants, app, id))?;
    if is_of(grant, app, id) {
        Some(grant)
    } else {
        None
    }
}

/// Puts a grant in its place, where there is none of its application and
/// document.
fn insert(grants: &mut Vec<Grant>, grant: Grant) -> Result<(), WantOfMemory>
    requires order { are_grants_in_order grants.old.items ≡ true }
    requires new { find (is_of grant.app grant.id.number) grants.old.items ≡ None }
    ensures ok { OnOk result (grants.new.items ≡ put grant_less grant grants.old.items) }
    ensures err { OnErr result (grants.new.items ≡ grants.old.items) }
{
    let at = place_of(grants, &grant.app, grant.id);
    grants.insert(at, grant)?;
    Ok(())
}

/// The place where a grant of an application in a document stands, or would.
fn place_of(grants: &[Grant], app: &AppId, id: DocId) -> usize
    requires { are_grants_in_order grants.now ≡ true }
    ensures { result ≡ prefix_len (is_before app.now id.number) grants.now }
{
    grants.partition_point(|grant| is_before(grant, app, id))
}

/// Adds rights to the grant of an application in a document.
fn give(grants: &mut Vec<Grant>, app: &AppId, id: DocId, rights: Rights)
    requires { are_grants_in_order grants.old.items ≡ true }
    ensures { grants.new.items ≡ map (given app.now id.number rights) grants.old.items }
{
    let at = place_of(grants, app, id);
    if let Some(grant) = grants.get_mut(at) {
        give_if(grant, app, id, rights);
    }
}

/// Adds rights to a grant, where it is of an application in a document.
fn give_if(grant: &mut Grant, app: &AppId, id: DocId, rights: Rights)
    ensures { grant.new ≡ given app.now id.number rights grant.old }
{
    if is_of(grant, app, id) {
        grant.rights = grant.rights.union(rights);
    }
}

/// Takes rights away from the grant of an application in a document, and the
/// grant where nothing is left of it.
fn take(grants: &mut Vec<Grant>, app: &AppId, id: DocId, rights: Rights)
    requires { AreKept grants.old.items }
    ensures { grants.new.items
        ≡ filter has_a_right (map (taken app.now id.number rights) grants.old.items) }
{
    let at = place_of(grants, app, id);
    let Some(grant) = grants.get_mut(at) else {
        return;
    };
    take_if(grant, app, id, rights);
    if grant.rights.is_empty() {
        grants.remove(at);
    }
}

/// Takes rights away from a grant, where it is of an application in a
/// document.
fn take_if(grant: &mut Grant, app: &AppId, id: DocId, rights: Rights)
    ensures { grant.new ≡ taken app.now id.number rights grant.old }
{
    if is_of(grant, app, id) {
        grant.rights = grant.rights.minus(rights);
    }
}

/// The grants in a document.
fn in_document(documents: &BTreeMap<u32, Vec<Grant>>, id: DocId) -> &[Grant]
    requires { AreKeptByNumber documents.now }
    ensures { result.now ≡ filter (is_in_document id.number) (all_grants documents.now.entries) }
{
    match documents.get(&id.number) {
        Some(grants) => grants.as_slice(),
        None => &[],
    }
}

/// Adds rights to the grant of an application in a document, among those of all.
fn give_in(documents: &mut BTreeMap<u32, Vec<Grant>>, app: &AppId, id: DocId, rights: Rights)
    requires { AreKeptByNumber documents.old }
    ensures kept { AreKeptByNumber documents.new }
    ensures given { all_grants documents.new.entries
        ≡ map (given app.now id.number rights) (all_grants documents.old.entries) }
{
    if let Some(grants) = documents.get_mut(&id.number) {
        give(grants, app, id, rights);
    }
}

/// Takes rights away from the grant of an application in a document, among
/// those of all. A document in which nothing is held any more goes.
fn take_in(documents: &mut BTreeMap<u32, Vec<Grant>>, app: &AppId, id: DocId, rights: Rights)
    requires { AreKeptByNumber documents.old }
    ensures kept { AreKeptByNumber documents.new }
    ensures left { all_grants documents.new.entries ≡ filter has_a_right
        (map (taken app.now id.number rights) (all_grants documents.old.entries)) }
{
    let Some(grants) = documents.get_mut(&id.number) else {
        return;
    };
    take(grants, app, id, rights);
    if grants.as_slice().is_empty() {
        documents.remove(&id.number);
    }
}

/// Puts a grant in its place among those of its document.
fn insert_in(
    alloc: Global,
    documents: &mut BTreeMap<u32, Vec<Grant>>,
    grant: Grant,
) -> Result<(), WantOfMemory>
    requires kept { AreKeptByNumber documents.old }
    requires held { has_a_right grant ≡ true }
    requires new { find (is_of grant.app grant.id.number) (all_grants documents.old.entries)
        ≡ None }
    ensures kept { AreKeptByNumber documents.new }
    ensures ok { OnOk result (triples_of_all documents.new.entries
        ≡ add_rights grant.app grant.id grant.rights (triples_of_all documents.old.entries)) }
    ensures err { OnErr result (triples_of_all documents.new.entries
        ≡ triples_of_all documents.old.entries) }
{
    let number = grant.id.number;
    match documents.get_mut(&number) {
        Some(grants) => insert(grants, grant),
        None => insert_first(alloc, documents, grant),
    }
}

/// Adds the first grant of a document.
fn insert_first(
    alloc: Global,
    documents: &mut BTreeMap<u32, Vec<Grant>>,
    grant: Grant,
) -> Result<(), WantOfMemory>
    requires kept { AreKeptByNumber documents.old }
    requires held { has_a_right grant ≡ true }
    requires none { get nat_cmp documents.old grant.id.number ≡ None }
    ensures kept { AreKeptByNumber documents.new }
    ensures ok { OnOk result (triples_of_all documents.new.entries
        ≡ add_rights grant.app grant.id grant.rights (triples_of_all documents.old.entries)) }
    ensures err { OnErr result (triples_of_all documents.new.entries
        ≡ triples_of_all documents.old.entries) }
{
    let number = grant.id.number;
    let mut grants = Vec::new(alloc);
    grants.push(grant)?;
    documents.insert(number, grants)?;
    Ok(())
}
