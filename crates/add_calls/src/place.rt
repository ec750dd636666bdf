//! The files of a plan, placed one after another.

ghost use Rattle.std.specs.Prelude.{◌≡◌, ◌≤◌, ◌≢◌, ℕ, List, drop, length, true, false, IfOk, OnErr, OnOk};
ghost use Rattle.std.specs.List.{count_by};
ghost use Rattle.portal_model.specs.declared.request.AddRequest.{AddRequest};
ghost use Rattle.portal_model.specs.Add.{new_document};
ghost use Rattle.document_records.specs.Documents.{DocumentList, room};
ghost use Rattle.add_files.specs.declared.plan.PlanUse.TheVariants.{New};
ghost use Rattle.add_files.specs.Plans.{IsOfCall, document_at, is_new};
ghost use Rattle.add_calls.specs.Giving.{HasRoomForBoth};
ghost use Rattle.add_calls.specs.Limits.{HasRoomForAll, OwnsHold, exceeds_planned, has_document};
ghost use Rattle.add_calls.specs.Placing.{Book, Follows, Found, HasDrawnUpTo, IsLastMade, IsLastUse, IsMade, Placed, PlacedItem, UsedAll, WasUsed, WerePlaced, book_of, none_drawn, with_drawn, with_told, words_for, words_of};

use crate::give::{GivenBoth, give_both, take_both_back};
use add_files::{AddPlan, PlanItem, PlanUse};
use document_records::{Applications, Documents, Grants};
use portal_base::list::List;
use portal_base::memory::{Replica, WantOfMemory};
use portal_base::names::{DocId, HostPath};
use portal_base::outside::Words;
use portal_base::who::Who;
use portal_model::request::AddRequest;
use portal_model::state::Document;
use std::alloc::Global;

/// What was drawn for the files of a call so far.
#[derive(Drop)]
pub struct Drawn {
    /// The words, one for each new document.
    pub words: List<u32>,
    /// The numbers of the new documents.
    pub numbers: List<DocId>,
    /// The document of each file, where it has one.
    pub documents: List<Option<DocId>>,
}

/// The files of a plan, placed.
#[derive(Drop)]
pub struct PlacedFiles {
    /// What was drawn for them.
    pub drawn: Drawn,
    /// What has to be known to take them back.
    uses: List<Option<Use>>,
}

/// What one file used, and what was there before its rights.
#[derive(Clone, Copy, PartialEq, Eq)]
pub(crate) struct Use {
    /// Its document.
    pub id: DocId,
    /// What was there before its rights.
    pub given: GivenBoth,
}

/// Places the files of a plan that passes no limit, one after another: documents
/// are made with the numbers that are drawn for them, and rights are given.
///
/// Where there is no memory all of it is taken back, but for the words that
/// were drawn, one for each new document at most.
pub fn place_all<W: Words>(
    alloc: Global,
    who: &Who,
    add: &AddRequest,
    plan: &AddPlan,
    documents: &mut Documents,
    grants: &mut Grants,
    applications: &mut Applications,
    words: &mut W,
) -> Result<PlacedFiles, WantOfMemory>
    requires call { IsOfCall who.now add.now plan.now }
    requires within { exceeds_planned documents.old applications.old who.now plan.now ≡ false }
    ensures ok { IfOk result (λ placed. Follows who.now add.now plan.now
        (book_of documents.old grants.old applications.old)
        (book_of documents.new grants.new applications.new)
        (W.told words.old) (W.told words.new) placed.drawn) }
    ensures used { IfOk result (λ placed. UsedAll who.now add.now plan.now plan.now.items
        placed.uses (book_of documents.old grants.old applications.old)
        (book_of documents.new grants.new applications.new)) }
    ensures documents { OnErr result (documents.new ≡ documents.old) }
    ensures rights { OnErr result (grants.new ≡ grants.old) }
    ensures applications { OnErr result (applications.new ≡ applications.old) }
    ensures words { OnErr result
        (HasDrawnUpTo (words_for plan.now.items) (W.told words.old) (W.told words.new)) }
{
    let mut uses = match no_uses(alloc, plan.items.len()) {
        Ok(uses) => uses,
        Err(error) => return Err(error),
    };
    let mut drawn = none_drawn(alloc);
    if let Err(error) = place_from(
        alloc,
        who,
        add,
        plan,
        0,
        documents,
        grants,
        applications,
        words,
        &mut drawn,
        &mut uses,
    ) {
        return Err(error);
    }
    Ok(PlacedFiles { drawn, uses })
}

/// Takes the files of a plan back that were placed last, the last one first.
pub fn take_all_back(
    who: &Who,
    plan: &AddPlan,
    placed: &PlacedFiles,
    documents: &mut Documents,
    grants: &mut Grants,
    applications: &mut Applications,
)
    requires { WerePlaced who.now plan.now plan.now.items placed.now.uses
        (book_of documents.old grants.old applications.old) }
    ensures { (add : AddRequest) (before : Book) →
        UsedAll who.now add plan.now plan.now.items placed.now.uses before
        (book_of documents.old grants.old applications.old) →
        book_of documents.new grants.new applications.new ≡ before }
{
    let uses = placed.uses.as_slice();
    take_back_from(who, plan, 0, uses, documents, grants, applications);
}

/// Takes the files of a plan back from one on.
fn take_back_from(
    who: &Who,
    plan: &AddPlan,
    at: usize,
    uses: &[Option<Use>],
    documents: &mut Documents,
    grants: &mut Grants,
    applications: &mut Applications,
)
    requires { WerePlaced who.now plan.now (drop at plan.now.items) (drop at uses.now)
        (book_of documents.old grants.old applications.old) }
    ensures { (add : AddRequest) (before : Book) →
        UsedAll who.now add plan.now (drop at plan.now.items) (drop at uses.now) before
        (book_of documents.old grants.old applications.old) →
        book_of documents.new grants.new applications.new ≡ before }
{
    let items = plan.items.as_slice();
    if at >= items.len() {
        return;
    }
    if at >= uses.len() {
        return;
    }
    let item = &items[at];
    let used = uses[at];
    // The last file goes first, so that each finds the lists as they were behind it.
    take_back_from(who, plan, at + 1, uses, documents, grants, applications);
    take_item_back(who, plan, item, used, documents, grants, applications);
}

/// No use of so many files yet.
fn no_uses(alloc: Global, count: usize) -> Result<List<Option<Use>>, WantOfMemory>
    ensures { IfOk result (λ uses. length uses ≡ count) }
{
    let mut uses = List::new(alloc);
    if let Err(error) = uses.resize(count, None) {
        return Err(error);
    }
    Ok(uses)
}

/// Nothing was drawn yet.
fn none_drawn(alloc: Global) -> Drawn
    ensures { result ≡ none_drawn }
{
    Drawn {
        words: List::new(alloc),
        numbers: List::new(alloc),
        documents: List::new(alloc),
    }
}

/// Places the files of a plan from one on. Where there is no memory, all of it
/// is taken back, but for the words that were drawn.
pub(crate) fn place_from<W: Words>(
    alloc: Global,
    who: &Who,
    add: &AddRequest,
    plan: &AddPlan,
    at: usize,
    documents: &mut Documents,
    grants: &mut Grants,
    applications: &mut Applications,
    words: &mut W,
    drawn: &mut Drawn,
    uses: &mut List<Option<Use>>,
) -> Result<(), WantOfMemory>
    requires sized { length uses.old ≡ length plan.now.items }
    requires room { count_by (λ item. is_new item.place) (drop at plan.now.items)
        ≤ room documents.old }
    requires owns { OwnsHold who.now (drop at plan.now.items) }
    requires numbers { HasRoomForAll who.now plan.now (drop at plan.now.items) applications.old }
    ensures ok { OnOk result (Placed who.now add.now plan.now (drop at plan.now.items)
        (book_of documents.old grants.old applications.old)
        (book_of documents.new grants.new applications.new)
        (W.told words.old) (W.told words.new) drawn.old drawn.new) }
    ensures used { OnOk result (UsedAll who.now add.now plan.now (drop at plan.now.items)
        (drop at uses.new) (book_of documents.old grants.old applications.old)
        (book_of documents.new grants.new applications.new)) }
    ensures size { OnOk result (length uses.new ≡ length uses.old) }
    ensures documents { OnErr result (documents.new ≡ documents.old) }
    ensures rights { OnErr result (grants.new ≡ grants.old) }
    ensures applications { OnErr result (applications.new ≡ applications.old) }
    ensures words { OnErr result
        (HasDrawnUpTo (words_for (drop at plan.now.items)) (W.told words.old)
        (W.told words.new)) }
{
    let items = plan.items.as_slice();
    if at >= items.len() {
        return Ok(());
    }
    let item = &items[at];
    let used = match place_item(
        alloc,
        who,
        add,
        plan,
        item,
        documents,
        grants,
        applications,
        words,
        drawn,
    ) {
        Ok(used) => used,
        Err(error) => return Err(error),
    };
    if let Err(error) = place_from(
        alloc,
        who,
        add,
        plan,
        at + 1,
        documents,
        grants,
        applications,
        words,
        drawn,
        uses,
    ) {
        take_item_back(who, plan, item, used, documents, grants, applications);
        return Err(error);
    }
    uses.set(at, used);
    Ok(())
}

/// Places one file.
fn place_item<W: Words>(
    alloc: Global,
    who: &Who,
    add: &AddRequest,
    plan: &AddPlan,
    item: &PlanItem,
    documents: &mut Documents,
    grants: &mut Grants,
    applications: &mut Applications,
    words: &mut W,
    drawn: &mut Drawn,
) -> Result<Option<Use>, WantOfMemory>
    requires room { is_new item.now.place ≡ true → room documents.old ≢ 0 }
    requires numbers { has_document item.now.place ≡ true →
        HasRoomForBoth who.now plan.now item.now.own applications.old }
    ensures ok { IfOk result (λ used. PlacedItem who.now add.now plan.now item.now used
        (book_of documents.old grants.old applications.old)
        (book_of documents.new grants.new applications.new)
        (W.told words.old) (W.told words.new) drawn.old drawn.new) }
    ensures documents { OnErr result (documents.new ≡ documents.old) }
    ensures rights { OnErr result (grants.new ≡ grants.old) }
    ensures applications { OnErr result (applications.new ≡ applications.old) }
    ensures words { OnErr result
        (HasDrawnUpTo (words_of item.now.place) (W.told words.old) (W.told words.new)) }
{
    let id = match find_document(alloc, add, item, documents, words, drawn) {
        Ok(Some(id)) => id,
        Ok(None) => return Ok(None),
        Err(error) => return Err(error),
    };
    match give_both(grants, applications, who, plan, item.own, id) {
        Ok(given) => Ok(Some(Use { id, given })),
        Err(error) => {
            take_document_back(item.place, documents, id);
            Err(error)
        }
    }
}

/// Takes back what was placed last.
fn take_item_back(
    who: &Who,
    plan: &AddPlan,
    item: &PlanItem,
    used: Option<Use>,
    documents: &mut Documents,
    grants: &mut Grants,
    applications: &mut Applications,
)
    requires { IsLastUse item.now.place used documents.old }
    ensures documents { (add : AddRequest) (before : Book) →
        WasUsed who.now add plan.now item.now used before
        (book_of documents.old grants.old applications.old) →
        documents.new ≡ before.documents }
    ensures rights { (add : AddRequest) (before : Book) →
        WasUsed who.now add plan.now item.now used before
        (book_of documents.old grants.old applications.old) →
        grants.new ≡ before.rights }
    ensures applications { (add : AddRequest) (before : Book) →
        WasUsed who.now add plan.now item.now used before
        (book_of documents.old grants.old applications.old) →
        applications.new ≡ before.applications }
{
    if let Some(used) = used {
        take_both_back(
            grants,
            applications,
            who,
            plan,
            item.own,
            used.id,
            used.given,
        );
        take_document_back(item.place, documents, used.id);
    }
}

/// Takes a document back that was made last, where one was made.
fn take_document_back(place: PlanUse, documents: &mut Documents, id: DocId)
    requires { IsLastMade place id documents.old }
    ensures { (a : AddRequest) (path : List ℕ) (before : DocumentList) →
        IsMade a path place id before documents.old → documents.new ≡ before }
{
    // A number that was drawn for a document which is taken back is no longer made; only its word
    // is used up.
    if matches!(place, PlanUse::New) {
        documents.take_back(id);
    }
}

/// The document of a file, found or made, and told.
fn find_document<W: Words>(
    alloc: Global,
    add: &AddRequest,
    item: &PlanItem,
    documents: &mut Documents,
    words: &mut W,
    drawn: &mut Drawn,
) -> Result<Option<DocId>, WantOfMemory>
    requires { is_new item.now.place ≡ true → room documents.old ≢ 0 }
    ensures ok { IfOk result (λ id. Found add.now item.now.path item.now.place id documents.old
        documents.new (W.told words.old) (W.told words.new) drawn.old drawn.new) }
    ensures documents { OnErr result (documents.new ≡ documents.old) }
    ensures words { OnErr result
        (HasDrawnUpTo (words_of item.now.place) (W.told words.old) (W.told words.new)) }
{
    match item.place {
        PlanUse::LeftOut => told(drawn, None),
        PlanUse::Live(id) => told(drawn, Some(id)),
        PlanUse::Earlier(at) => {
            let id = earlier(&drawn.documents, at);
            told(drawn, Some(id))
        }
        PlanUse::New => make_document(alloc, add, &item.path, documents, words, drawn),
    }
}

/// Tells the document of a file.
fn told(drawn: &mut Drawn, id: Option<DocId>) -> Result<Option<DocId>, WantOfMemory>
    ensures ok { OnOk result (drawn.new ≡ with_told drawn.old id) }
    ensures id { IfOk result (λ answer. answer ≡ id) }
{
    drawn.documents.push(id)?;
    Ok(id)
}

/// The document of a file ahead.
fn earlier(documents: &List<Option<DocId>>, at: u32) -> DocId
    ensures { result ≡ document_at documents.now at }
{
    match documents.get(at as usize) {
        Some(Some(id)) => *id,
        _ => DocId { number: 0 },
    }
}

/// Draws a word, and makes the document of its number.
fn make_document<W: Words>(
    alloc: Global,
    add: &AddRequest,
    path: &HostPath,
    documents: &mut Documents,
    words: &mut W,
    drawn: &mut Drawn,
) -> Result<Option<DocId>, WantOfMemory>
    requires { room documents.old ≢ 0 }
    ensures ok { IfOk result (λ id. Found add.now path.now New id documents.old
        documents.new (W.told words.old) (W.told words.new) drawn.old drawn.new) }
    ensures documents { OnErr result (documents.new ≡ documents.old) }
    ensures words { OnErr result (HasDrawnUpTo 1 (W.told words.old) (W.told words.new)) }
{
    let word = words.next();
    let id = documents.unused_from(word);
    let document = match new_document(alloc, add, id, path) {
        Ok(document) => document,
        Err(error) => return Err(error),
    };
    if let Err(error) = tell_drawn(drawn, word, id) {
        return Err(error);
    }
    if documents.add(document).is_err() {
        return Err(WantOfMemory);
    }
    Ok(Some(id))
}

/// Tells a word, the number that was drawn by it, and the document of a file.
fn tell_drawn(drawn: &mut Drawn, word: u32, id: DocId) -> Result<(), WantOfMemory>
    ensures { OnOk result (drawn.new ≡ with_drawn drawn.old word id) }
{
    drawn.words.push(word)?;
    drawn.numbers.push(id)?;
    drawn.documents.push(Some(id))?;
    Ok(())
}

/// The document that an addition makes, with its flags.
fn new_document(
    alloc: Global,
    add: &AddRequest,
    id: DocId,
    path: &HostPath,
) -> Result<Document, WantOfMemory>
    ensures { IfOk result (λ document. document ≡ new_document add.now id path.now) }
{
    Ok(Document {
        id,
        path: path.replica(alloc)?,
        persistent: add.flags / 2 % 2 == 1,
        reusable: add.flags % 2 == 1,
        strict: add.flags / 16 % 2 == 1,
        folder: add.flags / 8 % 2 == 1,
    })
}
