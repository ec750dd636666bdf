//! The files of a plan, placed and kept.

ghost use Rattle.std.specs.Prelude.{◌≡◌, ◌∷◌, ◌++◌, [], ◌≤◌, length, map, IfOk, OnOk, OnErr, false};
ghost use Rattle.add_calls.specs.Limits.{exceeds_planned};
ghost use Rattle.add_calls.specs.Placing.{HasDrawnUpTo, book_of, words_for};
ghost use Rattle.add_files.specs.Plans.{IsOfCall, id_told};
ghost use Rattle.add_serving.specs.Adds.{PlacedKept};
ghost use Rattle.add_serving.specs.Changes.{AppliedWhere, changes_of, plan_changes};
ghost use Rattle.document_calls.specs.Changes.{SameLimits};
ghost use Rattle.document_calls.specs.KeeperCalls.{KeeperStays};

use crate::changes::{changes_of, plan_changes};
use crate::outcomes::AddedFiles;
use add_calls::{PlacedFiles, place_all, take_all_back};
use add_files::AddPlan;
use document_calls::keep;
use document_records::{Applications, Document, Documents, Grants, id_text};
use portal_base::list::List;
use portal_base::memory::WantOfMemory;
use portal_base::names::DocId;
use portal_base::outside::Words;
use portal_base::text::Text;
use portal_base::who::Who;
use portal_model::request::AddRequest;
use record_keeper::Keeper;
use std::alloc::Global;

/// Places the files of a plan that passes no limit, and asks the keeper where
/// the records change. Where it fails, or there is no memory, all of it is
/// taken back, but for the words that were drawn.
pub(crate) fn place_kept<W: Words, K: Keeper>(
    alloc: Global,
    documents: &mut Documents,
    grants: &mut Grants,
    applications: &mut Applications,
    words: &mut W,
    keeper: &mut K,
    who: &Who,
    add: &AddRequest,
    plan: &AddPlan,
) -> Result<AddedFiles, WantOfMemory>
    requires call { IsOfCall who.now add.now plan.now }
    requires within { exceeds_planned documents.old applications.old who.now plan.now ≡ false }
    ensures ok { IfOk result (PlacedKept who.now add.now plan.now
        (book_of documents.old grants.old applications.old)
        (book_of documents.new grants.new applications.new) (W.told words.old)
        (W.told words.new) (K.is keeper.old) (K.is keeper.new)) }
    ensures documents { OnErr result (documents.new ≡ documents.old) }
    ensures grants { OnErr result (grants.new ≡ grants.old) }
    ensures applications { OnErr result (applications.new ≡ applications.old) }
    ensures words { OnErr result
        (HasDrawnUpTo (words_for plan.now.items) (W.told words.old) (W.told words.new)) }
    ensures keeper { OnErr result (KeeperStays (K.is keeper.old) (K.is keeper.new)) }
{
    let asks = plan_changes(documents, grants, who, add, plan);
    let kept = documents.live().len();
    let placed = match place_all(
        alloc,
        who,
        add,
        plan,
        documents,
        grants,
        applications,
        words,
    ) {
        Ok(placed) => placed,
        Err(error) => return Err(error),
    };
    let used = placed.drawn.documents.as_slice();
    match keep_placed(alloc, documents.live(), grants, keeper, kept, used, asks) {
        Ok(done) => {
            if done.failed {
                take_all_back(who, plan, &placed, documents, grants, applications);
            }
            Ok(added(placed, done))
        }
        Err(error) => {
            take_all_back(who, plan, &placed, documents, grants, applications);
            Err(error)
        }
    }
}

/// The identifiers of files, and whether the keeper failed.
#[derive(Drop)]
struct KeptFiles {
    /// The identifiers.
    ids: List<Text>,
    /// Whether the keeper failed.
    failed: bool,
}

/// Files that were placed and kept.
fn added(placed: PlacedFiles, kept: KeptFiles) -> AddedFiles
    ensures { result ≡ record { drawn = placed.drawn; ids = kept.ids; failed = kept.failed } }
{
    let PlacedFiles { drawn, .. } = placed;
    let KeptFiles { ids, failed } = kept;
    AddedFiles { drawn, ids, failed }
}

/// Asks the keeper for the changes of the records after files were placed,
/// where there are any, once the memory for the answer was taken.
fn keep_placed<K: Keeper>(
    alloc: Global,
    documents: &[Document],
    grants: &Grants,
    keeper: &mut K,
    kept: usize,
    used: &[Option<DocId>],
    asks: bool,
) -> Result<KeptFiles, WantOfMemory>
    requires { kept ≤ length documents.now }
    ensures ids { IfOk result (λ done. done.ids ≡ map id_told used.now) }
    ensures called { IfOk result (λ done. AppliedWhere asks
        (changes_of kept documents.now grants.now used.now)
        (K.is keeper.old) done.failed (K.is keeper.new)) }
    ensures err { OnErr result (KeeperStays (K.is keeper.old) (K.is keeper.new)) }
{
    // Memory for the answer is taken ahead of the keeper, whose call can't be undone.
    let ids = match identifiers(alloc, used) {
        Ok(ids) => ids,
        Err(error) => return Err(error),
    };
    match keep_changes(alloc, documents, grants, keeper, kept, used, asks) {
        Ok(failed) => Ok(KeptFiles { ids, failed }),
        Err(error) => Err(error),
    }
}

/// Asks the keeper for the changes, where there are any, and says whether it
/// failed.
fn keep_changes<K: Keeper>(
    alloc: Global,
    documents: &[Document],
    grants: &Grants,
    keeper: &mut K,
    kept: usize,
    used: &[Option<DocId>],
    asks: bool,
) -> Result<bool, WantOfMemory>
    requires { kept ≤ length documents.now }
    ensures called { IfOk result (λ failed. AppliedWhere asks
        (changes_of kept documents.now grants.now used.now)
        (K.is keeper.old) failed (K.is keeper.new)) }
    ensures err { OnErr result (KeeperStays (K.is keeper.old) (K.is keeper.new)) }
{
    // The keeper is asked only where the records change: so no fault of it can meet any other
    // addition.
    if !asks {
        return Ok(false);
    }
    match changes_of(alloc, kept, documents, grants, used) {
        Ok(changes) => keep(keeper, &changes),
        Err(error) => Err(error),
    }
}

/// The identifiers of the documents of files; an empty one of a file that has
/// none.
fn identifiers(alloc: Global, used: &[Option<DocId>]) -> Result<List<Text>, WantOfMemory>
    ensures { IfOk result (λ ids. ids ≡ map id_told used.now) }
{
    let mut ids = List::new(alloc);
    for id in used {
        push_identifier(alloc, &mut ids, *id)?;
    }
    Ok(ids)
}

/// Puts the identifier of a file behind others.
fn push_identifier(
    alloc: Global,
    ids: &mut List<Text>,
    used: Option<DocId>,
) -> Result<(), WantOfMemory>
    ensures { OnOk result (ids.new ≡ ids.old ++ id_told used ∷ []) }
{
    match used {
        None => ids.push(Text::new(alloc)),
        Some(id) => ids.push(id_text(alloc, id)?),
    }
}
