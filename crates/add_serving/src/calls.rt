//! The call.

ghost use Rattle.std.specs.Prelude.{◌≡◌, length, map, IfOk, OnErr, false, true};
ghost use Rattle.std.specs.List.{flat_map};
ghost use Rattle.portal_model.specs.Bus.{is_tree};
ghost use Rattle.portal_model.specs.declared.request.Request.TheVariants as Request;
ghost use Rattle.portal_model.specs.declared.state.Connection.{Connection};
ghost use Rattle.portal_model.specs.Outside.{files_told};
ghost use Rattle.portal_model.specs.AddArguments.{paths_looked_at};
ghost use Rattle.portal_model.specs.State.{State};
ghost use Rattle.portal_model.specs.Valid.{Valid};
ghost use Rattle.add_calls.specs.Limits.{exceeds_planned};
ghost use Rattle.add_calls.specs.Placing.{Drew, HasDrawnUpTo, book_of};
ghost use Rattle.add_calls.specs.Shown.{Asked, Shows};
ghost use Rattle.add_files.specs.Arguments.{are_few};
ghost use Rattle.add_files.specs.Items.{are_below, paths_of, presented_of};
ghost use Rattle.add_files.specs.Plans.{IsOfCall};
ghost use Rattle.add_serving.specs.Adds.{Adds, DrewNoMore, IsPlanOf, WasAsked, documents_made, most_looks, most_words};
ghost use Rattle.document_calls.specs.Books.{IsBook, IsQueue, queue_set, with_book};
ghost use Rattle.document_calls.specs.Changes.{SameLimits};
ghost use Rattle.document_calls.specs.KeeperCalls.{KeeperStays, ServesKept};

use crate::outcomes::{full, placed, refused, refused_plan, unseen};
use crate::placing::place_kept;
use crate::queue::{are_presented, leave, taken};
use add_calls::{Shown, are_of_kind, exceeds, look_all, paths_shown};
use add_files::{AddPlan, plan_add};
use document_calls::ServedCall;
use document_records::{Applications, Documents, Grants};
use host_tree::HostTree;
use portal_base::list::List;
use portal_base::memory::WantOfMemory;
use portal_base::names::HostPath;
use portal_base::outside::Words;
use portal_base::who::Who;
use portal_model::reply::Code;
use portal_model::request::AddRequest;
use record_keeper::Keeper;
use std::alloc::Global;

/// Makes documents of presented files, or uses those again that there are, and
/// answers their identifiers.
///
/// `InvalidArgs`: the call takes more files than were presented, or names one
/// that it doesn't take; the queue is then as before. `InvalidArgument` and
/// `NotAllowed` as [`plan_add`] says, and `InvalidArgument` where the tree
/// doesn't show what the call needs; `LimitsExceeded`: a limit of documents or
/// of applications is met, before a word is drawn. `Failed`: the tree or the
/// keeper failed. The lists are then as before, but for the queue, which the
/// files leave unless a device failed.
///
/// Want of memory leaves the lists and the queue as they were. Before it the tree
/// showed each file of the call at most, or each folder and the file in it, and one
/// word was drawn for each file at most: no more than the documents that the call makes.
pub fn add<T: HostTree, W: Words, K: Keeper>(
    alloc: Global,
    documents: &mut Documents,
    grants: &mut Grants,
    applications: &mut Applications,
    tree: &mut T,
    words: &mut W,
    keeper: &mut K,
    queue: &mut List<HostPath>,
    who: &Who,
    add: &AddRequest,
) -> Result<ServedCall, WantOfMemory>
    ensures ok { IfOk result (λ served. (s : State) (c : Connection) →
        IsBook s documents.old grants.old applications.old →
        IsQueue s c queue.old s.limits.queued → files_told s ≡ (T.is tree.old).told →
        Valid s → c.who ≡ who.now →
        ServesKept s c (Request.Add add.now) served.given
        (queue_set (with_book s documents.new grants.new applications.new) c queue.new)
        served.answer (K.is keeper.old) (K.is keeper.new)) }
    ensures asked { IfOk result (λ served. Asked (T.is tree.old) (length served.given.looks)
        (is_tree served.given.fault) (T.is tree.new)) }
    ensures drew { IfOk result (λ served.
        Drew (W.told words.old) served.given.words (W.told words.new)) }
    ensures limits { SameLimits documents.old documents.new }
    ensures documents { OnErr result (documents.new ≡ documents.old) }
    ensures grants { OnErr result (grants.new ≡ grants.old) }
    ensures applications { OnErr result (applications.new ≡ applications.old) }
    ensures queue { OnErr result (queue.new ≡ queue.old) }
    ensures tree { OnErr result
        (WasAsked (most_looks add.now) (T.is tree.old) (T.is tree.new)) }
    ensures words { OnErr result
        (HasDrawnUpTo (most_words add.now) (W.told words.old) (W.told words.new)) }
    ensures made { OnErr result ((s : State) (c : Connection) →
        IsBook s documents.old grants.old applications.old →
        IsQueue s c queue.old s.limits.queued → files_told s ≡ (T.is tree.old).told →
        Valid s → c.who ≡ who.now →
        HasDrawnUpTo (documents_made s c add.now) (W.told words.old) (W.told words.new)) }
    ensures keeper { OnErr result (KeeperStays (K.is keeper.old) (K.is keeper.new)) }
{
    if !are_presented(queue.as_slice(), add) {
        return Ok(refused(alloc, Code::InvalidArgs, List::new(alloc)));
    }
    match add_presented(
        alloc,
        documents,
        grants,
        applications,
        tree,
        words,
        keeper,
        who,
        add,
        taken(queue.as_slice(), add.fds),
    ) {
        Ok(served) => {
            leave(queue, add.fds, served.given.fault);
            Ok(served)
        }
        Err(error) => Err(error),
    }
}

/// Adds the files that a call takes, each of which it names rightly.
fn add_presented<T: HostTree, W: Words, K: Keeper>(
    alloc: Global,
    documents: &mut Documents,
    grants: &mut Grants,
    applications: &mut Applications,
    tree: &mut T,
    words: &mut W,
    keeper: &mut K,
    who: &Who,
    add: &AddRequest,
    paths: &[HostPath],
) -> Result<ServedCall, WantOfMemory>
    requires { are_below (length paths.now) add.now.handles ≡ true }
    ensures ok { IfOk result (Adds add.now who.now paths.now
        (book_of documents.old grants.old applications.old)
        (book_of documents.new grants.new applications.new) (T.is tree.old).told
        (K.is keeper.old) (K.is keeper.new)) }
    ensures asked { IfOk result (λ served. Asked (T.is tree.old) (length served.given.looks)
        (is_tree served.given.fault) (T.is tree.new)) }
    ensures drew { IfOk result (λ served.
        Drew (W.told words.old) served.given.words (W.told words.new)) }
    ensures limits { SameLimits documents.old documents.new }
    ensures documents { OnErr result (documents.new ≡ documents.old) }
    ensures grants { OnErr result (grants.new ≡ grants.old) }
    ensures applications { OnErr result (applications.new ≡ applications.old) }
    ensures tree { OnErr result
        (WasAsked (most_looks add.now) (T.is tree.old) (T.is tree.new)) }
    ensures words { OnErr result
        (HasDrawnUpTo (most_words add.now) (W.told words.old) (W.told words.new)) }
    ensures made { OnErr result (DrewNoMore add.now who.now paths.now
        (book_of documents.old grants.old applications.old) (T.is tree.old).told
        (W.told words.old) (W.told words.new)) }
    ensures keeper { OnErr result (KeeperStays (K.is keeper.old) (K.is keeper.new)) }
{
    match plan_add(alloc, documents, grants, who, add, paths) {
        Err(error) => refused_plan(alloc, error),
        Ok(plan) => add_planned(
            alloc,
            documents,
            grants,
            applications,
            tree,
            words,
            keeper,
            who,
            add,
            paths,
            &plan,
        ),
    }
}

/// Adds files as planned, where the tree shows what the call needs.
fn add_planned<T: HostTree, W: Words, K: Keeper>(
    alloc: Global,
    documents: &mut Documents,
    grants: &mut Grants,
    applications: &mut Applications,
    tree: &mut T,
    words: &mut W,
    keeper: &mut K,
    who: &Who,
    add: &AddRequest,
    paths: &[HostPath],
    plan: &AddPlan,
) -> Result<ServedCall, WantOfMemory>
    requires few { are_few add.now ≡ true }
    requires below { are_below (length paths.now) add.now.handles ≡ true }
    requires planned { map (λ item. item.path) plan.now.items
        ≡ paths_of add.now paths.now add.now.handles }
    requires call { IsOfCall who.now add.now plan.now }
    requires plan { IsPlanOf who.now add.now paths.now documents.old.live grants.old plan.now }
    ensures ok { IfOk result (Adds add.now who.now paths.now
        (book_of documents.old grants.old applications.old)
        (book_of documents.new grants.new applications.new) (T.is tree.old).told
        (K.is keeper.old) (K.is keeper.new)) }
    ensures asked { IfOk result (λ served. Asked (T.is tree.old) (length served.given.looks)
        (is_tree served.given.fault) (T.is tree.new)) }
    ensures drew { IfOk result (λ served.
        Drew (W.told words.old) served.given.words (W.told words.new)) }
    ensures limits { SameLimits documents.old documents.new }
    ensures documents { OnErr result (documents.new ≡ documents.old) }
    ensures grants { OnErr result (grants.new ≡ grants.old) }
    ensures applications { OnErr result (applications.new ≡ applications.old) }
    ensures tree { OnErr result
        (WasAsked (most_looks add.now) (T.is tree.old) (T.is tree.new)) }
    ensures words { OnErr result
        (HasDrawnUpTo (most_words add.now) (W.told words.old) (W.told words.new)) }
    ensures made { OnErr result (DrewNoMore add.now who.now paths.now
        (book_of documents.old grants.old applications.old) (T.is tree.old).told
        (W.told words.old) (W.told words.new)) }
    ensures keeper { OnErr result (KeeperStays (K.is keeper.old) (K.is keeper.new)) }
{
    let shown = match look(alloc, tree, add, paths, plan) {
        Ok(shown) => shown,
        Err(error) => return Err(error),
    };
    if shown.failed {
        return Ok(unseen(alloc, shown.looks));
    }
    // All looks are made first, also at files that are left out, and then the kinds of all files
    // are looked at.
    if !are_of_kind(add, plan.items.as_slice(), shown.looks.as_slice()) {
        return Ok(refused(alloc, Code::InvalidArgument, shown.looks));
    }
    if exceeds(documents, applications, who, plan) {
        return Ok(full(alloc, shown.looks));
    }
    match place_kept(
        alloc,
        documents,
        grants,
        applications,
        words,
        keeper,
        who,
        add,
        plan,
    ) {
        Ok(added) => Ok(placed(added, shown.looks)),
        Err(error) => Err(error),
    }
}

/// Asks the tree what the call looks at.
fn look<T: HostTree>(
    alloc: Global,
    tree: &mut T,
    add: &AddRequest,
    paths: &[HostPath],
    plan: &AddPlan,
) -> Result<Shown, WantOfMemory>
    requires below { are_below (length paths.now) add.now.handles ≡ true }
    requires planned { map (λ item. item.path) plan.now.items
        ≡ paths_of add.now paths.now add.now.handles }
    ensures shows { IfOk result (λ shown. Shows (T.is tree.old).told
        (flat_map (paths_looked_at add.now) (presented_of paths.now add.now.handles))
        shown.looks shown.failed) }
    ensures asked { IfOk result (λ shown.
        Asked (T.is tree.old) (length shown.looks) shown.failed (T.is tree.new)) }
    ensures err { OnErr result (T.is tree.new ≡ T.is tree.old) }
{
    match paths_shown(alloc, add, paths, plan.items.as_slice()) {
        Ok(paths) => look_all(alloc, tree, paths.as_slice()),
        Err(error) => Err(error),
    }
}
