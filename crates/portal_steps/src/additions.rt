//! Add, over the portal's lists and its devices: presented files of a seat's
//! connection become documents.

ghost use Rattle.std.specs.Prelude.{◌≡◌, length, IfOk, OnErr, Option, Some, option_map};
ghost use Rattle.add_calls.specs.Placing.{Drew, HasDrawnUpTo};
ghost use Rattle.add_calls.specs.Shown.{Asked};
ghost use Rattle.add_serving.specs.Adds.{WasAsked, documents_made, most_looks, most_words};
ghost use Rattle.document_calls.specs.Changes.{SameLimits};
ghost use Rattle.document_calls.specs.KeeperCalls.{KeeperStays, ServesKept};
ghost use Rattle.portal_model.specs.Bus.{is_tree};
ghost use Rattle.portal_model.specs.declared.request.Request.TheVariants as Request;
ghost use Rattle.portal_model.specs.declared.state.Connection.{Connection};
ghost use Rattle.portal_model.specs.Outside.{files_told};
ghost use Rattle.portal_model.specs.State.{State, connection_of as open_connection};
ghost use Rattle.portal_model.specs.Step.{bus_of as open_bus};
ghost use Rattle.portal_model.specs.Valid.{Valid};
ghost use Rattle.portal_steps.specs.Documents.{DrewOn, HasLists, ServedOn, with_lists, with_queues};
ghost use Rattle.store_serving.specs.Waiting.{silent};

use crate::lists::{bus_of, place_of};
use add_serving::add;
use document_calls::{ServedCall, answered};
use document_records::{Applications, Documents, Grants};
use host_tree::HostTree;
use portal_base::list::List;
use portal_base::memory::WantOfMemory;
use portal_base::outside::Words;
use portal_model::reply::{Answer, Code};
use portal_model::request::AddRequest;
use portal_model::state::Connection;
use record_keeper::Keeper;
use std::alloc::Global;
use std::mem;

/// Serves an Add of a seat.
///
/// A seat without an open bus is answered `NotHere`. Want of memory leaves the
/// lists as they were; before it the tree was asked no more often than the files of the
/// call allow, and no more words were drawn than documents are made by it.
pub fn serve_add<T: HostTree, K: Keeper, W: Words>(
    alloc: Global,
    documents: &mut Documents,
    rights: &mut Grants,
    applications: &mut Applications,
    connections: &mut List<Connection>,
    tree: &mut T,
    keeper: &mut K,
    words: &mut W,
    seat: u32,
    request: &AddRequest,
) -> Result<ServedCall, WantOfMemory>
    ensures ok { IfOk result (λ served. (s : State) (o : Option Connection) → Valid s →
        HasLists s documents.old rights.old applications.old connections.old →
        files_told s ≡ (T.is tree.old).told →
        option_map silent o ≡ open_bus (open_connection connections.old seat) →
        ServedOn s (Request.Add request.now) served.given
        (with_lists s documents.new rights.new applications.new connections.new) served.answer
        (K.is keeper.old) (K.is keeper.new) o) }
    ensures queues { with_queues connections.old connections.new ≡ connections.new }
    ensures asked { IfOk result (λ served. Asked (T.is tree.old) (length served.given.looks)
        (is_tree served.given.fault) (T.is tree.new)) }
    ensures drew { IfOk result (λ served.
        Drew (W.told words.old) served.given.words (W.told words.new)) }
    ensures limits { SameLimits documents.old documents.new }
    ensures count { length connections.new ≡ length connections.old }
    ensures documents { OnErr result (documents.new ≡ documents.old) }
    ensures rights { OnErr result (rights.new ≡ rights.old) }
    ensures applications { OnErr result (applications.new ≡ applications.old) }
    ensures connections { OnErr result (connections.new ≡ connections.old) }
    ensures tree { OnErr result
        (WasAsked (most_looks request.now) (T.is tree.old) (T.is tree.new)) }
    ensures keeper { OnErr result (KeeperStays (K.is keeper.old) (K.is keeper.new)) }
    ensures words { OnErr result
        (HasDrawnUpTo (most_words request.now) (W.told words.old) (W.told words.new)) }
    ensures made { OnErr result ((s : State) (o : Option Connection) → Valid s →
        HasLists s documents.old rights.old applications.old connections.old →
        files_told s ≡ (T.is tree.old).told →
        option_map silent o ≡ open_bus (open_connection connections.old seat) →
        DrewOn s request.now (W.told words.old) (W.told words.new) o) }
{
    if bus_of(connections.as_slice(), seat).is_none() {
        return Ok(answered(alloc, Answer::Refused(Code::NotHere)));
    }
    add_on(
        alloc,
        documents,
        rights,
        applications,
        connections,
        tree,
        keeper,
        words,
        seat,
        request,
    )
}

/// Adds files that were presented on a seat's connection.
fn add_on<T: HostTree, K: Keeper, W: Words>(
    alloc: Global,
    documents: &mut Documents,
    rights: &mut Grants,
    applications: &mut Applications,
    connections: &mut List<Connection>,
    tree: &mut T,
    keeper: &mut K,
    words: &mut W,
    seat: u32,
    request: &AddRequest,
) -> Result<ServedCall, WantOfMemory>
    ensures ok { IfOk result (λ served. (s : State) (c : Connection) → Valid s →
        HasLists s documents.old rights.old applications.old connections.old →
        files_told s ≡ (T.is tree.old).told →
        open_bus (open_connection connections.old seat) ≡ Some (silent c) →
        ServesKept s c (Request.Add request.now) served.given
        (with_lists s documents.new rights.new applications.new connections.new) served.answer
        (K.is keeper.old) (K.is keeper.new)) }
    ensures queues { with_queues connections.old connections.new ≡ connections.new }
    ensures asked { IfOk result (λ served. Asked (T.is tree.old) (length served.given.looks)
        (is_tree served.given.fault) (T.is tree.new)) }
    ensures drew { IfOk result (λ served.
        Drew (W.told words.old) served.given.words (W.told words.new)) }
    ensures limits { SameLimits documents.old documents.new }
    ensures count { length connections.new ≡ length connections.old }
    ensures documents { OnErr result (documents.new ≡ documents.old) }
    ensures rights { OnErr result (rights.new ≡ rights.old) }
    ensures applications { OnErr result (applications.new ≡ applications.old) }
    ensures connections { OnErr result (connections.new ≡ connections.old) }
    ensures tree { OnErr result
        (WasAsked (most_looks request.now) (T.is tree.old) (T.is tree.new)) }
    ensures keeper { OnErr result (KeeperStays (K.is keeper.old) (K.is keeper.new)) }
    ensures words { OnErr result
        (HasDrawnUpTo (most_words request.now) (W.told words.old) (W.told words.new)) }
    ensures made { OnErr result ((s : State) (c : Connection) → Valid s →
        HasLists s documents.old rights.old applications.old connections.old →
        files_told s ≡ (T.is tree.old).told →
        open_bus (open_connection connections.old seat) ≡ Some (silent c) →
        HasDrawnUpTo (documents_made s c request.now) (W.told words.old) (W.told words.new)) }
{
    let Some(at) = place_of(connections.as_slice(), seat) else {
        return Ok(answered(alloc, Answer::Refused(Code::NotHere)));
    };
    let mut all = mem::replace(connections, List::new(alloc)).into_vec();
    let connection = &mut all[at];
    let served = add(
        alloc,
        documents,
        rights,
        applications,
        tree,
        words,
        keeper,
        &mut connection.queue,
        &connection.who,
        request,
    );
    *connections = List::from_vec(all);
    served
}
