//! The requests on documents that neither ask the tree nor draw a word: all but
//! Add.

ghost use Rattle.std.specs.Prelude.{◌≡◌, ◌<◌, ◌^◌, length, false, true, Option, Some, IfOk, OnErr, map, option_map};
ghost use Rattle.document_calls.specs.Changes.{SameLimits};
ghost use Rattle.document_calls.specs.KeeperCalls.{KeeperStays};
ghost use Rattle.document_calls.specs.Serves.{Serves};
ghost use Rattle.portal_model.specs.declared.request.Request.TheVariants as Request;
ghost use Rattle.portal_model.specs.declared.state.Connection.{Connection};
ghost use Rattle.portal_model.specs.State.{State, connection_of as open_connection};
ghost use Rattle.portal_model.specs.Step.{bus_of as open_bus};
ghost use Rattle.portal_model.specs.Valid.{Valid};
ghost use Rattle.portal_steps.specs.Devices.{may_change_records};
ghost use Rattle.store_serving.specs.Waiting.{silent};
ghost use Rattle.portal_steps.specs.Documents.{HasLists, ServedOn, is_document_call, with_lists, with_queues};

use crate::lists::{bus_of, place_of};
use document_calls::{
    ServedCall, answered, delete_document, grant, info, list_documents, lookup_document, present,
    revoke,
};
use document_records::{Applications, Documents, Grants};
use portal_base::list::List;
use portal_base::memory::WantOfMemory;
use portal_model::reply::{Answer, Code};
use portal_model::request::Request;
use portal_model::state::Connection;
use record_keeper::Keeper;
use std::alloc::Global;
use std::mem;

/// Serves a request of a seat on documents, which is no Add. `queued` is the
/// limit of the presented files that wait on a connection.
///
/// A seat without an open bus is answered `NotHere`. Want of memory leaves the
/// lists as they were.
pub fn serve<K: Keeper>(
    alloc: Global,
    documents: &mut Documents,
    rights: &mut Grants,
    applications: &mut Applications,
    connections: &mut List<Connection>,
    keeper: &mut K,
    queued: u64,
    seat: u32,
    request: &Request,
) -> Result<ServedCall, WantOfMemory>
    requires queued { queued < 2 ^ 32 }
    requires call { is_document_call request.now ≡ true }
    ensures ok { IfOk result (λ served. (s : State) (o : Option Connection) → Valid s →
        HasLists s documents.old rights.old applications.old connections.old →
        s.limits.queued ≡ queued →
        option_map silent o ≡ open_bus (open_connection connections.old seat) →
        ServedOn s request.now served.given
        (with_lists s documents.new rights.new applications.new connections.new) served.answer
        (K.is keeper.old) (K.is keeper.new) o) }
    ensures queues { with_queues connections.old connections.new ≡ connections.new }
    ensures limits { SameLimits documents.old documents.new }
    ensures count { length connections.new ≡ length connections.old }
    ensures unasked { may_change_records request.now ≡ false → keeper.new ≡ keeper.old }
    ensures documents { OnErr result (documents.new ≡ documents.old) }
    ensures rights { OnErr result (rights.new ≡ rights.old) }
    ensures applications { OnErr result (applications.new ≡ applications.old) }
    ensures connections { OnErr result (connections.new ≡ connections.old) }
    ensures keeper { OnErr result (KeeperStays (K.is keeper.old) (K.is keeper.new)) }
{
    let Some(connection) = bus_of(connections.as_slice(), seat) else {
        return Ok(answered(alloc, Answer::Refused(Code::NotHere)));
    };
    let who = &connection.who;
    match request {
        Request::Present { path } => {
            present_on(alloc, connections, queued, seat, path.as_slice())
        }
        Request::Grant(call) => grant(alloc, documents, rights, applications, keeper, who, call),
        Request::Revoke(call) => revoke(alloc, documents, rights, keeper, who, call),
        Request::DeleteDocument { doc } => {
            delete_document(alloc, documents, rights, keeper, who, doc.as_slice())
        }
        Request::LookupDocument { path } => {
            lookup_document(alloc, documents, who, path.as_slice())
        }
        Request::Info { doc } => info(alloc, documents, rights, who, doc.as_slice()),
        Request::ListDocuments { app } => {
            list_documents(alloc, documents, rights, who, app.as_slice())
        }
        _ => unreachable!(),
    }
}

/// Puts a path at the end of the queue of a seat's connection.
fn present_on(
    alloc: Global,
    connections: &mut List<Connection>,
    queued: u64,
    seat: u32,
    path: &[u8],
) -> Result<ServedCall, WantOfMemory>
    requires { queued < 2 ^ 32 }
    ensures ok { IfOk result (λ served. (s : State) (c : Connection) → Valid s →
        map silent s.connections ≡ connections.old → s.limits.queued ≡ queued →
        open_bus (open_connection connections.old seat) ≡ Some (silent c) →
        Serves s c (Request.Present path.now) served.given
        (record s { connections = with_queues s.connections connections.new }) served.answer) }
    ensures queues { with_queues connections.old connections.new ≡ connections.new }
    ensures count { length connections.new ≡ length connections.old }
    ensures err { OnErr result (connections.new ≡ connections.old) }
{
    let Some(at) = place_of(connections.as_slice(), seat) else {
        return Ok(answered(alloc, Answer::Refused(Code::NotHere)));
    };
    let mut all = mem::replace(connections, List::new(alloc)).into_vec();
    let connection = &mut all[at];
    let served = present(alloc, &mut connection.queue, queued, &connection.who, path);
    *connections = List::from_vec(all);
    served
}
