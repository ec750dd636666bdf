//! The calls of the permission store.

ghost use Rattle.std.specs.Prelude.{◌≡◌, false, IfOk, OnErr, Option, option_map};
ghost use Rattle.change_signals.specs.Unsent.{IsSame};
ghost use Rattle.document_calls.specs.KeeperCalls.{KeeperStays};
ghost use Rattle.portal_model.specs.State.{State, connection_of as open_connection};
ghost use Rattle.portal_model.specs.Step.{bus_of as open_bus};
ghost use Rattle.portal_model.specs.declared.state.Connection.{Connection};
ghost use Rattle.portal_steps.specs.Stored.{StoredOn};
ghost use Rattle.store_serving.specs.Serving.{HasStore, may_change_entries};
ghost use Rattle.store_serving.specs.Waiting.{silent};

use crate::lists::bus_of;
use change_signals::Outboxes;
use document_calls::{ServedCall, answered};
use permission_table::Tables;
use portal_base::memory::WantOfMemory;
use portal_model::reply::{Answer, Code};
use portal_model::state::Connection;
use portal_model::store::StoreCall;
use record_keeper::Keeper;
use std::alloc::Global;

/// Serves a call of a seat of the permission store.
///
/// A seat without an open bus is answered `NotHere`. Want of memory leaves the
/// tables and the boxes as they were.
pub fn serve<K: Keeper>(
    alloc: Global,
    tables: &mut Tables,
    outboxes: &mut Outboxes,
    keeper: &mut K,
    connections: &[Connection],
    seat: u32,
    call: &StoreCall,
) -> Result<ServedCall, WantOfMemory>
    ensures ok { IfOk result (λ served. (s : State) (o : Option Connection) →
        HasStore s tables.old outboxes.old →
        option_map silent o ≡ open_bus (open_connection connections.now seat) →
        StoredOn s call.now tables.old outboxes.old (K.is keeper.old) tables.new outboxes.new
        (K.is keeper.new) served o) }
    ensures unasked { may_change_entries call.now ≡ false → keeper.new ≡ keeper.old }
    ensures tables { OnErr result (tables.new ≡ tables.old) }
    ensures outboxes { OnErr result (IsSame outboxes.old outboxes.new) }
    ensures keeper { OnErr result (KeeperStays (K.is keeper.old) (K.is keeper.new)) }
{
    match bus_of(connections, seat) {
        None => Ok(answered(alloc, Answer::Refused(Code::NotHere))),
        Some(bus) => store_serving::serve(alloc, tables, outboxes, keeper, &bus.who, call),
    }
}
