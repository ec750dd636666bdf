//! The calls.

ghost use Rattle.std.specs.Prelude.{◌≡◌, false, true, IfOk, OnErr, Some, is_some};
ghost use Rattle.change_signals.specs.Unsent.{IsSame};
ghost use Rattle.document_calls.specs.KeeperCalls.{KeeperStays};
ghost use Rattle.permission_table.specs.Tables.{Gives};
ghost use Rattle.portal_model.specs.State.{State};
ghost use Rattle.portal_model.specs.Store.{entry_of, store_call, without_entry};
ghost use Rattle.portal_model.specs.StoreRequest.{are_data, are_store_arguments, data_of, identifier_of, table_of};
ghost use Rattle.portal_model.specs.declared.records.RecordChange.TheVariants.{RemoveEntry};
ghost use Rattle.portal_model.specs.declared.state.Connection.{Connection};
ghost use Rattle.portal_model.specs.declared.store.StoreCall.TheVariants as StoreCall;
ghost use Rattle.store_serving.specs.Serving.{HasStore, ServesStore, StoreServed, changes_an_entry, may_change_entries};

use crate::arguments::refusal;
use crate::settling::{change_of, keep_told, read, settle};
use change_signals::Outboxes;
use document_calls::{ServedCall, answered, done};
use permission_table::{StoreAnswer, StoreError, Tables};
use portal_base::memory::{Replica, WantOfMemory};
use portal_base::text::Text;
use portal_base::who::Who;
use portal_model::datum::Datum;
use portal_model::records::RecordChange;
use portal_model::reply::{Answer, Code};
use portal_model::store::StoreCall;
use record_keeper::Keeper;
use std::alloc::Global;

/// Serves a call of the permission store.
///
/// `AccessDenied`: the caller isn't the host. `InvalidArgument`: a text has a zero
/// byte, or what is to become data may not be data. `NotAllowed`: the table is the
/// portal's own. `NotFound` and `LimitsExceeded`: the tables refuse it. `Failed`:
/// the keeper failed. Nothing is then changed, and nothing told.
pub fn serve<K: Keeper>(
    alloc: Global,
    tables: &mut Tables,
    outboxes: &mut Outboxes,
    keeper: &mut K,
    who: &Who,
    call: &StoreCall,
) -> Result<ServedCall, WantOfMemory>
    ensures ok { IfOk result (λ served. (s : State) (c : Connection) → c.who ≡ who.now →
        HasStore s tables.old outboxes.old →
        ServesStore s c call.now (K.is keeper.old) tables.new outboxes.new (K.is keeper.new)
        served) }
    ensures unasked { may_change_entries call.now ≡ false → keeper.new ≡ keeper.old }
    ensures tables { OnErr result (tables.new ≡ tables.old) }
    ensures outboxes { OnErr result (IsSame outboxes.old outboxes.new) }
    ensures keeper { OnErr result (KeeperStays (K.is keeper.old) (K.is keeper.new)) }
{
    match refusal(who, call) {
        Some(code) => Ok(answered(alloc, Answer::Refused(code))),
        None => serve_passed(alloc, tables, outboxes, keeper, call),
    }
}

/// Serves a call that isn't refused ahead of the tables.
fn serve_passed<K: Keeper>(
    alloc: Global,
    tables: &mut Tables,
    outboxes: &mut Outboxes,
    keeper: &mut K,
    call: &StoreCall,
) -> Result<ServedCall, WantOfMemory>
    requires { are_store_arguments call.now ≡ true }
    ensures ok { IfOk result (StoreServed call.now tables.old outboxes.old (K.is keeper.old)
        tables.new outboxes.new (K.is keeper.new)) }
    ensures unasked { may_change_entries call.now ≡ false → keeper.new ≡ keeper.old }
    ensures tables { OnErr result (tables.new ≡ tables.old) }
    ensures outboxes { OnErr result (IsSame outboxes.old outboxes.new) }
    ensures keeper { OnErr result (KeeperStays (K.is keeper.old) (K.is keeper.new)) }
{
    match call {
        StoreCall::Lookup { table, id } => read(alloc, tables.lookup(table, id)),
        StoreCall::GetPermission { table, id, app } => {
            read(alloc, tables.get_permission(table, id, app))
        }
        StoreCall::List { table } => read(alloc, tables.list(table)),
        StoreCall::Delete { table, id } => delete(alloc, tables, outboxes, keeper, table, id),
        StoreCall::Set { table, id, .. } => {
            change(alloc, tables, outboxes, keeper, table, id, call)
        }
        StoreCall::SetValue { table, id, .. } => {
            change(alloc, tables, outboxes, keeper, table, id, call)
        }
        StoreCall::SetPermission { table, id, .. } => {
            change(alloc, tables, outboxes, keeper, table, id, call)
        }
        StoreCall::DeletePermission { table, id, .. } => {
            change(alloc, tables, outboxes, keeper, table, id, call)
        }
    }
}

/// Serves a call that sets an entry, or takes a row out of one.
fn change<K: Keeper>(
    alloc: Global,
    tables: &mut Tables,
    outboxes: &mut Outboxes,
    keeper: &mut K,
    table: &Text,
    id: &Text,
    call: &StoreCall,
) -> Result<ServedCall, WantOfMemory>
    requires arguments { are_store_arguments call.now ≡ true }
    requires kind { changes_an_entry call.now ≡ true }
    requires table { table_of call.now ≡ table.now }
    requires id { identifier_of call.now ≡ id.now }
    ensures ok { IfOk result (StoreServed call.now tables.old outboxes.old (K.is keeper.old)
        tables.new outboxes.new (K.is keeper.new)) }
    ensures tables { OnErr result (tables.new ≡ tables.old) }
    ensures outboxes { OnErr result (IsSame outboxes.old outboxes.new) }
    ensures keeper { OnErr result (KeeperStays (K.is keeper.old) (K.is keeper.new)) }
{
    let former = tables.former(table, id)?;
    let answer = ask(alloc, tables, call);
    settle(alloc, tables, outboxes, keeper, table, id, former, answer)
}

/// What the tables make of a call that sets an entry, or takes a row out of one.
fn ask(alloc: Global, tables: &mut Tables, call: &StoreCall) -> Result<StoreAnswer, StoreError>
    requires arguments { are_store_arguments call.now ≡ true }
    requires kind { changes_an_entry call.now ≡ true }
    ensures { Gives (store_call call.now tables.old) tables.old tables.new result }
{
    match call {
        StoreCall::Set {
            table,
            create,
            id,
            rows,
            ..
        } => {
            let datum = datum_of(alloc, call)?;
            tables.set(table, *create, id, rows, &datum)
        }
        StoreCall::SetValue {
            table,
            create,
            id,
            ..
        } => {
            let datum = datum_of(alloc, call)?;
            tables.set_value(table, *create, id, &datum)
        }
        StoreCall::SetPermission {
            table,
            create,
            id,
            app,
            names,
        } => tables.set_permission(table, *create, id, app, names),
        StoreCall::DeletePermission { table, id, app } => tables.delete_permission(table, id, app),
        _ => unreachable!(),
    }
}

/// A copy of the data of a call that brings some.
fn datum_of(alloc: Global, call: &StoreCall) -> Result<Datum, WantOfMemory>
    requires some { is_some (data_of call.now) ≡ true }
    requires data { are_data (data_of call.now) ≡ true }
    ensures { IfOk result (λ copy. data_of call.now ≡ Some copy) }
{
    Ok(datum_brought(call.replica(alloc)?))
}

/// The data of a call that brings some.
fn datum_brought(call: StoreCall) -> Datum
    requires some { is_some (data_of call) ≡ true }
    requires data { are_data (data_of call) ≡ true }
    ensures { data_of call ≡ Some result }
{
    match call {
        StoreCall::Set { datum, .. } => Datum::new(datum),
        StoreCall::SetValue { datum, .. } => Datum::new(datum),
        _ => unreachable!(),
    }
}

/// Serves a Delete. The tables forget the entry only once it is told and kept,
/// since no entry is put back in its place.
fn delete<K: Keeper>(
    alloc: Global,
    tables: &mut Tables,
    outboxes: &mut Outboxes,
    keeper: &mut K,
    table: &Text,
    id: &Text,
) -> Result<ServedCall, WantOfMemory>
    ensures ok { IfOk result (StoreServed (StoreCall.Delete table.now id.now) tables.old
        outboxes.old (K.is keeper.old) tables.new outboxes.new (K.is keeper.new)) }
    ensures tables { OnErr result (tables.new ≡ tables.old) }
    ensures outboxes { OnErr result (IsSame outboxes.old outboxes.new) }
    ensures keeper { OnErr result (KeeperStays (K.is keeper.old) (K.is keeper.new)) }
{
    let Some(former) = tables.former(table, id)? else {
        return Ok(answered(alloc, Answer::Refused(Code::NotFound)));
    };
    // An entry goes last: that takes no memory, and none could be put back in its place.
    let change = change_of(alloc, true, table, id, former)?;
    let made = removal(alloc, table, id)?;
    let failed = keep_told(alloc, outboxes, keeper, Some(made), change)?;
    if failed {
        return Ok(done(alloc, failed));
    }
    forget(tables, table, id);
    Ok(done(alloc, failed))
}

/// The change of the records with which an entry goes.
fn removal(alloc: Global, table: &Text, id: &Text) -> Result<RecordChange, WantOfMemory>
    ensures { IfOk result (λ made. made ≡ RemoveEntry table.now id.now) }
{
    Ok(RecordChange::RemoveEntry {
        table: table.replica(alloc)?,
        id: id.replica(alloc)?,
    })
}

/// Takes the entry of a table and an identifier out.
fn forget(tables: &mut Tables, table: &Text, id: &Text)
    requires { is_some (entry_of tables.old table.now id.now) ≡ true }
    ensures { tables.new ≡ without_entry table.now id.now tables.old }
{
    let _ = tables.delete(table, id);
}
