//! What a request costs in the history.

ghost use Rattle.std.specs.Prelude.{◌≡◌, ◌+◌, ◌-◌, ◌^◌, length, min};
ghost use Rattle.std.specs.List.{sum_by};
ghost use Rattle.portal_history.specs.Rows.{row_bytes};
ghost use Rattle.portal_model.specs.History.{add_bytes as bytes_of_add, cost_of as request_cost, node_bytes as bytes_of_node, rights_call_bytes as bytes_of_call, store_bytes as bytes_of_store, texts_bytes as bytes_of_texts, who_bytes};

use portal_base::list::List;
use portal_base::text::Text;
use portal_base::who::Who;
use portal_model::records::Row;
use portal_model::request::{AddRequest, NodeOp, Request, RightsCall};
use portal_model::store::StoreCall;
use store_data::data_bytes;

/// What any request but Leave costs besides the bytes that it carries, in
/// bytes.
pub const REQUEST_COST: u64 = 128;

/// What each node of a FUSE_BATCH_FORGET costs, in bytes.
const FORGET_COST: u64 = 16;

/// What each handle of an addition costs, in bytes.
const HANDLE_COST: u64 = 4;

/// What a request costs in the history, in bytes: 128, and the bytes of the
/// texts, the content and the data that it carries, 4 per handle of an
/// addition, and 16 per node of a FUSE_BATCH_FORGET, but at most the greatest
/// `u64`. A Leave is free.
pub fn cost_of(request: &Request) -> u64
    ensures { result ≡ request_cost request.now }
{
    match request {
        Request::Enter { who, .. } => REQUEST_COST.saturating_add(name_length(who)),
        // A full history still takes it, also one that is `NotHere`.
        Request::Leave => 0,
        Request::Collect => REQUEST_COST,
        Request::Present { path } | Request::LookupDocument { path } => carrying(path.len() as u64),
        Request::Add(add) => carrying(add_bytes(add)),
        Request::Grant(call) | Request::Revoke(call) => carrying(call_bytes(call)),
        Request::DeleteDocument { doc } | Request::Info { doc } => carrying(doc.len() as u64),
        Request::ListDocuments { app } => carrying(app.len() as u64),
        Request::Store(call) => carrying(store_bytes(call)),
        Request::Node(request) => REQUEST_COST.saturating_add(node_bytes(&request.op)),
    }
}

/// What a request costs that carries so many bytes.
fn carrying(bytes: u64) -> u64
    ensures { result ≡ min (128 + bytes) (2 ^ 64 - 1) }
{
    REQUEST_COST.saturating_add(bytes)
}

fn add_bytes(add: &AddRequest) -> u64
    ensures { result ≡ min (bytes_of_add add.now) (2 ^ 64 - 1) }
{
    HANDLE_COST
        .saturating_mul(add.handles.len() as u64)
        .saturating_add(add.name.len() as u64)
        .saturating_add(add.app.len() as u64)
        .saturating_add(texts_bytes(&add.names))
}

fn call_bytes(call: &RightsCall) -> u64
    ensures { result ≡ min (bytes_of_call call.now) (2 ^ 64 - 1) }
{
    let named = (call.doc.len() as u64).saturating_add(call.app.len() as u64);
    named.saturating_add(texts_bytes(&call.names))
}

fn texts_bytes(texts: &List<Text>) -> u64
    ensures { result ≡ min (bytes_of_texts texts.now) (2 ^ 64 - 1) }
{
    let mut bytes: u64 = 0;
    for text in texts.as_slice() {
        bytes = bytes.saturating_add(text.len() as u64);
    }
    bytes
}

fn store_bytes(call: &StoreCall) -> u64
    ensures { result ≡ min (bytes_of_store call.now) (2 ^ 64 - 1) }
{
    match call {
        StoreCall::Lookup { table, id } | StoreCall::Delete { table, id } => key_bytes(table, id),
        StoreCall::Set {
            table,
            id,
            rows,
            datum,
            ..
        } => key_bytes(table, id)
            .saturating_add(rows_bytes(rows))
            .saturating_add(data_bytes(datum)),
        StoreCall::SetValue {
            table,
            id,
            datum,
            ..
        } => key_bytes(table, id).saturating_add(data_bytes(datum)),
        StoreCall::SetPermission {
            table,
            id,
            app,
            names,
            ..
        } => key_bytes(table, id)
            .saturating_add(app.len() as u64)
            .saturating_add(texts_bytes(names)),
        StoreCall::DeletePermission { table, id, app }
        | StoreCall::GetPermission { table, id, app } => {
            key_bytes(table, id).saturating_add(app.len() as u64)
        }
        StoreCall::List { table } => table.len() as u64,
    }
}

/// The bytes of a table and an identifier.
fn key_bytes(table: &Text, id: &Text) -> u64
    ensures { result ≡ min (length table.now + length id.now) (2 ^ 64 - 1) }
{
    (table.len() as u64).saturating_add(id.len() as u64)
}

fn rows_bytes(rows: &List<Row>) -> u64
    ensures { result ≡ min (sum_by row_bytes rows.now) (2 ^ 64 - 1) }
{
    let mut bytes: u64 = 0;
    for row in rows.as_slice() {
        let named = (row.app.len() as u64).saturating_add(texts_bytes(&row.names));
        bytes = bytes.saturating_add(named);
    }
    bytes
}

fn node_bytes(op: &NodeOp) -> u64
    ensures { result ≡ min (bytes_of_node op.now) (2 ^ 64 - 1) }
{
    match op {
        NodeOp::Lookup { name } | NodeOp::Create { name, .. } | NodeOp::Unlink { name } => {
            name.len() as u64
        }
        NodeOp::Rename {
            old_name,
            new_name,
            ..
        } => (old_name.len() as u64).saturating_add(new_name.len() as u64),
        NodeOp::Write { content, .. } => content.len() as u64,
        NodeOp::BatchForget { nodes } => FORGET_COST.saturating_mul(nodes.len() as u64),
        // It carries no bytes, and the one node that it forgets is the node of the request.
        NodeOp::Forget { .. }
        | NodeOp::GetAttr { .. }
        | NodeOp::SetAttr { .. }
        | NodeOp::Open { .. }
        | NodeOp::Read { .. }
        | NodeOp::Flush { .. }
        | NodeOp::Fsync { .. }
        | NodeOp::Release { .. }
        | NodeOp::OpenDir
        | NodeOp::ReadDir { .. }
        | NodeOp::ReleaseDir { .. }
        | NodeOp::Access { .. } => 0,
    }
}

fn name_length(who: &Who) -> u64
    ensures { result ≡ who_bytes who.now }
{
    match who {
        Who::Host => 0,
        Who::App(name) => name.as_bytes().len() as u64,
    }
}
