//! What is asked of a call ahead of the tables.

ghost use Rattle.std.specs.Prelude.{◌≡◌};
ghost use Rattle.std.specs.List.{list_all};
ghost use Rattle.portal_base.specs.Names.{is_same};
ghost use Rattle.portal_base.specs.declared.who.Who.TheVariants as Who;
ghost use Rattle.portal_model.specs.StoreRequest.{are_data, are_store_arguments, data_of, own_table, table_of, texts_of};
ghost use Rattle.portal_model.specs.Valid.{has_texts, is_text};
ghost use Rattle.store_serving.specs.Refusals.{refusal_of};

use portal_base::text::{Text, has_no_zero};
use portal_base::who::Who;
use portal_model::records::Row;
use portal_model::reply::Code;
use portal_model::store::StoreCall;
use store_data::is_data;

/// Why a call is refused ahead of the tables: it is the host's alone, its texts
/// have no zero byte, what is to become data may be data, and the table
/// `documents` is the portal's own.
pub(crate) fn refusal(who: &Who, call: &StoreCall) -> Option<Code>
    ensures { result ≡ refusal_of who.now call.now }
{
    match who {
        Who::App(_) => Some(Code::AccessDenied),
        Who::Host => host_refusal(call),
    }
}

/// The same of a call of the host.
fn host_refusal(call: &StoreCall) -> Option<Code>
    ensures { result ≡ refusal_of Who.Host call.now }
{
    if !are_arguments(call) {
        return Some(Code::InvalidArgument);
    }
    if is_own_table(table_of(call)) {
        return Some(Code::NotAllowed);
    }
    None
}

/// Says whether a call's texts and data may be such.
fn are_arguments(call: &StoreCall) -> bool
    ensures { result ≡ are_store_arguments call.now }
{
    have_texts_of(call) && has_data(call)
}

/// The table of a call.
fn table_of(call: &StoreCall) -> &Text
    ensures { result.now ≡ table_of call.now }
{
    match call {
        StoreCall::Lookup { table, .. } => table,
        StoreCall::Set { table, .. } => table,
        StoreCall::Delete { table, .. } => table,
        StoreCall::SetValue { table, .. } => table,
        StoreCall::SetPermission { table, .. } => table,
        StoreCall::DeletePermission { table, .. } => table,
        StoreCall::GetPermission { table, .. } => table,
        StoreCall::List { table } => table,
    }
}

/// Says whether a table is the portal's own.
fn is_own_table(table: &Text) -> bool
    ensures { result ≡ is_same table.now own_table }
{
    table.as_bytes() == b"documents".as_slice()
}

/// Says whether what is to become data may be data.
fn has_data(call: &StoreCall) -> bool
    ensures { result ≡ are_data (data_of call.now) }
{
    match call {
        StoreCall::Set { datum, .. } => is_data(datum),
        StoreCall::SetValue { datum, .. } => is_data(datum),
        StoreCall::Lookup { .. } => true,
        StoreCall::Delete { .. } => true,
        StoreCall::SetPermission { .. } => true,
        StoreCall::DeletePermission { .. } => true,
        StoreCall::GetPermission { .. } => true,
        StoreCall::List { .. } => true,
    }
}

/// Says whether no text of a call has a zero byte, but for those inside its data.
fn have_texts_of(call: &StoreCall) -> bool
    ensures { result ≡ list_all is_text (texts_of call.now) }
{
    match call {
        StoreCall::Lookup { table, id } => is_text(table) && is_text(id),
        StoreCall::Set {
            table,
            id,
            rows,
            ..
        } => is_text(table) && is_text(id) && have_texts(rows.as_slice()),
        StoreCall::Delete { table, id } => is_text(table) && is_text(id),
        StoreCall::SetValue { table, id, .. } => is_text(table) && is_text(id),
        StoreCall::SetPermission {
            table,
            id,
            app,
            names,
            ..
        } => is_text(table) && is_text(id) && is_text(app) && are_texts(names.as_slice()),
        StoreCall::DeletePermission { table, id, app } => {
            is_text(table) && is_text(id) && is_text(app)
        }
        StoreCall::GetPermission { table, id, app } => {
            is_text(table) && is_text(id) && is_text(app)
        }
        StoreCall::List { table } => is_text(table),
    }
}

/// Says whether a text has no zero byte.
fn is_text(text: &Text) -> bool
    ensures { result ≡ is_text text.now }
{
    has_no_zero(text.as_bytes())
}

/// Says whether no text has a zero byte.
fn are_texts(texts: &[Text]) -> bool
    ensures { result ≡ list_all is_text texts.now }
{
    texts.iter().all(|text| is_text(text))
}

/// Says whether no text of the rows has a zero byte.
fn have_texts(rows: &[Row]) -> bool
    ensures { result ≡ list_all has_texts rows.now }
{
    rows.iter().all(|row| has_texts(row))
}

/// Says whether no text of a row has a zero byte.
fn has_texts(row: &Row) -> bool
    ensures { result ≡ has_texts row.now }
{
    is_text(&row.app) && are_texts(row.names.as_slice())
}
