//! Requests, with their names: byte lists by their digits, texts of documents
//! as they are, and those of the permission store between quotes.

use crate::parts::put_after;
use portal_base::list::List;
use portal_base::text::Text;
use portal_model::records::Row;
use portal_model::request::{AddRequest, Request, RightsCall};
use portal_model::store::StoreCall;
use vector_lines::output::Output;
use vector_lines::values::put_value;

/// A request with its name.
pub fn put_request(out: &mut Output, request: &Request) {
    match request {
        Request::Present { path } => put_named(out, "Present(", path.as_slice()),
        Request::Add(add) => put_add(out, add),
        Request::Grant(call) => put_rights(out, "Grant(", call),
        Request::Revoke(call) => put_rights(out, "Revoke(", call),
        Request::DeleteDocument { doc } => put_named(out, "DeleteDocument(", doc.as_slice()),
        Request::LookupDocument { path } => put_named(out, "LookupDocument(", path.as_slice()),
        Request::Info { doc } => put_named(out, "Info(", doc.as_slice()),
        Request::ListDocuments { app } => put_named(out, "ListDocuments(", app.as_slice()),
        Request::Store(call) => put_store(out, call),
        _ => out.text("another request"),
    }
}

fn put_named(out: &mut Output, name: &str, bytes: &[u8]) {
    out.text(name);
    out.digits(bytes);
    out.text(")");
}

fn put_rights(out: &mut Output, name: &str, call: &RightsCall) {
    out.text(name);
    out.digits(call.doc.as_slice());
    out.text(" ");
    out.digits(call.app.as_slice());
    out.text(" ");
    put_texts(out, &call.names);
    out.text(")");
}

/// The flags `named` and `full`, the handles, and how many files come with the call; the name, the
/// flags, the application and the permissions.
fn put_add(out: &mut Output, add: &AddRequest) {
    put_after(out, "Add(named ", &add.named);
    put_after(out, ", full ", &add.full);
    put_after(out, ", handles ", &add.handles.as_slice());
    put_after(out, ", fds ", &add.fds);
    out.text(", name [");
    out.digits(add.name.as_slice());
    put_after(out, "], flags ", &add.flags);
    out.text(", app [");
    out.digits(add.app.as_slice());
    out.text("], names ");
    put_texts(out, &add.names);
    out.text(")");
}

/// Texts between brackets.
fn put_texts(out: &mut Output, texts: &List<Text>) {
    out.text("[");
    for (index, text) in texts.iter().enumerate() {
        if index > 0 {
            out.text(" ");
        }
        out.text(text.as_str());
    }
    out.text("]");
}

/// A call of the permission store: texts between quotes, `create` as it is, rows as
/// `APP [NAME ..]`, permissions as `[NAME ..]`, and the data as a value.
fn put_store(out: &mut Output, call: &StoreCall) {
    match call {
        StoreCall::Lookup { table, id } => put_quoted(out, "Lookup", &[table, id]),
        StoreCall::Delete { table, id } => put_quoted(out, "Delete", &[table, id]),
        StoreCall::List { table } => put_quoted(out, "List", &[table]),
        StoreCall::DeletePermission { table, id, app } => {
            put_quoted(out, "DeletePermission", &[table, id, app]);
        }
        StoreCall::GetPermission { table, id, app } => {
            put_quoted(out, "GetPermission", &[table, id, app]);
        }
        _ => put_setting(out, call),
    }
    out.text(")");
}

/// A name, and texts behind it.
fn put_quoted(out: &mut Output, name: &str, texts: &[&Text]) {
    out.text(name);
    for (index, text) in texts.iter().enumerate() {
        put_after(out, if index > 0 { " " } else { "(" }, &text.as_str());
    }
}

/// A call that sets something.
fn put_setting(out: &mut Output, call: &StoreCall) {
    match call {
        StoreCall::Set {
            table,
            create,
            id,
            rows,
            datum,
        } => {
            put_place(out, "Set(", table, *create, id);
            put_rows(out, rows);
            put_value(out, datum);
        }
        StoreCall::SetValue {
            table,
            create,
            id,
            datum,
        } => {
            put_place(out, "SetValue(", table, *create, id);
            put_value(out, datum);
        }
        StoreCall::SetPermission {
            table,
            create,
            id,
            app,
            names,
        } => {
            put_place(out, "SetPermission(", table, *create, id);
            out.debug(&app.as_str());
            out.text(" ");
            put_texts(out, names);
        }
        _ => out.text("another call("),
    }
}

/// The entry that a call sets, and whether it is made.
fn put_place(out: &mut Output, name: &str, table: &Text, create: bool, id: &Text) {
    put_after(out, name, &table.as_str());
    put_after(out, " ", &create);
    put_after(out, " ", &id.as_str());
    out.text(" ");
}

fn put_rows(out: &mut Output, rows: &List<Row>) {
    out.text("[");
    for (index, row) in rows.iter().enumerate() {
        if index > 0 {
            out.text(" ");
        }
        out.text(row.app.as_str());
        out.text(" ");
        put_texts(out, &row.names);
    }
    out.text("] ");
}
