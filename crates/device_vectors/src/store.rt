//! Calls of the permission store, over tables without entries at first.

ghost use Rattle.std.specs.Prelude.{◌≡◌, true};
ghost use Rattle.permission_table.specs.Tables.{have_texts};
ghost use Rattle.portal_model.specs.Valid.{is_text};

use crate::lists::put_between;
use crate::readings::{datum, names, rows, text};
use crate::shown::put_told;
use permission_table::Tables;
use portal_base::list::List;
use portal_base::text::Text;
use portal_model::records::Row;
use std::alloc::Global;
use vector_lines::error::{VectorError, bad};
use vector_lines::notation::cut;
use vector_lines::output::Output;

/// `store CALL, CALL ..`: what each call answers. TABLE, ID and APP are texts,
/// where `""` is the empty one. A call that ends in `+` makes the entry where
/// there is none.
pub fn store(alloc: Global, out: &mut Output, calls: &str) -> Result<(), VectorError> {
    let mut tables = Tables::new(alloc);
    put_calls(alloc, out, &mut tables, calls)
}

fn put_calls(
    alloc: Global,
    out: &mut Output,
    tables: &mut Tables,
    calls: &str,
) -> Result<(), VectorError> {
    for (index, call) in calls.split(", ").enumerate() {
        put_between(out, index, "; ");
        put_call(alloc, out, tables, call)?;
    }
    Ok(())
}

/// `CALL TABLE ID ..`, or `try CALL TABLE ID ..` of a call that is then taken back. What is made
/// to name the entry is let go here alone.
fn put_call(
    alloc: Global,
    out: &mut Output,
    tables: &mut Tables,
    call: &str,
) -> Result<(), VectorError> {
    let attempt = call.strip_prefix("try ");
    let (word, rest) = cut(attempt.unwrap_or(call));
    let (table, rest) = cut(rest);
    let (id, rest) = cut(rest);
    let table = text(alloc, table)?;
    let id = text(alloc, id)?;
    match attempt {
        Some(_) => put_attempt(alloc, out, tables, word, &table, &id, rest),
        None => put_answer(alloc, out, tables, word, &table, &id, rest),
    }
}

/// What a call answers, which is then taken back.
fn put_attempt(
    alloc: Global,
    out: &mut Output,
    tables: &mut Tables,
    word: &str,
    table: &Text,
    id: &Text,
    rest: &str,
) -> Result<(), VectorError>
    requires table { is_text table.now ≡ true }
    requires id { is_text id.now ≡ true }
{
    let former = tables.former(table, id)?;
    let put = put_answer(alloc, out, tables, word, table, id, rest);
    tables.put_back(table, id, former);
    put
}

/// What a call answers:
///
/// - `lookup TABLE ID`: the rows and the data of an entry.
/// - `set TABLE ID ROWS DATUM`: replaces rows and data.
/// - `value TABLE ID DATUM`: replaces the data.
/// - `permit TABLE ID APP NAMES`: replaces the row of an application.
/// - `forbid TABLE ID APP`: the row of an application goes.
/// - `get TABLE ID APP`: the permissions of an application.
/// - `delete TABLE ID`: the entry goes.
/// - `list TABLE`: the identifiers of a table.
fn put_answer(
    alloc: Global,
    out: &mut Output,
    tables: &mut Tables,
    word: &str,
    table: &Text,
    id: &Text,
    rest: &str,
) -> Result<(), VectorError>
    requires table { is_text table.now ≡ true }
    requires id { is_text id.now ≡ true }
{
    let create = word.ends_with('+');
    match word.strip_suffix("+").unwrap_or(word) {
        "lookup" => put_told(out, tables.lookup(table, id)),
        "delete" => put_told(out, tables.delete(table, id)),
        "list" => put_told(out, tables.list(table)),
        "set" => return set(alloc, out, tables, create, table, id, rest),
        "value" => return set_value(alloc, out, tables, create, table, id, rest),
        "permit" => return permit(alloc, out, tables, create, table, id, rest),
        "forbid" | "get" => return put_row(alloc, out, tables, word, table, id, rest),
        _ => return bad(),
    }
    Ok(())
}

/// What a call on the row of an application answers.
fn put_row(
    alloc: Global,
    out: &mut Output,
    tables: &mut Tables,
    word: &str,
    table: &Text,
    id: &Text,
    app: &str,
) -> Result<(), VectorError>
    requires table { is_text table.now ≡ true }
    requires id { is_text id.now ≡ true }
{
    let app = text(alloc, app)?;
    if word == "forbid" {
        put_told(out, tables.delete_permission(table, id, &app));
    } else {
        put_told(out, tables.get_permission(table, id, &app));
    }
    Ok(())
}

fn set(
    alloc: Global,
    out: &mut Output,
    tables: &mut Tables,
    create: bool,
    table: &Text,
    id: &Text,
    rest: &str,
) -> Result<(), VectorError>
    requires table { is_text table.now ≡ true }
    requires id { is_text id.now ≡ true }
{
    let (written, data) = cut(rest);
    let rows = rows(alloc, written)?;
    set_rows(alloc, out, tables, create, table, id, &rows, data)
}

fn set_rows(
    alloc: Global,
    out: &mut Output,
    tables: &mut Tables,
    create: bool,
    table: &Text,
    id: &Text,
    rows: &List<Row>,
    data: &str,
) -> Result<(), VectorError>
    requires table { is_text table.now ≡ true }
    requires id { is_text id.now ≡ true }
    requires rows { have_texts rows.now ≡ true }
{
    let datum = datum(alloc, data)?;
    put_told(out, tables.set(table, create, id, rows, &datum));
    Ok(())
}

fn set_value(
    alloc: Global,
    out: &mut Output,
    tables: &mut Tables,
    create: bool,
    table: &Text,
    id: &Text,
    data: &str,
) -> Result<(), VectorError>
    requires table { is_text table.now ≡ true }
    requires id { is_text id.now ≡ true }
{
    let datum = datum(alloc, data)?;
    put_told(out, tables.set_value(table, create, id, &datum));
    Ok(())
}

fn permit(
    alloc: Global,
    out: &mut Output,
    tables: &mut Tables,
    create: bool,
    table: &Text,
    id: &Text,
    rest: &str,
) -> Result<(), VectorError>
    requires table { is_text table.now ≡ true }
    requires id { is_text id.now ≡ true }
{
    let (app, written) = cut(rest);
    let app = text(alloc, app)?;
    let names = names(alloc, written)?;
    put_told(out, tables.set_permission(table, create, id, &app, &names));
    Ok(())
}
