//! How lines write texts, rows and data.

ghost use Rattle.std.specs.Prelude.{◌≡◌, true, IfOk};
ghost use Rattle.std.specs.List.{list_all};
ghost use Rattle.permission_table.specs.Tables.{IsSoundDatum, have_texts};
ghost use Rattle.portal_model.specs.Valid.{has_texts, is_text};

use dbus_types::types::Value;
use portal_base::list::List;
use portal_base::text::{Text, has_no_zero};
use portal_model::datum::Datum;
use portal_model::records::Row;
use record_keeper::read_datum;
use std::alloc::Global;
use vector_lines::error::{LineError, VectorError};
use vector_lines::notation::bytes;

/// A text without a zero byte; `""` is the empty one.
pub fn text(alloc: Global, word: &str) -> Result<Text, LineError>
    ensures { IfOk result (λ text. is_text text ≡ true) }
{
    if word == "\"\"" {
        return Ok(Text::new(alloc));
    }
    if !has_no_zero(word.as_bytes()) {
        return Err(LineError::BadLine);
    }
    Ok(Text::copied(alloc, word)?)
}

/// Permissions with a `+` between them; `-` is none.
pub fn names(alloc: Global, word: &str) -> Result<List<Text>, LineError>
    ensures { IfOk result (λ names. list_all is_text names ≡ true) }
{
    let mut names = List::new(alloc);
    if word == "-" {
        return Ok(names);
    }
    for name in word.split('+') {
        names.push(text(alloc, name)?)?;
    }
    Ok(names)
}

/// Rows as `APP=NAMES`, with a `,` between them; `-` is none.
pub fn rows(alloc: Global, word: &str) -> Result<List<Row>, LineError>
    ensures { IfOk result (λ rows. have_texts rows ≡ true) }
{
    let mut rows = List::new(alloc);
    if word == "-" {
        return Ok(rows);
    }
    for row in word.split(',') {
        rows.push(row_of(alloc, row)?)?;
    }
    Ok(rows)
}

fn row_of(alloc: Global, word: &str) -> Result<Row, LineError>
    ensures { IfOk result (λ row. has_texts row ≡ true) }
{
    let Some((app, written)) = word.split_once('=') else {
        return Err(LineError::BadLine);
    };
    Ok(Row {
        app: text(alloc, app)?,
        names: names(alloc, written)?,
    })
}

/// The data whose spelling as a variant the bytes are, with the lowest byte of
/// each number first. `no datum` where they are none, or hold a handle.
pub fn datum(alloc: Global, written: &str) -> Result<Datum, VectorError>
    ensures { IfOk result IsSoundDatum }
{
    let spelled = bytes(alloc, written)?;
    let Some(variant) = read_datum(alloc, spelled.as_slice())? else {
        return no_datum(alloc);
    };
    match variant {
        Value::Variant(inside) => Ok(Datum::new(inside.into_inner())),
        other => {
            drop(other);
            no_datum(alloc)
        }
    }
}

fn no_datum(alloc: Global) -> Result<Datum, VectorError>
    ensures { IfOk result IsSoundDatum }
{
    Err(VectorError::Refused(String::from_str(alloc, "no datum")?))
}
