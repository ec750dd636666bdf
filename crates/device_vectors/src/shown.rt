//! How answers of the tables are printed.

use crate::lists::put_between;
use permission_table::{StoreAnswer, StoreError};
use portal_base::list::List;
use portal_base::text::Text;
use portal_model::datum::Datum;
use portal_model::records::Row;
use portal_model::reply::Change;
use vector_lines::output::Output;
use vector_lines::values::put_value;

/// A text of more bytes is told by its length alone.
const LONGEST_SHOWN: usize = 64;

/// The answer, which is let go here alone, or the error that it comes to.
pub fn put_told(out: &mut Output, told: Result<StoreAnswer, StoreError>) {
    match &told {
        Ok(answer) => put_answer(out, answer),
        Err(error) => out.debug(error),
    }
}

/// `done` or `gone` with the entry, `kept`, `entry` with rows and data, or
/// `names`.
fn put_answer(out: &mut Output, answer: &StoreAnswer) {
    match answer {
        StoreAnswer::Done(change) => put_change(out, change),
        StoreAnswer::Kept => out.text("kept"),
        StoreAnswer::Entry { rows, datum } => {
            out.text("entry");
            put_content(out, rows, datum);
        }
        StoreAnswer::Names(names) => {
            out.text("names ");
            put_texts(out, names);
        }
    }
}

fn put_change(out: &mut Output, change: &Change) {
    out.text(if change.deleted { "gone " } else { "done " });
    put_text(out, &change.table);
    out.text(" ");
    put_text(out, &change.id);
    put_content(out, &change.rows, &change.datum);
}

/// Rows, as they are written, and data.
fn put_content(out: &mut Output, rows: &List<Row>, datum: &Datum) {
    out.text(" ");
    put_rows(out, rows);
    out.text(" ");
    put_value(out, datum.value());
}

/// Rows with a `,` between them, `-` for none.
fn put_rows(out: &mut Output, rows: &List<Row>) {
    if rows.is_empty() {
        out.text("-");
    }
    for (index, row) in rows.iter().enumerate() {
        put_between(out, index, ",");
        put_text(out, &row.app);
        out.text("=");
        put_texts(out, &row.names);
    }
}

/// Texts with a `+` between them, `-` for none.
fn put_texts(out: &mut Output, texts: &List<Text>) {
    if texts.is_empty() {
        out.text("-");
    }
    for (index, text) in texts.iter().enumerate() {
        put_between(out, index, "+");
        put_text(out, text);
    }
}

/// A text, `""` for the empty one, or the number of its bytes.
fn put_text(out: &mut Output, text: &Text) {
    let bytes = text.len();
    if bytes > LONGEST_SHOWN {
        out.text("(");
        out.shown(&bytes);
        out.text(" bytes)");
    } else {
        out.text(if bytes == 0 { "\"\"" } else { text.as_str() });
    }
}
