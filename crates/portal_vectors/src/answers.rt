//! How answers are printed.

use portal_base::text::Text;
use portal_model::records::Row;
use portal_model::reply::{Answer, DirName, ListedDocument, NodeAnswer, Refused, Reply};
use vector_lines::output::Output;

/// What a request is answered.
pub fn put_reply(out: &mut Output, reply: &Result<Reply, Refused>) {
    match reply {
        Ok(reply) => put_answer(out, &reply.answer),
        Err(refused) => out.debug(refused),
    }
}

/// An answer.
pub fn put_answer(out: &mut Output, answer: &Answer) {
    match answer {
        Answer::Ids(ids) => put_identifiers(out, ids.as_slice()),
        Answer::Info { path, rights } => put_information(out, path.as_slice(), rights.as_slice()),
        Answer::Listed(documents) => put_listed(out, documents.as_slice()),
        Answer::Node(NodeAnswer::Content(content)) => {
            out.text("Content ");
            out.lossy(content.as_slice());
        }
        Answer::Node(
            NodeAnswer::Names {
                names,
                offset,
                size,
            },
        ) => put_entries(out, names.as_slice(), *offset, *size),
        _ => out.debug(answer),
    }
}

/// Entries, each by its number and its name, with a `/` behind that of a folder; and which part
/// of them is asked for.
fn put_entries(out: &mut Output, names: &[DirName], offset: u64, size: u32) {
    out.text("Names ");
    out.number(offset);
    out.text(" ");
    out.number(u64::from(size));
    out.text(" ");
    for entry in names {
        put_entry(out, entry);
    }
}

fn put_entry(out: &mut Output, entry: &DirName) {
    out.text("[");
    out.number(entry.node);
    out.text(" ");
    out.lossy(entry.name.as_slice());
    out.text(if entry.folder { "/]" } else { "]" });
}

fn put_identifiers(out: &mut Output, ids: &[Text]) {
    out.text("Ids");
    for id in ids {
        out.text(if id.as_str().is_empty() { " -" } else { " " });
        out.text(id.as_str());
    }
}

fn put_listed(out: &mut Output, documents: &[ListedDocument]) {
    out.text("Listed");
    for document in documents {
        out.text(" ");
        out.id(document.id.number);
        out.text(" ");
        out.lossy(document.path.as_slice());
    }
}

/// A path, and rows as `APP=NAME,NAME`.
fn put_information(out: &mut Output, path: &[u8], rows: &[Row]) {
    out.text("Info ");
    out.lossy(path);
    for row in rows {
        out.text(" ");
        out.text(row.app.as_str());
        put_names(out, row.names.as_slice());
    }
}

fn put_names(out: &mut Output, names: &[Text]) {
    for (index, name) in names.iter().enumerate() {
        out.text(if index == 0 { "=" } else { "," });
        out.text(name.as_str());
    }
}
