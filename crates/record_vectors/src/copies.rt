//! Copies: a copy is its original by its contract; lines show that it is made.

use crate::names::{app_of, path_of};
use portal_base::boxed::Boxed;
use portal_base::files::{File, FileName, Look};
use portal_base::limits::{Limits, Settings};
use portal_base::list::{ByteList, List};
use portal_base::memory::Replica;
use portal_base::names::DocId;
use portal_base::text::Text;
use portal_base::who::{Kind, Who};
use portal_model::naming::Naming;
use portal_model::opening::{FileItem, OpeningDocument, TakenGeneration};
use portal_model::records::{DocRecord, EntryRecord, GrantRecord, Row};
use portal_model::request::{NodeOp, NodeRequest, Request};
use portal_model::rights::Right;
use portal_model::state::{Document, Triple};
use portal_model::temporary::{OwnTemp, Temp};
use std::alloc::Global;
use vector_lines::error::{VectorError, bad};
use vector_lines::output::Output;

/// What stands before `copied` for each part or copy that there is no memory for.
const NOT: &str = "not ";

/// `copy KIND`: `copied`, once a value of each type of the kind was.
pub fn copy(alloc: Global, out: &mut Output, kind: &str) -> Result<(), VectorError> {
    match kind {
        "numbers" => numbers(alloc, out),
        "texts" => texts(alloc, out),
        "owners" => owners(alloc, out)?,
        "names" => names(alloc, out)?,
        "callers" => callers(alloc, out)?,
        "files" => files(alloc, out)?,
        "settings" => settings(alloc, out)?,
        "records" => records(alloc, out),
        "entries" => entries(alloc, out),
        "documents" => documents(alloc, out)?,
        "requests" => requests(alloc, out)?,
        "namings" => namings(alloc, out)?,
        "temps" => temps(alloc, out)?,
        _ => return bad(),
    }
    out.text("copied");
    Ok(())
}

/// Makes a copy, and lets it and its original go here alone.
fn copied<T: Replica>(alloc: Global, out: &mut Output, value: T) {
    let copy = value.replica(alloc);
    drop(value);
    if copy.is_err() {
        out.text(NOT);
    }
}

/// A list of the bytes.
fn bytes(alloc: Global, out: &mut Output, bytes: &[u8]) -> ByteList {
    match List::copied(alloc, bytes) {
        Ok(bytes) => bytes,
        Err(_) => {
            out.text(NOT);
            List::new(alloc)
        }
    }
}

/// The text, made anew.
fn text(alloc: Global, out: &mut Output, text: &str) -> Text {
    match Text::copied(alloc, text) {
        Ok(text) => text,
        Err(_) => {
            out.text(NOT);
            Text::new(alloc)
        }
    }
}

/// A list of one item.
fn one<T: Drop>(alloc: Global, out: &mut Output, item: T) -> List<T> {
    let mut items = List::new(alloc);
    if items.push(item).is_err() {
        out.text(NOT);
    }
    items
}

fn numbers(alloc: Global, out: &mut Output) {
    copied(alloc, out, true);
    copied(alloc, out, 1u8);
    copied(alloc, out, 2u16);
    copied(alloc, out, 3u32);
    copied(alloc, out, 4u64);
    copied(alloc, out, 5usize);
    copied(alloc, out, Some(6u8));
}

fn texts(alloc: Global, out: &mut Output) {
    let text = text(alloc, out, "déjà vu");
    copied(alloc, out, text);
    let bytes = bytes(alloc, out, &[7, 8]);
    copied(alloc, out, bytes);
}

fn owners(alloc: Global, out: &mut Output) -> Result<(), VectorError> {
    let one = Boxed::new(alloc, 4u32)?;
    let again = one.clone()?;
    copied(alloc, out, one);
    if again.into_inner() == 4 {
        Ok(())
    } else {
        bad()
    }
}

fn names(alloc: Global, out: &mut Output) -> Result<(), VectorError> {
    copied(alloc, out, app_of(alloc, "org.a")?);
    copied(alloc, out, path_of(alloc, "/home/a.txt")?);
    copied(alloc, out, DocId { number: 10 });
    Ok(())
}

fn callers(alloc: Global, out: &mut Output) -> Result<(), VectorError> {
    copied(alloc, out, Kind::Bus);
    copied(alloc, out, Who::Host);
    copied(alloc, out, Who::App(app_of(alloc, "a")?));
    Ok(())
}

fn files(alloc: Global, out: &mut Output) -> Result<(), VectorError> {
    copied(alloc, out, Look::Folder);
    let name = FileName {
        path: path_of(alloc, "/a")?,
        generation: 1,
    };
    copied(alloc, out, name);
    let file = File {
        path: path_of(alloc, "/home/a.txt")?,
        generation: 2,
        bytes: bytes(alloc, out, b"hello"),
        moment: 7,
    };
    copied(alloc, out, file);
    Ok(())
}

fn namings(alloc: Global, out: &mut Output) -> Result<(), VectorError> {
    let naming = Naming {
        view: 1,
        document: DocId { number: 10 },
        path: path_of(alloc, "/p/a")?,
    };
    copied(alloc, out, naming);
    Ok(())
}

fn temps(alloc: Global, out: &mut Output) -> Result<(), VectorError> {
    let file = FileName {
        path: path_of(alloc, "/home/a.txt")?,
        generation: 1,
    };
    let temp = Temp {
        document: DocId { number: 10 },
        view: 0,
        name: bytes(alloc, out, b"a.tmp"),
        file,
    };
    copied(alloc, out, OwnTemp { k: 1, temp });
    let path = bytes(alloc, out, b"/home/a.txt");
    copied(alloc, out, TakenGeneration { path, last: 1 });
    Ok(())
}

fn settings(alloc: Global, out: &mut Output) -> Result<(), VectorError> {
    let settings = Settings {
        limits: Limits {
            documents: 1,
            made: 2,
            history: 3,
            handles: 4,
            queued: 5,
            file_bytes: 6,
        },
        mountpoint: path_of(alloc, "/run/doc")?,
        guid: [9; 16],
    };
    copied(alloc, out, settings);
    Ok(())
}

fn records(alloc: Global, out: &mut Output) {
    let grant = GrantRecord {
        app: bytes(alloc, out, b"org.ed"),
        rights: 3,
    };
    let kept = DocRecord {
        number: 10,
        path: bytes(alloc, out, b"/home/a.txt"),
        reusable: true,
        strict: true,
        grants: one(alloc, out, grant),
    };
    let document = OpeningDocument {
        kept,
        persistent: true,
        folder: true,
    };
    copied(alloc, out, document);
    let file = FileItem {
        path: bytes(alloc, out, b"/home/a.txt"),
        content: bytes(alloc, out, b"hello"),
        moment: 7,
        generation: 2,
        present: false,
    };
    copied(alloc, out, file);
}

fn entries(alloc: Global, out: &mut Output) {
    let row = Row {
        app: text(alloc, out, "app.x"),
        names: List::new(alloc),
    };
    let entry = EntryRecord {
        table: text(alloc, out, "t"),
        id: text(alloc, out, "i"),
        datum: bytes(alloc, out, b"\x01y\x00\x00"),
        rows: one(alloc, out, row),
    };
    copied(alloc, out, entry);
}

fn documents(alloc: Global, out: &mut Output) -> Result<(), VectorError> {
    let id = DocId { number: 10 };
    let document = Document {
        id,
        path: path_of(alloc, "/home/a.txt")?,
        persistent: true,
        reusable: false,
        strict: true,
        folder: true,
    };
    copied(alloc, out, document);
    let app = app_of(alloc, "org.ed")?;
    let right = Right::Write;
    copied(alloc, out, Triple { app, id, right });
    Ok(())
}

fn requests(alloc: Global, out: &mut Output) -> Result<(), VectorError> {
    let who = Who::App(app_of(alloc, "org.ed")?);
    let kind = Kind::Mount;
    copied(alloc, out, Request::Enter { who, kind });
    copied(alloc, out, Request::Leave);
    copied(alloc, out, Request::Collect);
    let op = NodeOp::GetAttr { flags: 0, fh: 0 };
    let request = NodeRequest {
        node: 8_589_934_602,
        uid: 1000,
        gid: 1000,
        op,
    };
    copied(alloc, out, Request::Node(request));
    Ok(())
}
