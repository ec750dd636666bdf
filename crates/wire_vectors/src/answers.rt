//! Answers of the portal, and the messages that tell of them.

use crate::parts::put_values;
use dbus_dispatch::error_name::ErrorName;
use dbus_dispatch::signal::signal_message;
use dbus_types::message::OutMessage;
use portal_base::list::List;
use portal_base::memory::WantOfMemory;
use portal_base::names::doc_id::DocId;
use portal_base::text::Text;
use portal_model::datum::Datum;
use portal_model::records::Row;
use portal_model::reply::{Answer, Change, Code, ListedDocument};
use std::alloc::Global;
use vector_lines::error::LineError;
use vector_lines::notation::{cut, small_number};
use vector_lines::output::Output;

/// `done`, `place N`, `ids TEXT ..` (`-` is the empty text),
/// `info PATH APP=NAME+NAME ..`, `listed ID=PATH ..`, `entry APP=NAME+NAME ..`
/// with the byte 0 as data, `names TEXT ..` or `refused CODE`.
pub fn answer_of(alloc: Global, words: &str) -> Result<Answer, LineError> {
    let (kind, rest) = cut(words);
    match kind {
        "done" => Ok(Answer::Done),
        "place" => Ok(Answer::Place(small_number(rest)?)),
        "ids" => Ok(Answer::Ids(texts(alloc, rest, ' ')?)),
        "info" => info(alloc, rest),
        "listed" => listed(alloc, rest),
        "entry" => Ok(Answer::Entry {
            rows: rows(alloc, rest)?,
            datum: Datum::zero(),
        }),
        "names" => Ok(Answer::Names(texts(alloc, rest, ' ')?)),
        "refused" => Ok(Answer::Refused(code(rest)?)),
        _ => Err(LineError::BadLine),
    }
}

fn code(word: &str) -> Result<Code, LineError> {
    match word {
        "InvalidArgs" => Ok(Code::InvalidArgs),
        "AccessDenied" => Ok(Code::AccessDenied),
        "LimitsExceeded" => Ok(Code::LimitsExceeded),
        "NotFound" => Ok(Code::NotFound),
        "NotAllowed" => Ok(Code::NotAllowed),
        "InvalidArgument" => Ok(Code::InvalidArgument),
        "Failed" => Ok(Code::Failed),
        _ => Err(LineError::BadLine),
    }
}

/// A text, which is empty for `-`.
pub fn text(alloc: Global, word: &str) -> Result<Text, LineError> {
    let text = if word == "-" { "" } else { word };
    Ok(Text::copied(alloc, text)?)
}

/// Texts with this letter between them; none where there is no word.
fn texts(alloc: Global, words: &str, between: char) -> Result<List<Text>, LineError> {
    let mut texts = List::new(alloc);
    if !words.is_empty() {
        for word in words.split(between) {
            texts.push(text(alloc, word)?)?;
        }
    }
    Ok(texts)
}

fn info(alloc: Global, words: &str) -> Result<Answer, LineError> {
    let (path, words) = cut(words);
    let rights = rows(alloc, words)?;
    let path = List::copied(alloc, path.as_bytes())?;
    Ok(Answer::Info { path, rights })
}

fn rows(alloc: Global, words: &str) -> Result<List<Row>, LineError> {
    let mut rows = List::new(alloc);
    for word in words.split_whitespace() {
        rows.push(row(alloc, word)?)?;
    }
    Ok(rows)
}

fn row(alloc: Global, word: &str) -> Result<Row, LineError> {
    let (app, names) = word.split_once('=').ok_or(LineError::BadLine)?;
    let app = text(alloc, app)?;
    let names = texts(alloc, names, '+')?;
    Ok(Row { app, names })
}

fn listed(alloc: Global, words: &str) -> Result<Answer, LineError> {
    let mut documents = List::new(alloc);
    for word in words.split_whitespace() {
        documents.push(document(alloc, word)?)?;
    }
    Ok(Answer::Listed(documents))
}

fn document(alloc: Global, word: &str) -> Result<ListedDocument, LineError> {
    let (id, path) = word.split_once('=').ok_or(LineError::BadLine)?;
    let id = DocId::read(id.as_bytes()).ok_or(LineError::BadLine)?;
    let path = List::copied(alloc, path.as_bytes())?;
    Ok(ListedDocument { id, path })
}

/// An identifier of so many letters.
pub fn letters(alloc: Global, count: u32) -> Result<Answer, LineError> {
    let mut letters = List::new(alloc);
    letters.resize(count as usize, b'a')?;
    let letters = String::from_utf8_lossy(alloc, letters.as_slice())?;
    let mut ids = List::new(alloc);
    ids.push(Text::from_string(letters))?;
    Ok(Answer::Ids(ids))
}

/// `signal TABLE ID GONE APP=NAME+NAME ..`: what a host is told of an entry with
/// the byte 0 as data and these rows, which is gone where GONE is `true`.
pub fn signal(alloc: Global, out: &mut Output, rest: &str) -> Result<(), LineError> {
    let (table, rest) = cut(rest);
    let (id, rest) = cut(rest);
    let (gone, rest) = cut(rest);
    let table = text(alloc, table)?;
    let id = text(alloc, id)?;
    let rows = rows(alloc, rest)?;
    let change = Change {
        table,
        id,
        deleted: gone == "true",
        datum: Datum::zero(),
        rows,
    };
    put_made(out, &signal_message(alloc, &change), false);
    Ok(())
}

/// A message that was made; of a brief one no values.
pub fn put_made(out: &mut Output, made: &Result<OutMessage, WantOfMemory>, is_brief: bool) {
    match made {
        Ok(OutMessage::Return { .. }) if is_brief => out.text("returns"),
        Ok(message) => put_message(out, message),
        Err(error) => out.debug(error),
    }
}

/// A return with its values, or an error by its name, to the call of serial 7;
/// a signal with its path, its name, and the values that it carries.
pub fn put_message(out: &mut Output, message: &OutMessage) {
    match message {
        OutMessage::Return { to: 7, body } => {
            out.text("returns");
            put_values(out, body);
        }
        OutMessage::Error { to: 7, name } => out.text(name.as_str()),
        OutMessage::Signal {
            path,
            interface,
            member,
            body,
        } => {
            out.text(path.as_str());
            out.text(" ");
            out.text(interface.as_str());
            out.text(" ");
            out.text(member.as_str());
            put_values(out, body);
        }
        _ => out.text("another message"),
    }
}

/// `error NAME`: the name that the error has on the wire.
pub fn error(out: &mut Output, rest: &str) -> Result<(), LineError> {
    let error = match rest {
        "UnknownObject" => ErrorName::UnknownObject,
        "UnknownInterface" => ErrorName::UnknownInterface,
        "UnknownMethod" => ErrorName::UnknownMethod,
        "UnknownProperty" => ErrorName::UnknownProperty,
        "InvalidArgs" => ErrorName::InvalidArgs,
        "AccessDenied" => ErrorName::AccessDenied,
        "LimitsExceeded" => ErrorName::LimitsExceeded,
        "NoMemory" => ErrorName::NoMemory,
        "NotFound" => ErrorName::NotFound,
        "NotAllowed" => ErrorName::NotAllowed,
        "InvalidArgument" => ErrorName::InvalidArgument,
        "Failed" => ErrorName::Failed,
        _ => return Err(LineError::BadLine),
    };
    out.text(error.name());
    Ok(())
}
