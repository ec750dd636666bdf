//! Records, as lines write them.

use crate::lists::{Worded, cut_at, list_of};
use portal_base::list::List;
use portal_base::text::Text;
use portal_model::records::{DocRecord, EntryRecord, GrantRecord, Records, Row};
use std::alloc::Global;
use vector_lines::error::LineError;
use vector_lines::notation::{bytes, next, next_small, text};

/// Records without an entry.
pub fn no_records(alloc: Global) -> Records {
    Records {
        version: 1,
        documents: List::new(alloc),
        entries: List::new(alloc),
    }
}

/// `NUMBER PATH GRANTS`, the grants with a `,` between them; a path that isn't written is `/a`.
pub fn document(alloc: Global, words: &str, strict: bool) -> Result<DocRecord, LineError> {
    let mut words = words.split_whitespace();
    let number = next_small(&mut words)?;
    let path = text(alloc, words.next().unwrap_or("/a"))?;
    let grants = list_of(alloc, next(&mut words), ',')?;
    Ok(DocRecord {
        number,
        path,
        reusable: false,
        strict,
        grants,
    })
}

/// `APP=RIGHTS`; an application that isn't written is `org.ed`.
impl Worded for GrantRecord {
    fn of(alloc: Global, word: &str) -> Result<GrantRecord, LineError> {
        let (app, rights) = word.split_once('=').unwrap_or(("org.ed", word));
        let rights = rights.parse::<u8>().map_err(|_| LineError::BadLine)?;
        let app = text(alloc, app)?;
        Ok(GrantRecord { app, rights })
    }
}

/// `TABLE ID DATUM ROWS`, the rows with a `,` between them; `-` is a datum of no bytes.
pub fn entry(alloc: Global, words: &str) -> Result<EntryRecord, LineError> {
    let mut words = words.split_whitespace();
    let table = Text::of(alloc, next(&mut words))?;
    let id = Text::of(alloc, next(&mut words))?;
    let datum = datum(alloc, next(&mut words))?;
    let rows = list_of(alloc, next(&mut words), ',')?;
    Ok(EntryRecord {
        table,
        id,
        datum,
        rows,
    })
}

fn datum(alloc: Global, word: &str) -> Result<List<u8>, LineError> {
    if word == "-" {
        return Ok(List::new(alloc));
    }
    bytes(alloc, word)
}

/// `APP=NAME+NAME`.
impl Worded for Row {
    fn of(alloc: Global, word: &str) -> Result<Row, LineError> {
        let (app, names) = cut_at(word, '=');
        let app = Text::of(alloc, app)?;
        let names = list_of(alloc, names, '+')?;
        Ok(Row { app, names })
    }
}

/// A text, in which `\xNN` is a byte by its digits.
impl Worded for Text {
    fn of(alloc: Global, word: &str) -> Result<Text, LineError> {
        let bytes = text(alloc, word)?;
        let string = String::from_utf8_lossy(alloc, bytes.as_slice())?;
        Ok(Text::from_string(string))
    }
}
