//! The rows in an `entry` line.

ghost use Rattle.std.specs.Prelude.{◌≡◌, IfOk};
ghost use Rattle.script_lines.specs.Reading.{ReadsNames, ReadsRow, ReadsRows};

use crate::words::{cut, parts, read_name};
use portal_base::list::List;
use portal_base::memory::WantOfMemory;
use portal_base::text::Text;
use portal_model::records::Row;
use std::alloc::Global;

/// The names that are joined by pluses, at least one.
fn read_names(alloc: Global, word: &[u8]) -> Result<Option<List<Text>>, WantOfMemory>
    ensures { IfOk result (λ read. ReadsNames word.now read) }
{
    let mut names = List::new(alloc);
    let pieces = parts(alloc, word, b'+')?;
    for piece in pieces.as_slice() {
        let Some(name) = read_name(alloc, piece)? else {
            return Ok(None);
        };
        names.push(name)?;
    }
    Ok(Some(names))
}

/// The row that `NAME=PERM` is, with each further permission behind a plus.
fn read_row(alloc: Global, word: &[u8]) -> Result<Option<Row>, WantOfMemory>
    ensures { IfOk result (λ read. ReadsRow word.now read) }
{
    let Some((key, names)) = cut(word, b'=') else {
        return Ok(None);
    };
    let Some(app) = read_name(alloc, key)? else {
        return Ok(None);
    };
    let Some(names) = read_names(alloc, names)? else {
        return Ok(None);
    };
    Ok(Some(Row { app, names }))
}

/// The rows that are joined by commas, or none for `-`.
pub fn read_rows(alloc: Global, word: &[u8]) -> Result<Option<List<Row>>, WantOfMemory>
    ensures { IfOk result (λ read. ReadsRows word.now read) }
{
    let mut rows = List::new(alloc);
    if word == b"-".as_slice() {
        return Ok(Some(rows));
    }
    let pieces = parts(alloc, word, b',')?;
    for piece in pieces.as_slice() {
        let Some(row) = read_row(alloc, piece)? else {
            return Ok(None);
        };
        rows.push(row)?;
    }
    Ok(Some(rows))
}
