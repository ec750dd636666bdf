//! Calls of SQLite, and what stands in a line of an answer.
//!
//! They have no clauses: a real database is outside, and the proofs of their
//! callers stay short.

use crate::fault::DatabaseFault;
use portal_base::list::{ByteList, List};
use portal_base::text::Text;
use sqlite::types::ValueRef;
use sqlite::{Alter, Connection, Error, ErrorCode, Row as Line, Transaction};
use std::alloc::Global;

/// Begins a transaction, which changes nothing where it is dropped before its commit.
pub fn begin<S: Alter>(conn: &mut Connection<S>) -> Result<Transaction<'_, S>, DatabaseFault> {
    if !conn.is_autocommit() {
        return Err(DatabaseFault::Sqlite(Error::SqliteFailure(ErrorCode::TransactionState)));
    }
    Ok(conn.transaction())
}

/// Runs a statement of a transaction.
pub fn run<S: Alter>(
    transaction: &mut Transaction<'_, S>,
    sql: &str,
    params: &[ValueRef<'_>],
) -> Result<(), DatabaseFault> {
    transaction.execute(sql, params)?;
    Ok(())
}

/// The lines of a query.
pub fn lines_of<S: Alter>(
    transaction: &mut Transaction<'_, S>,
    sql: &str,
    params: &[ValueRef<'_>],
) -> Result<Vec<Line>, DatabaseFault> {
    let lines = transaction.query_all(sql, params)?;
    Ok(lines)
}

/// What takes the lines of a query as they come.
pub trait TakesLines {
    /// Takes the next line.
    fn take(&mut self, alloc: Global, line: &Line) -> Result<(), DatabaseFault>;
}

/// Hands over the lines of a query one after another, so that they needn't all be in memory.
pub fn hand_lines<S: Alter, T: TakesLines>(
    alloc: Global,
    transaction: &mut Transaction<'_, S>,
    sql: &str,
    to: &mut T,
) -> Result<(), DatabaseFault> {
    let mut lines = transaction.query(sql, &[])?;
    for _ in 0..u64::MAX {
        lines.advance()?;
        let Some(line) = lines.get() else {
            return Ok(());
        };
        to.take(alloc, line)?;
    }
    Ok(())
}

/// The number of 64 bits in a column.
pub fn place_at(line: &Line, at: usize) -> Result<i64, DatabaseFault> {
    let place: i64 = line.get(at)?;
    Ok(place)
}

/// The number of 32 bits in a column.
pub fn number_at(line: &Line, at: usize) -> Result<u32, DatabaseFault> {
    let number: u32 = line.get(at)?;
    Ok(number)
}

/// Whether the number in a column is another than 0.
pub fn flag_at(line: &Line, at: usize) -> Result<bool, DatabaseFault> {
    Ok(place_at(line, at)? != 0)
}

/// The number of 8 bits in a column.
pub fn rights_at(line: &Line, at: usize) -> Result<u8, DatabaseFault> {
    match u8::try_from(number_at(line, at)?) {
        Ok(rights) => Ok(rights),
        Err(_) => Err(DatabaseFault::NoRecord),
    }
}

/// The text in a column.
pub fn text_at(line: &Line, at: usize) -> Result<Text, DatabaseFault> {
    let text: String = line.get(at)?;
    Ok(Text::from_string(text))
}

/// The bytes of a blob or a text in a column.
pub fn slice_at(line: &Line, at: usize) -> Result<&[u8], DatabaseFault> {
    match line.get_ref(at)? {
        ValueRef::Blob(bytes) | ValueRef::Text(bytes) => Ok(bytes),
        _ => Err(DatabaseFault::NoRecord),
    }
}

/// A copy of these bytes.
pub fn bytes_at(alloc: Global, line: &Line, at: usize) -> Result<ByteList, DatabaseFault> {
    Ok(List::copied(alloc, slice_at(line, at)?)?)
}
