//! The names of a row, as the one text that is kept of them.
//!
//! Each name ends in a line feed. So that a name may hold any character, a line
//! feed in it is written as a backslash and an `n`, and a backslash as two.

ghost use Rattle.std.specs.Prelude.{◌≡◌, ◌∷◌, ◌++◌, IfOk, IfSome, OnOk};
ghost use Rattle.sqlite_tables.specs.Names.{byte_text, name_text, names_text, written as written_of};

use crate::fault::DatabaseFault;
use portal_base::list::List;
use portal_base::text::Text;
use std::alloc::Global;

const LINE_FEED: u8 = b'\n';

const BACKSLASH: u8 = b'\\';

/// The text of names.
pub fn text_of_names(alloc: Global, names: &[Text]) -> Result<Vec<u8>, DatabaseFault>
    ensures { IfOk result (λ text. text.items ≡ names_text names.now) }
{
    let mut text = Vec::new(alloc);
    for name in names {
        write_name(&mut text, name.as_bytes())?;
    }
    Ok(text)
}

/// Puts a name at the end of a text.
fn write_name(text: &mut Vec<u8>, name: &[u8]) -> Result<(), DatabaseFault>
    ensures { OnOk result (text.new.items ≡ text.old.items ++ name_text name.now) }
{
    for byte in name {
        write_byte(text, *byte)?;
    }
    text.push(LINE_FEED)?;
    Ok(())
}

/// Puts a byte of a name at the end of a text.
fn write_byte(text: &mut Vec<u8>, byte: u8) -> Result<(), DatabaseFault>
    ensures { OnOk result (text.new.items ≡ text.old.items ++ byte_text byte) }
{
    if byte == LINE_FEED {
        text.extend_from_slice(b"\\n")?;
    } else if byte == BACKSLASH {
        text.extend_from_slice(b"\\\\")?;
    } else {
        text.push(byte)?;
    }
    Ok(())
}

/// The names that a text is of.
pub fn names_of_text(alloc: Global, text: &[u8]) -> Result<List<Text>, DatabaseFault>
    ensures { IfOk result (λ names. names_text names ≡ text.now) }
{
    let count = text.iter().filter(|byte| **byte == LINE_FEED).count();
    let mut names = Vec::with_capacity(alloc, count)?;
    let mut rest = text;
    while let Some((name, behind)) = cut_name(rest) {
        names.push(read_name(alloc, name)?)?;
        rest = behind;
    }
    if rest.is_empty() {
        Ok(List::from_vec(names))
    } else {
        Err(DatabaseFault::NoRecord)
    }
}

/// What is written of the first name, without the line feed behind it, and what stands behind that.
fn cut_name(text: &[u8]) -> Option<(&[u8], &[u8])>
    ensures { IfSome result (λ halves. text.entry.now ≡ halves.0.now ++ 10 ∷ halves.1.now) }
{
    let end = text.iter().position(|byte| *byte == LINE_FEED)?;
    Some((&text[..end], &text[end + 1..]))
}

/// The name that is written so, without the line feed behind it.
fn read_name(alloc: Global, written: &[u8]) -> Result<Text, DatabaseFault>
    ensures { IfOk result (λ name. written_of name ≡ written.now) }
{
    let mut name = Vec::with_capacity(alloc, written.len())?;
    let mut escaped = false;
    for byte in written {
        match (escaped, *byte) {
            (false, LINE_FEED) => return Err(DatabaseFault::NoRecord),
            (false, BACKSLASH) => escaped = true,
            (false, plain) => name.push(plain)?,
            (true, BACKSLASH) => {
                name.push(BACKSLASH)?;
                escaped = false;
            }
            (true, b'n') => {
                name.push(LINE_FEED)?;
                escaped = false;
            }
            (true, _) => return Err(DatabaseFault::NoRecord),
        }
    }
    if escaped {
        return Err(DatabaseFault::NoRecord);
    }
    match String::from_utf8(name) {
        Ok(name) => Ok(Text::from_string(name)),
        Err(_) => Err(DatabaseFault::NoRecord),
    }
}
