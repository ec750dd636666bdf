//! The words of a line.

ghost use Rattle.std.specs.Prelude.{◌≡◌, ◌==◌, IfOk, MatchOption, map};
ghost use Rattle.std.specs.Char.{is_ascii_digit};
ghost use Rattle.std.specs.List.{slice_split, list_all};
ghost use Rattle.script_lines.specs.Lines.{is_plain};
ghost use Rattle.script_lines.specs.Reading.{ReadsBytes, ReadsPath, ReadsNumber, ReadsSeat, ReadsName, IsFree, CutsAt, are_digits as are_digits_in, leads_with_zero as leads_with_zero_in};

use hex::FromHexError;
use portal_base::list::{ByteList, List};
use portal_base::memory::WantOfMemory;
use portal_base::names::NameError;
use portal_base::names::app_id::AppId;
use portal_base::names::host_path::HostPath;
use portal_base::text::Text;
use std::alloc::{AllocError, Global};
use std::str;

/// The greatest number of a connection.
const LAST_SEAT: u64 = 65_535;

/// What stands ahead of the first separator, and what behind it.
pub fn cut<'a>(text: &'a [u8], separator: u8) -> Option<(&'a [u8], &'a [u8])>
    ensures { MatchOption result (IsFree separator text.entry.now)
        (λ halves. CutsAt separator text.entry.now halves.0.now halves.1.now) }
{
    let at = text.iter().position(|b| *b == separator)?;
    Some((&text[..at], &text[at + 1..]))
}

/// The parts of a text between the separators.
pub fn parts<'a>(alloc: Global, text: &'a [u8], separator: u8) -> Result<Vec<&'a [u8]>, AllocError>
    ensures { IfOk result (λ parts. map (λ p. p.now) parts.items
        ≡ slice_split (λ b. b == separator) text.entry.now) }
{
    text.split(|b| *b == separator).collect(alloc)
}

/// The bytes that lower-case hexadecimal digits or `-` stand for.
pub fn read_bytes(alloc: Global, word: &[u8]) -> Result<Option<ByteList>, WantOfMemory>
    ensures { IfOk result (λ read. ReadsBytes word.now read) }
{
    if word.is_empty() {
        return Ok(None);
    }
    if word == b"-".as_slice() {
        return Ok(Some(List::new(alloc)));
    }
    let bytes = match hex::decode(alloc, word) {
        Ok(bytes) => bytes,
        Err(error) => match error {
            FromHexError::OutOfMemory => return Err(WantOfMemory),
            _ => return Ok(None),
        },
    };
    // A word with upper-case digits isn't what its bytes are written as.
    let written = hex::encode(alloc, bytes.as_slice())?;
    if written.as_bytes() != word {
        return Ok(None);
    }
    Ok(Some(List::from_vec(bytes)))
}

/// Whether a word has neither spaces nor control bytes.
fn is_plain_word(word: &[u8]) -> bool
    ensures { result ≡ list_all is_plain word.now }
{
    word.iter().all(|b| *b > b' ' && *b != 0x7f)
}

/// The path that a word is: a host path without spaces and control bytes.
pub fn read_path(alloc: Global, word: &[u8]) -> Result<Option<HostPath>, WantOfMemory>
    ensures { IfOk result (λ read. ReadsPath word.now read) }
{
    if !is_plain_word(word) {
        return Ok(None);
    }
    match HostPath::read(alloc, word) {
        Ok(path) => Ok(Some(path)),
        Err(NameError::Memory) => Err(WantOfMemory),
        Err(NameError::BadName { at: _ }) => Ok(None),
    }
}

/// Whether a word has more than one byte, and a zero first.
#[tactic(auto, using(crate::proofs::WordFacts::leads_long, crate::proofs::WordFacts::leads_short))]
fn leads_with_zero(word: &[u8]) -> bool
    ensures { result ≡ leads_with_zero_in word.now }
{
    word.len() > 1 && word[0] == b'0'
}

/// Whether each byte of a word is a decimal digit.
fn all_digits(word: &[u8]) -> bool
    ensures { result ≡ list_all is_ascii_digit word.now }
{
    word.iter().all(|byte| byte.is_ascii_digit())
}

/// Whether a word is decimal digits without leading zeros.
fn are_digits(word: &[u8]) -> bool
    ensures { result ≡ are_digits_in word.now }
{
    !word.is_empty() && !leads_with_zero(word) && all_digits(word)
}

/// The number that decimal digits without leading zeros stand for.
pub fn read_number(word: &[u8]) -> Option<u64>
    ensures { ReadsNumber word.now result }
{
    if !are_digits(word) {
        return None;
    }
    let Ok(text) = str::from_utf8(word) else {
        return None;
    };
    match text.parse::<u64>() {
        Ok(number) => Some(number),
        Err(_) => None,
    }
}

/// The number of a connection: from 1 to 65,535, in decimal digits without
/// leading zeros.
pub fn read_seat(word: &[u8]) -> Option<u32>
    ensures { ReadsSeat word.now result }
{
    let Some(number) = read_number(word) else {
        return None;
    };
    if number == 0 {
        return None;
    }
    if number > LAST_SEAT {
        return None;
    }
    Some(number as u32)
}

/// The name of an application that a word is.
fn read_app(alloc: Global, word: &[u8]) -> Result<Option<AppId>, WantOfMemory>
    ensures { IfOk result (λ read. ReadsName word.now read) }
{
    match AppId::read(alloc, word) {
        Ok(app) => Ok(Some(app)),
        Err(NameError::Memory) => Err(WantOfMemory),
        Err(NameError::BadName { at: _ }) => Ok(None),
    }
}

/// The text of a word that is written as an application's name is.
pub fn read_name(alloc: Global, word: &[u8]) -> Result<Option<Text>, WantOfMemory>
    ensures { IfOk result (λ read. ReadsName word.now read) }
{
    // The permission store may hold any text without a zero byte. A script says only those that
    // are written as names of applications, and so says them in one way.
    let Ok(text) = str::from_utf8(word) else {
        return Ok(None);
    };
    let Some(_app) = read_app(alloc, word)? else {
        return Ok(None);
    };
    Ok(Some(Text::copied(alloc, text)?))
}
