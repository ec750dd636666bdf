//! How lines write numbers, texts and bytes.

use crate::error::LineError;
use portal_base::list::{ByteList, List};
use std::alloc::{AllocError, Global};
use std::fmt::Debug;
use std::str::SplitWhitespace;

/// Says whether a line is printed as it is: an empty one, or a comment.
pub fn is_comment(line: &str) -> bool {
    line.is_empty() || line.starts_with('#')
}

/// The first word, and what stands behind the space after it.
pub fn cut(line: &str) -> (&str, &str) {
    line.split_once(' ').unwrap_or((line, ""))
}

/// The next word, which is empty behind the last one.
pub fn next<'a>(words: &mut SplitWhitespace<'a>) -> &'a str {
    words.next().unwrap_or("")
}

/// The next word as a number in decimal digits.
pub fn next_number(words: &mut SplitWhitespace<'_>) -> Result<u64, LineError> {
    number(next(words))
}

/// The next word as a number of 32 bits in decimal digits.
pub fn next_small(words: &mut SplitWhitespace<'_>) -> Result<u32, LineError> {
    small_number(next(words))
}

/// A value as a programmer sees it.
pub fn debug<T: Debug>(alloc: Global, value: &T) -> Result<String, AllocError> {
    format!(in alloc; "{value:?}")
}

/// A number in decimal digits.
pub fn number(word: &str) -> Result<u64, LineError> {
    word.parse::<u64>().map_err(|_| LineError::BadLine)
}

/// A number of 32 bits in decimal digits.
pub fn small_number(word: &str) -> Result<u32, LineError> {
    word.parse::<u32>().map_err(|_| LineError::BadLine)
}

/// Numbers in decimal digits, as words.
pub fn numbers(alloc: Global, words: &str) -> Result<List<u64>, LineError> {
    let mut numbers = List::new(alloc);
    for word in words.split_whitespace() {
        numbers.push(number(word)?)?;
    }
    Ok(numbers)
}

/// The line with each `<N TEXT>` as N times TEXT.
pub fn repeated(alloc: Global, line: &str) -> Result<String, LineError> {
    let mut all = String::new(alloc);
    for (index, part) in line.split('<').enumerate() {
        match part.split_once('>') {
            Some((times, rest)) if index > 0 => {
                put_repeated(&mut all, times)?;
                all.push_str(rest)?;
            }
            _ => all.push_str(part)?,
        }
    }
    Ok(all)
}

fn put_repeated(all: &mut String, times: &str) -> Result<(), LineError> {
    let (count, text) = cut(times);
    for _ in 0..number(count)? {
        all.push_str(text)?;
    }
    Ok(())
}

/// The bytes of a text, in which `\xNN` is a byte by its digits, `\r` a CR and
/// `\n` an LF.
pub fn text(alloc: Global, text: &str) -> Result<ByteList, LineError> {
    let mut all = List::new(alloc);
    put_text(alloc, &mut all, text)?;
    Ok(all)
}

fn put_text(alloc: Global, all: &mut ByteList, text: &str) -> Result<(), LineError> {
    for (index, part) in text.split('\\').enumerate() {
        match part.as_bytes() {
            [b'x', high, low, rest @ ..] if index > 0 => {
                let digits = [*high, *low];
                all.extend_from_slice(hex::decode(alloc, digits.as_slice())?.as_slice())?;
                all.extend_from_slice(rest)?;
            }
            [b'r', rest @ ..] if index > 0 => {
                all.push(b'\r')?;
                all.extend_from_slice(rest)?;
            }
            [b'n', rest @ ..] if index > 0 => {
                all.push(b'\n')?;
                all.extend_from_slice(rest)?;
            }
            bytes => all.extend_from_slice(bytes)?,
        }
    }
    Ok(())
}

/// Bytes, written as words of hexadecimal digits and as texts between quotes.
pub fn bytes(alloc: Global, words: &str) -> Result<ByteList, LineError> {
    let mut all = List::new(alloc);
    for (index, part) in words.split('"').enumerate() {
        if index % 2 == 1 {
            put_text(alloc, &mut all, part)?;
        } else {
            put_digits(alloc, &mut all, part)?;
        }
    }
    Ok(all)
}

fn put_digits(alloc: Global, all: &mut ByteList, words: &str) -> Result<(), LineError> {
    for word in words.split_whitespace() {
        all.extend_from_slice(hex::decode(alloc, word.as_bytes())?.as_slice())?;
    }
    Ok(())
}

/// The bytes as hexadecimal digits.
pub fn digits(alloc: Global, bytes: &[u8]) -> Result<String, LineError> {
    Ok(hex::encode(alloc, bytes)?)
}
