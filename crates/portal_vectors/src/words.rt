//! The words `KEY=TEXT` of a line.

use portal_base::list::{ByteList, List};
use portal_base::text::Text;
use std::alloc::Global;
use vector_lines::error::LineError;
use vector_lines::notation::{small_number, text};

/// What stands behind a key in the first word that begins with it, where the words have this
/// mark between them.
pub fn value<'a>(words: &'a str, mark: char, key: &str) -> Option<&'a str> {
    for word in words.split(mark) {
        if let Some(rest) = word.strip_prefix(key) {
            return Some(rest);
        }
    }
    None
}

/// The number behind a key, or another where there is no such word.
pub fn number_or(words: &str, mark: char, key: &str, other: u32) -> Result<u32, LineError> {
    match value(words, mark, key) {
        Some(word) => small_number(word),
        None => Ok(other),
    }
}

/// The bytes behind a key.
pub fn bytes_of(alloc: Global, words: &str, key: &str) -> Result<ByteList, LineError> {
    text(alloc, value(words, ' ', key).unwrap_or(""))
}

/// The numbers behind a key, with a comma between two.
pub fn numbers_of(alloc: Global, words: &str, key: &str) -> Result<List<u32>, LineError> {
    let mut numbers = List::new(alloc);
    for word in value(words, ' ', key).unwrap_or("").split_terminator(',') {
        numbers.push(small_number(word)?)?;
    }
    Ok(numbers)
}

/// The texts behind a key, with a comma between two.
pub fn texts_of(alloc: Global, words: &str, key: &str) -> Result<List<Text>, LineError> {
    match value(words, ' ', key) {
        Some(words) => texts(alloc, words),
        None => Ok(List::new(alloc)),
    }
}

/// Texts between commas.
pub fn texts(alloc: Global, words: &str) -> Result<List<Text>, LineError> {
    let mut texts = List::new(alloc);
    for word in words.split(',') {
        texts.push(Text::copied(alloc, word)?)?;
    }
    Ok(texts)
}
