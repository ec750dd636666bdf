//! Lists, as lines write them, and what stands between the parts of answers.

use portal_base::list::List;
use std::alloc::Global;
use vector_lines::error::LineError;
use vector_lines::output::Output;

/// What a word of a line stands for.
pub trait Worded: Sized + Drop {
    /// What the word stands for.
    fn of(alloc: Global, word: &str) -> Result<Self, LineError>;
}

/// What words with this letter between them stand for; no word and `-` are none.
pub fn list_of<T: Worded>(alloc: Global, words: &str, between: char) -> Result<List<T>, LineError> {
    let mut list = List::new(alloc);
    if words.is_empty() || words == "-" {
        return Ok(list);
    }
    for word in words.split(between) {
        list.push(T::of(alloc, word)?)?;
    }
    Ok(list)
}

/// What stands ahead of the first such letter, and what stands behind it.
pub fn cut_at(text: &str, letter: char) -> (&str, &str) {
    text.split_once(letter).unwrap_or((text, ""))
}

/// What stands ahead of each item of a list but the first.
pub fn put_between(out: &mut Output, index: usize, between: &str) {
    if index > 0 {
        out.text(between);
    }
}
