//! A text on one line.

use portal_base::memory::WantOfMemory;
use std::alloc::Global;

/// The text on one line: a question mark stands for each control character, as a line feed.
pub fn on_one_line(alloc: Global, text: &str) -> Result<String, WantOfMemory> {
    let mut line = String::new(alloc);
    for character in text.chars() {
        let shown = if character.is_ascii_control() {
            '?'
        } else {
            character
        };
        line.push(shown)?;
    }
    Ok(line)
}
