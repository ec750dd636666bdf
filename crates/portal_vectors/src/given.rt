//! What the outside gave to a request.

use portal_model::entry::{Fault, Given};
use vector_lines::output::Output;

/// How many looks the tree showed, the moment of the clock, the generation of the file that was
/// made to be renamed, each word with the number that it gave, whether a limit was met, and the
/// device that failed; nothing of what there isn't.
pub fn put_given(out: &mut Output, given: &Given) {
    put_seen(out, given.looks.len(), given.now);
    put_where_some(out, ", generation ", given.generation);
    for (word, id) in given.words.iter().zip(given.numbers.iter()) {
        put_drawn(out, *word, id.number);
    }
    out.text(if given.full { ", full" } else { "" });
    put_fault(out, given.fault);
}

/// A word, and the number that it gave.
fn put_drawn(out: &mut Output, word: u32, number: u32) {
    out.text(", ");
    out.id(word);
    out.text(" gave ");
    out.id(number);
}

/// How many looks there were, and the moment.
pub fn put_seen(out: &mut Output, looks: usize, now: Option<u64>) {
    if looks > 0 {
        out.text(", ");
        out.number(looks as u64);
        out.text(" looks");
    }
    put_where_some(out, ", at ", now);
}

/// A number behind its name, where there is one.
fn put_where_some(out: &mut Output, name: &str, number: Option<u64>) {
    if let Some(number) = number {
        out.text(name);
        out.number(number);
    }
}

/// The device that failed.
pub fn put_fault(out: &mut Output, fault: Fault) {
    out.text(match fault {
        Fault::None => "",
        Fault::Tree => ", tree failed",
        Fault::Keeper => ", keeper failed",
    });
}
