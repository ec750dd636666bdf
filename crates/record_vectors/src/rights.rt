//! Sets of rights; and how lines write names of rights.

use portal_base::list::List;
use portal_base::text::Text;
use rights_rule::{Rights, read_names};
use std::alloc::Global;
use vector_lines::error::{LineError, VectorError, given};
use vector_lines::output::Output;

/// `rights NAME ..`: the names of the rights that are named, in their order;
/// `all`, `none`: the names of every right, and of none.
pub fn rights_named(
    alloc: Global,
    out: &mut Output,
    kind: &str,
    rest: &str,
) -> Result<(), VectorError> {
    let rights = match kind {
        "all" => Rights::all(),
        "none" => Rights::empty(),
        _ => rights(alloc, rest)?,
    };
    put_rights(alloc, out, rights)
}

/// The rights that words name.
pub fn rights(alloc: Global, words: &str) -> Result<Rights, VectorError> {
    let mut names = List::new(alloc);
    add_names(alloc, &mut names, words)?;
    given(alloc, read_names(&names))
}

/// Adds the words to the names.
fn add_names(alloc: Global, names: &mut List<Text>, words: &str) -> Result<(), LineError> {
    for word in words.split_whitespace() {
        names.push(Text::copied(alloc, word)?)?;
    }
    Ok(())
}

/// The names of rights, each behind a space, between brackets.
pub fn put_rights(alloc: Global, out: &mut Output, rights: Rights) -> Result<(), VectorError> {
    let names = rights.names(alloc)?;
    out.text("[");
    for name in names.iter() {
        out.text(" ");
        out.text(name.as_str());
    }
    out.text(" ]");
    Ok(())
}
