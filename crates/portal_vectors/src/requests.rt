//! Requests as lines name them.

use crate::nodes::node_request;
use crate::words::{bytes_of, number_or, numbers_of, texts, texts_of, value};
use portal_base::list::List;
use portal_lines::{kind, who};
use portal_model::request::{AddRequest, Request, RightsCall};
use std::alloc::Global;
use vector_lines::error::{LineError, VectorError};
use vector_lines::notation::{cut, text};

/// The request of a line's words: `enter WHO KIND`, `leave`, `collect`; on documents `present
/// PATH`, `add ARGUMENT ..` and `addfull ARGUMENT ..`, `grant DOCUMENT APPLICATION RIGHT,RIGHT
/// ..`, `revoke ..`, `delete DOCUMENT`, `lookup PATH`, `info DOCUMENT` and `list APPLICATION`;
/// and those on nodes.
pub fn request_of(alloc: Global, words: &str) -> Result<Request, VectorError> {
    let (word, rest) = cut(words);
    match word {
        "enter" => entry(alloc, rest),
        "leave" => Ok(Request::Leave),
        "collect" => Ok(Request::Collect),
        _ => Ok(call(alloc, word, rest)?),
    }
}

/// A request on documents, or on a node.
fn call(alloc: Global, word: &str, rest: &str) -> Result<Request, LineError> {
    match word {
        "add" => Ok(Request::Add(addition(alloc, rest, false)?)),
        "addfull" => Ok(Request::Add(addition(alloc, rest, true)?)),
        "grant" => Ok(Request::Grant(rights_call(alloc, rest)?)),
        "revoke" => Ok(Request::Revoke(rights_call(alloc, rest)?)),
        _ => named_request(alloc, word, rest),
    }
}

/// A request of one text, or on a node.
fn named_request(alloc: Global, word: &str, rest: &str) -> Result<Request, LineError> {
    match word {
        "present" => Ok(Request::Present {
            path: text(alloc, rest)?,
        }),
        "delete" => Ok(Request::DeleteDocument {
            doc: text(alloc, rest)?,
        }),
        "lookup" => Ok(Request::LookupDocument {
            path: text(alloc, rest)?,
        }),
        "info" => Ok(Request::Info {
            doc: text(alloc, rest)?,
        }),
        "list" => Ok(Request::ListDocuments {
            app: text(alloc, rest)?,
        }),
        _ => Ok(Request::Node(node_request(alloc, word, rest)?)),
    }
}

/// `WHO KIND`: an Enter.
fn entry(alloc: Global, rest: &str) -> Result<Request, VectorError> {
    let (name, speaks) = cut(rest);
    let kind = kind(speaks)?;
    Ok(Request::Enter {
        who: who(alloc, name)?,
        kind,
    })
}

/// `fds=N handles=N,.. flags=N app=NAME names=NAME,.. name=BYTES`: an addition of so many
/// presented files, or of the first, which is by name where there is a name.
fn addition(alloc: Global, words: &str, full: bool) -> Result<AddRequest, LineError> {
    let fds = number_or(words, ' ', "fds=", 1)?;
    let flags = number_or(words, ' ', "flags=", 0)?;
    let mut add = AddRequest {
        named: value(words, ' ', "name=").is_some(),
        full,
        handles: List::new(alloc),
        fds,
        name: List::new(alloc),
        flags,
        app: List::new(alloc),
        names: List::new(alloc),
    };
    match put_lists(alloc, &mut add, words) {
        Ok(()) => Ok(add),
        Err(error) => {
            drop(add);
            Err(error)
        }
    }
}

/// The arguments of an addition that are lists.
fn put_lists(alloc: Global, add: &mut AddRequest, words: &str) -> Result<(), LineError> {
    add.handles = numbers_of(alloc, words, "handles=")?;
    add.name = bytes_of(alloc, words, "name=")?;
    add.app = bytes_of(alloc, words, "app=")?;
    add.names = texts_of(alloc, words, "names=")?;
    Ok(())
}

/// A document, an application and rights between commas; none where there is no word.
fn rights_call(alloc: Global, rest: &str) -> Result<RightsCall, LineError> {
    let (doc, rest) = cut(rest);
    let (app, names) = cut(rest);
    Ok(RightsCall {
        doc: text(alloc, doc)?,
        app: text(alloc, app)?,
        names: if rest.contains(' ') {
            texts(alloc, names)?
        } else {
            List::new(alloc)
        },
    })
}
