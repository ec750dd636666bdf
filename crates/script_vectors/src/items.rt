//! Traces that open with nothing, and what happens in them.

use app_trace::{AppView, Content, Trace, TraceItem, same_trace};
use portal_base::list::List;
use portal_base::names::{DocId, HostPath};
use portal_model::entry::Fault;
use portal_model::request::Request;
use std::alloc::Global;
use std::str::SplitWhitespace;
use vector_lines::error::LineError;
use vector_lines::notation::{cut, next, next_number, next_small, number, text};
use vector_lines::output::Output;

/// `items ITEMS || ITEMS`: how two traces compare that open with nothing, and in
/// which these happen. Items are written with `, ` between them: `gone NUMBER`,
/// `bytes PATH GENERATION GENERATION MOMENT TEXT` and `turned` with the same of a file, and
/// `own SEAT leave` and `own SEAT collect`, which a generation may follow.
pub fn put_compared(alloc: Global, out: &mut Output, rest: &str) -> Result<(), LineError> {
    let mut first = empty_trace(alloc);
    let mut second = empty_trace(alloc);
    let read = put_both(alloc, &mut first.items, &mut second.items, rest);
    if read.is_ok() {
        out.debug(&same_trace(&first, &second));
    }
    read
}

/// The trace that opens with nothing, and in which nothing happens.
fn empty_trace(alloc: Global) -> Trace {
    Trace {
        opening: AppView {
            handles: 0,
            queued: 0,
            file_bytes: 0,
            documents: List::new(alloc),
            connections: List::new(alloc),
            contents: List::new(alloc),
            below: List::new(alloc),
            files: List::new(alloc),
        },
        items: List::new(alloc),
    }
}

/// Puts the items of both traces.
fn put_both(
    alloc: Global,
    first: &mut List<TraceItem>,
    second: &mut List<TraceItem>,
    words: &str,
) -> Result<(), LineError> {
    let Some((of_first, of_second)) = words.split_once(" || ") else {
        return Err(LineError::BadLine);
    };
    put_items(alloc, first, of_first)?;
    put_items(alloc, second, of_second)
}

fn put_items(alloc: Global, items: &mut List<TraceItem>, words: &str) -> Result<(), LineError> {
    for words in words.split(", ") {
        put_item(alloc, items, words)?;
    }
    Ok(())
}

fn put_item(alloc: Global, items: &mut List<TraceItem>, words: &str) -> Result<(), LineError> {
    let (kind, rest) = cut(words);
    let mut words = rest.split_whitespace();
    let item = match kind {
        "gone" => TraceItem::Gone {
            id: DocId {
                number: next_small(&mut words)?,
            },
        },
        "own" => own(alloc, &mut words)?,
        "bytes" | "turned" => changed(alloc, kind, &mut words)?,
        _ => return Err(LineError::BadLine),
    };
    Ok(items.push(item)?)
}

/// A file that is changed, or that was renamed to the path.
fn changed(
    alloc: Global,
    kind: &str,
    words: &mut SplitWhitespace<'_>,
) -> Result<TraceItem, LineError> {
    let path = next(words);
    let generation = next_number(words)?;
    let of_content = next_number(words)?;
    let moment = next_number(words)?;
    let bytes = text(alloc, next(words))?;
    let path = HostPath::read(alloc, path.as_bytes())?;
    let content = Content::File {
        generation: of_content,
        bytes,
        moment,
    };
    Ok(if kind == "bytes" {
        TraceItem::Bytes {
            path,
            generation,
            content,
        }
    } else {
        TraceItem::Turned {
            path,
            generation,
            content,
        }
    })
}

/// A request of the application, to which the outside gave nothing, or a generation.
fn own(alloc: Global, words: &mut SplitWhitespace<'_>) -> Result<TraceItem, LineError> {
    let seat = next_small(words)?;
    let kind = next(words);
    let generation = match next(words) {
        "" => None,
        word => Some(number(word)?),
    };
    Ok(TraceItem::Own {
        seat,
        request: if kind == "leave" {
            Request::Leave
        } else {
            Request::Collect
        },
        now: None,
        numbers: List::new(alloc),
        shown: List::new(alloc),
        reused: List::new(alloc),
        looks: 0,
        full: false,
        fault: Fault::None,
        generation,
    })
}
