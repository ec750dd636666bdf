//! Connections that are served under other limits than a script's, or whose bytes come
//! in another way.

ghost use Rattle.std.specs.Prelude.{◌≡◌, []};

use crate::devices::{Kept, Pieces};
use crate::sizes::{Run, put_told};
use portal_base::limits::Settings;
use portal_base::list::ByteList;
use portal_base::names::HostPath;
use portal_base::outside::MemorySink;
use portal_base::who::{Kind, Who};
use portal_core::local_desk::LocalDesk;
use portal_lines::{DOCUMENTS, PLENTY, ScriptPortal, kind, let_go, limits, opened_by, who};
use session::connection::serve_connection;
use session::served::Served;
use std::alloc::Global;
use std::cell::Cell;
use vector_lines::error::{LineError, VectorError, given};
use vector_lines::notation::{bytes, cut, number};
use vector_lines::output::Output;

/// A document that org.ed may read and write, and its file.
const SCRIPT: &[u8] = b"file /home/a.txt 68656c6c6f\ndoc 0000000a r /home/a.txt org.ed=rw\n";

/// More reads than there are.
const ALWAYS: u64 = u64::MAX;

/// Under which limits of the portal a client is served, and how its bytes come.
#[derive(Clone, Copy)]
struct Options {
    /// The cost that the history may have.
    history: u64,
    /// How many documents may be live.
    documents: u64,
    /// The size of the pieces in which the bytes come; 0 where they come in several.
    size: usize,
    /// The read that fails; none where it is 0.
    read: u64,
    /// The last read that doesn't wait for a write.
    eager: u64,
}

/// A client, and its bytes.
#[derive(Drop)]
pub struct Client {
    who: Who,
    kind: Kind,
    options: Options,
    input: ByteList,
}

/// `serve WHO KIND OPTIONS BYTES`: how a connection ends that gets the bytes; how many
/// entries the history has then; and each piece that is written. The options are
/// `limit=N` for the cost of the history, `documents=N` for live documents, `size=N`
/// for the pieces in which the bytes come, `read=N` for the read that fails, and
/// `eager=N` for the last read that doesn't wait for a write, with commas between them,
/// or `-`. Without a size the connection is served four times, by pieces of 262,144
/// bytes, of 57, of 3 and of 1; the answer is then one where it is the same.
pub fn put_served(alloc: Global, out: &mut Output, rest: &str) -> Result<(), VectorError> {
    let (name, rest) = cut(rest);
    let (speaks, rest) = cut(rest);
    let (options, input) = cut(rest);
    let options = options_of(options)?;
    let kind = kind(speaks)?;
    let input = bytes(alloc, input)?;
    let client = Client {
        who: who(alloc, name)?,
        kind,
        options,
        input,
    };
    let run = Run::Connection(&client);
    match options.size {
        0 => put_told(alloc, out, run, 262_144, true),
        size => put_told(alloc, out, run, size, false),
    }
}

fn options_of(words: &str) -> Result<Options, LineError> {
    Ok(Options {
        history: option(words, "limit=", PLENTY)?,
        documents: option(words, "documents=", DOCUMENTS)?,
        size: option(words, "size=", 0)? as usize,
        read: option(words, "read=", 0)?,
        eager: option(words, "eager=", ALWAYS)?,
    })
}

/// The number behind a key among the options, or another where it isn't there.
fn option(options: &str, key: &str, other: u64) -> Result<u64, LineError> {
    for word in options.split(',') {
        if let Some(value) = word.strip_prefix(key) {
            return number(value);
        }
    }
    Ok(other)
}

/// What is told of a client that is served by pieces of this size, over a portal of its own.
pub fn served(alloc: Global, client: &Client, size: usize) -> Result<String, VectorError> {
    let limits = limits(client.options.documents, client.options.history);
    let settings = Settings {
        limits,
        mountpoint: given(alloc, HostPath::read(alloc, b"/run/doc"))?,
        guid: [
            0x01, 0x23, 0x45, 0x67, 0x89, 0xab, 0xcd, 0xef, 0x01, 0x23, 0x45, 0x67, 0x89, 0xab,
            0xcd, 0xef,
        ],
    };
    let mut portal = match opened_by(alloc, SCRIPT, limits) {
        Ok(portal) => portal,
        Err(error) => return Err(error),
    };
    let mut out = Output::new(alloc);
    put_connection(alloc, &mut out, &mut portal, client, &settings, size);
    let_go(portal);
    Ok(out.into_text()?)
}

/// Serves a connection of a portal that has no connection yet, and tells how it ended, how many
/// entries the history has then, and the pieces that were written.
fn put_connection(
    alloc: Global,
    out: &mut Output,
    portal: &mut ScriptPortal,
    client: &Client,
    settings: &Settings,
    size: usize,
)
    requires { portal.old.story.history ≡ [] }
{
    let written = Cell::new(0);
    let mut source = Pieces {
        bytes: client.input.as_slice(),
        at: 0,
        size,
        calls: 0,
        fail_at: client.options.read,
        eager: client.options.eager,
        written: &written,
        faults: 0,
    };
    let mut sink = Kept {
        pieces: MemorySink::new(alloc, 0),
        written: &written,
    };
    let served = served_by(alloc, portal, client, settings, &mut source, &mut sink);
    out.debug(&served);
    out.text(", ");
    out.number(portal.history().len());
    out.text(" entries");
    for piece in sink.pieces.pieces().as_slice() {
        out.text(" | ");
        out.digits(piece.as_slice());
    }
}

/// Serves a connection of a portal that has no connection yet.
fn served_by(
    alloc: Global,
    portal: &mut ScriptPortal,
    client: &Client,
    settings: &Settings,
    source: &mut Pieces,
    sink: &mut Kept,
) -> Served
    requires { portal.old.story.history ≡ [] }
{
    let mut desk = LocalDesk::new(portal, 1);
    serve_connection(
        alloc,
        &mut desk,
        &client.who,
        client.kind,
        settings,
        source,
        sink,
    )
}
