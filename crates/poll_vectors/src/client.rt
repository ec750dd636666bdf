//! Clients, and what lines say of them.

ghost use Rattle.std.specs.Prelude.{◌<◌, ◌^◌};

use crate::steps::{Steps, steps_of};
use portal_base::limits::{Limits, Settings};
use portal_base::names::HostPath;
use portal_lines::{DOCUMENTS, PLENTY, kind, limits, who};
use session::act::Client;
use std::alloc::Global;
use vector_lines::error::{LineError, VectorError, given};
use vector_lines::notation::{cut, number};

/// A document that org.ed may read and write, and its file.
pub const SCRIPT: &[u8] = b"file /home/a.txt 68656c6c6f\ndoc 0000000a r /home/a.txt org.ed=rw\n";

/// The words `WHO KIND OPTIONS BYTES` of a line: who sends which bytes, and how the
/// connection is polled.
#[derive(Clone, Copy)]
pub struct Words<'a> {
    /// `host`, or the name of an application.
    pub who: &'a str,
    /// `bus` or `mount`.
    pub kind: &'a str,
    /// `read=STEPS`, `write=STEPS`, `busy=N`, and `limit=N` for the cost of the history,
    /// with commas between them, or `-`.
    pub options: &'a str,
    /// The bytes.
    pub bytes: &'a str,
}

/// How a connection is polled.
#[derive(Clone, Copy)]
pub struct Manner<'a> {
    /// What reads come to.
    pub reads: Steps<'a>,
    /// What writes come to.
    pub writes: Steps<'a>,
    /// At which tries the desk is busy, as `ShyDesk` says.
    pub busy: u64,
}

/// What a line says of a connection.
#[derive(Clone, Copy)]
pub struct Line<'a> {
    /// Whom it is bound to, as `Words` says it.
    pub who: &'a str,
    /// What it speaks.
    pub kind: &'a str,
    /// The cost that the history may have.
    pub history: u64,
    /// The bytes that the client sends.
    pub bytes: &'a [u8],
    /// How it is polled.
    pub manner: Manner<'a>,
}

impl<'a> Line<'a> {
    /// The same, but that the client sends other bytes, and in another manner.
    pub fn with(&self, bytes: &'a [u8], manner: Manner<'a>) -> Line<'a> {
        Line {
            who: self.who,
            kind: self.kind,
            history: self.history,
            bytes,
            manner,
        }
    }
}

/// The words of a line.
pub fn words_of(text: &str) -> Words<'_> {
    let (who, rest) = cut(text);
    let (kind, rest) = cut(rest);
    let (options, bytes) = cut(rest);
    Words {
        who,
        kind,
        options,
        bytes,
    }
}

/// What a line says, whose bytes are these.
pub fn line_of<'a>(words: &Words<'a>, bytes: &'a [u8]) -> Result<Line<'a>, LineError> {
    Ok(Line {
        who: words.who,
        kind: words.kind,
        history: option_number(words.options, "limit=", PLENTY)?,
        bytes,
        manner: manner_of(words.options)?,
    })
}

/// The manner that options tell.
fn manner_of(options: &str) -> Result<Manner<'_>, LineError> {
    Ok(Manner {
        reads: steps_of(option(options, "read="))?,
        writes: steps_of(option(options, "write="))?,
        busy: option_number(options, "busy=", 0)?,
    })
}

/// What stands behind a key among the options, or nothing.
fn option<'a>(options: &'a str, key: &str) -> &'a str {
    for word in options.split(',') {
        if let Some(value) = word.strip_prefix(key) {
            return value;
        }
    }
    ""
}

/// The number behind a key among the options, or another where it isn't there.
fn option_number(options: &str, key: &str, other: u64) -> Result<u64, LineError> {
    match option(options, key) {
        "" => Ok(other),
        value => number(value),
    }
}

/// The limits of the portal that the client of a line meets.
pub fn limits_for(line: &Line<'_>) -> Limits
    ensures made { result.made < 2 ^ 32 }
    ensures queued { result.queued < 2 ^ 32 }
{
    limits(DOCUMENTS, line.history)
}

/// The client of a line.
pub fn client_of(alloc: Global, line: &Line<'_>) -> Result<Client, VectorError> {
    let kind = kind(line.kind)?;
    let who = who(alloc, line.who)?;
    match settings(alloc, limits_for(line)) {
        Ok(settings) => Ok(Client {
            who,
            kind,
            settings,
        }),
        Err(error) => {
            drop(who);
            Err(error)
        }
    }
}

/// What a portal of these limits is set to.
fn settings(alloc: Global, limits: Limits) -> Result<Settings, VectorError> {
    let mountpoint = given(alloc, HostPath::read(alloc, b"/run/doc"))?;
    Ok(Settings {
        limits,
        mountpoint,
        guid: [
            0x01, 0x23, 0x45, 0x67, 0x89, 0xab, 0xcd, 0xef, 0x01, 0x23, 0x45, 0x67, 0x89, 0xab,
            0xcd, 0xef,
        ],
    })
}
