//! The reader of one line.

ghost use Rattle.std.specs.Prelude.{◌≡◌, ◌++◌, ◌∷◌, IfOk, MatchOption, codes};
ghost use Rattle.record_keeper.specs.SoundRecords.{IsSoundEntry};
ghost use Rattle.script_lines.specs.Reading.{ReadsLine, ReadsFlags, ReadsDevice, ReadsId, ReadsKind, ReadsWho};

use crate::grants::read_grants;
use crate::rows::read_rows;
use crate::script::{Device, ScriptLine};
use crate::words::{cut, read_bytes, read_name, read_number, read_path, read_seat};
use portal_base::memory::WantOfMemory;
use portal_base::names::NameError;
use portal_base::names::app_id::AppId;
use portal_base::names::doc_id::DocId;
use portal_base::who::{Kind, Who};
use portal_model::records::EntryRecord;
use record_keeper::is_sound_entry;
use std::alloc::Global;

/// The line that a text is, without its line feed; `None` where it is of no
/// form or breaks a rule that doesn't speak of other lines.
pub fn read_line(alloc: Global, line: &[u8]) -> Result<Option<ScriptLine>, WantOfMemory>
    ensures { IfOk result (λ read. ReadsLine line.now read) }
{
    let Some((command, rest)) = cut(line, b' ') else {
        return Ok(None);
    };
    if command == b"file".as_slice() {
        return read_file(alloc, rest);
    }
    if command == b"doc".as_slice() {
        return read_doc(alloc, rest);
    }
    if command == b"entry".as_slice() {
        return read_entry(alloc, rest);
    }
    if command == b"fail".as_slice() {
        return Ok(read_fail(rest));
    }
    if command == b"word".as_slice() {
        return Ok(read_word(rest));
    }
    if command == b"now".as_slice() {
        return Ok(read_now(rest));
    }
    if command == b"open".as_slice() {
        return read_open(alloc, rest);
    }
    if command == b"data".as_slice() {
        return read_data(alloc, rest);
    }
    if command == b"close".as_slice() {
        return Ok(read_close(rest));
    }
    Ok(None)
}

/// Reads `PATH HEX` of a `file` line.
fn read_file(alloc: Global, rest: &[u8]) -> Result<Option<ScriptLine>, WantOfMemory>
    ensures { IfOk result (λ read. ReadsLine (codes "file" ++ (32 ∷ rest.now)) read) }
{
    let Some((path, content)) = cut(rest, b' ') else {
        return Ok(None);
    };
    if path == b"/".as_slice() {
        return Ok(None);
    }
    let Some(path) = read_path(alloc, path)? else {
        return Ok(None);
    };
    let Some(content) = read_bytes(alloc, content)? else {
        return Ok(None);
    };
    Ok(Some(ScriptLine::File { path, content }))
}

/// The number of a document.
fn read_id(word: &[u8]) -> Option<DocId>
    ensures { ReadsId word.now result }
{
    let id = DocId::read(word)?;
    if id.text().as_slice() != word {
        return None;
    }
    Some(id)
}

/// What the flags of a document say.
#[derive(Clone, Copy)]
struct DocFlags {
    reusable: bool,
    strict: bool,
}

impl DocFlags {
    fn of(reusable: bool, strict: bool) -> DocFlags
        ensures { result ≡ record { reusable = reusable; strict = strict } }
    {
        DocFlags { reusable, strict }
    }
}

/// Reads `r` of a document that may be used again, `s` of a strict one, `rs` of one
/// that is both, and `-` of one that is neither.
fn read_flags(word: &[u8]) -> Option<DocFlags>
    ensures { ReadsFlags word.now result }
{
    if word == b"r".as_slice() {
        return Some(DocFlags::of(true, false));
    }
    if word == b"-".as_slice() {
        return Some(DocFlags::of(false, false));
    }
    if word == b"s".as_slice() {
        return Some(DocFlags::of(false, true));
    }
    if word == b"rs".as_slice() {
        return Some(DocFlags::of(true, true));
    }
    None
}

/// Reads `ID FLAGS PATH GRANTS` of a `doc` line.
fn read_doc(alloc: Global, rest: &[u8]) -> Result<Option<ScriptLine>, WantOfMemory>
    ensures { IfOk result (λ read. ReadsLine (codes "doc" ++ (32 ∷ rest.now)) read) }
{
    let Some((id, rest)) = cut(rest, b' ') else {
        return Ok(None);
    };
    let Some((flags, rest)) = cut(rest, b' ') else {
        return Ok(None);
    };
    let Some((path, grants)) = cut(rest, b' ') else {
        return Ok(None);
    };
    let Some(id) = read_id(id) else {
        return Ok(None);
    };
    let Some(DocFlags { reusable, strict }) = read_flags(flags) else {
        return Ok(None);
    };
    let Some(path) = read_path(alloc, path)? else {
        return Ok(None);
    };
    let Some(grants) = read_grants(alloc, grants)? else {
        return Ok(None);
    };
    Ok(Some(ScriptLine::Doc {
        id,
        reusable,
        strict,
        path,
        grants,
    }))
}

/// Reads `TABLE ID HEX ROWS` of an `entry` line.
fn read_entry(alloc: Global, rest: &[u8]) -> Result<Option<ScriptLine>, WantOfMemory>
    ensures { IfOk result (λ read. ReadsLine (codes "entry" ++ (32 ∷ rest.now)) read) }
{
    let Some((table, rest)) = cut(rest, b' ') else {
        return Ok(None);
    };
    let Some((id, rest)) = cut(rest, b' ') else {
        return Ok(None);
    };
    let Some((datum, rows)) = cut(rest, b' ') else {
        return Ok(None);
    };
    let Some(table) = read_name(alloc, table)? else {
        return Ok(None);
    };
    let Some(id) = read_name(alloc, id)? else {
        return Ok(None);
    };
    let Some(datum) = read_bytes(alloc, datum)? else {
        return Ok(None);
    };
    let Some(rows) = read_rows(alloc, rows)? else {
        return Ok(None);
    };
    sound_entry(
        alloc,
        EntryRecord {
            table,
            id,
            datum,
            rows,
        },
    )
}

/// The line of an entry, where it may be kept.
fn sound_entry(alloc: Global, entry: EntryRecord) -> Result<Option<ScriptLine>, WantOfMemory>
    ensures { IfOk result (λ read. MatchOption read (IsSoundEntry entry
        → ⊥) (λ line. (line ≡ ScriptLine.Entry entry) × IsSoundEntry entry)) }
{
    if is_sound_entry(alloc, &entry)? {
        Ok(Some(ScriptLine::Entry(entry)))
    } else {
        Ok(None)
    }
}

/// Which device a word names.
fn read_device(word: &[u8]) -> Option<Device>
    ensures { ReadsDevice word.now result }
{
    if word == b"tree".as_slice() {
        return Some(Device::Tree);
    }
    if word == b"keeper".as_slice() {
        return Some(Device::Keeper);
    }
    None
}

/// Reads `tree K` or `keeper K` of a `fail` line.
fn read_fail(rest: &[u8]) -> Option<ScriptLine>
    ensures { ReadsLine (codes "fail" ++ (32 ∷ rest.now)) result }
{
    let Some((device, call)) = cut(rest, b' ') else {
        return None;
    };
    let Some(device) = read_device(device) else {
        return None;
    };
    let Some(call) = read_number(call) else {
        return None;
    };
    if call == 0 {
        return None;
    }
    Some(ScriptLine::Fail { device, call })
}

/// Reads `HEX` of a `word` line: eight lower-case digits.
fn read_word(rest: &[u8]) -> Option<ScriptLine>
    ensures { ReadsLine (codes "word" ++ (32 ∷ rest.now)) result }
{
    let Some(id) = read_id(rest) else {
        return None;
    };
    Some(ScriptLine::Word { word: id.number })
}

/// Reads `N` of a `now` line.
fn read_now(rest: &[u8]) -> Option<ScriptLine>
    ensures { ReadsLine (codes "now" ++ (32 ∷ rest.now)) result }
{
    let Some(moment) = read_number(rest) else {
        return None;
    };
    Some(ScriptLine::Now { moment })
}

/// What a connection speaks, by its name.
fn read_kind(word: &[u8]) -> Option<Kind>
    ensures { ReadsKind word.now result }
{
    if word == b"bus".as_slice() {
        return Some(Kind::Bus);
    }
    if word == b"mount".as_slice() {
        return Some(Kind::Mount);
    }
    None
}

/// Whom a connection is bound to: `host`, or `app:NAME`.
fn read_who(alloc: Global, word: &[u8]) -> Result<Option<Who>, WantOfMemory>
    ensures { IfOk result (λ read. ReadsWho word.now read) }
{
    if word == b"host".as_slice() {
        return Ok(Some(Who::Host));
    }
    let Some(name) = word.strip_prefix(b"app:".as_slice()) else {
        return Ok(None);
    };
    match AppId::read(alloc, name) {
        Ok(app) => Ok(Some(Who::App(app))),
        Err(NameError::Memory) => Err(WantOfMemory),
        Err(NameError::BadName { at: _ }) => Ok(None),
    }
}

/// Reads `N KIND WHO` of an `open` line.
fn read_open(alloc: Global, rest: &[u8]) -> Result<Option<ScriptLine>, WantOfMemory>
    ensures { IfOk result (λ read. ReadsLine (codes "open" ++ (32 ∷ rest.now)) read) }
{
    let Some((seat, rest)) = cut(rest, b' ') else {
        return Ok(None);
    };
    let Some((kind, who)) = cut(rest, b' ') else {
        return Ok(None);
    };
    let Some(seat) = read_seat(seat) else {
        return Ok(None);
    };
    let Some(kind) = read_kind(kind) else {
        return Ok(None);
    };
    let Some(who) = read_who(alloc, who)? else {
        return Ok(None);
    };
    Ok(Some(ScriptLine::Open { seat, kind, who }))
}

/// Reads `N HEX` of a `data` line.
fn read_data(alloc: Global, rest: &[u8]) -> Result<Option<ScriptLine>, WantOfMemory>
    ensures { IfOk result (λ read. ReadsLine (codes "data" ++ (32 ∷ rest.now)) read) }
{
    let Some((seat, bytes)) = cut(rest, b' ') else {
        return Ok(None);
    };
    let Some(seat) = read_seat(seat) else {
        return Ok(None);
    };
    let Some(bytes) = read_bytes(alloc, bytes)? else {
        return Ok(None);
    };
    Ok(Some(ScriptLine::Data { seat, bytes }))
}

/// Reads `N` of a `close` line.
fn read_close(rest: &[u8]) -> Option<ScriptLine>
    ensures { ReadsLine (codes "close" ++ (32 ∷ rest.now)) result }
{
    let seat = read_seat(rest)?;
    Some(ScriptLine::Close { seat })
}
