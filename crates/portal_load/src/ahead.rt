//! The lines ahead of the requests.

ghost use Rattle.std.specs.Prelude.{◌≡◌, ◌++◌, ◌<◌, ◌+◌, true, replicate, IfOk, OnOk};
ghost use Rattle.portal_base.specs.Names.{is_app_name};
ghost use Rattle.portal_load.specs.Calls.{app_name};
ghost use Rattle.portal_load.specs.Lines.{doc_line, doc_lines, file_content, file_line, file_lines, file_path, lines_ahead, mount_line, open_lines};

use crate::call::app_name;
use portal_base::list::{ByteList, List};
use portal_base::memory::WantOfMemory;
use portal_base::names::NameError;
use portal_base::names::app_id::AppId;
use portal_base::names::doc_id::DocId;
use portal_base::names::host_path::HostPath;
use portal_base::who::{Kind, Who};
use portal_model::records::GrantRecord;
use script_lines::script::ScriptLine;
use std::alloc::Global;

/// How many files there are, and documents.
const FILES: u8 = 16;

/// The length of a file, in bytes.
const FILE_LEN: usize = 4096;

/// How many applications there are.
const APPS: u8 = 4;

/// The rights that a document gives: read 1 and write 2.
const READ_AND_WRITE: u8 = 3;

/// The number of the host's connection; the applications' stand ahead of it.
pub(crate) const HOST_SEAT: u32 = 5;

/// The host's handshake on its bus: it says that its uid is 1000, and begins.
const HANDSHAKE: &[u8] = b"\0AUTH EXTERNAL 31303030\r\nBEGIN\r\n";

/// The lines ahead of the requests.
pub(crate) fn lines_ahead(alloc: Global) -> Result<List<ScriptLine>, WantOfMemory>
    ensures { IfOk result (λ lines. lines ≡ lines_ahead) }
{
    let mut lines = file_lines(alloc)?;
    lines.append(doc_lines(alloc)?)?;
    lines.append(open_lines(alloc)?)?;
    lines.push(ScriptLine::Data {
        seat: HOST_SEAT,
        bytes: List::copied(alloc, HANDSHAKE)?,
    })?;
    Ok(lines)
}

/// The files.
fn file_lines(alloc: Global) -> Result<List<ScriptLine>, WantOfMemory>
    ensures { IfOk result (λ lines. lines ≡ file_lines) }
{
    let mut lines = List::new(alloc);
    for number in 0..FILES {
        lines.push(file_line(alloc, number)?)?;
    }
    Ok(lines)
}

/// The documents.
fn doc_lines(alloc: Global) -> Result<List<ScriptLine>, WantOfMemory>
    ensures { IfOk result (λ lines. lines ≡ doc_lines) }
{
    let mut lines = List::new(alloc);
    for number in 0..FILES {
        lines.push(doc_line(alloc, number)?)?;
    }
    Ok(lines)
}

/// The connections.
fn open_lines(alloc: Global) -> Result<List<ScriptLine>, WantOfMemory>
    ensures { IfOk result (λ lines. lines ≡ open_lines) }
{
    let mut lines = List::new(alloc);
    for app in 0..APPS {
        lines.push(mount_line(alloc, app)?)?;
    }
    lines.push(ScriptLine::Open {
        seat: HOST_SEAT,
        kind: Kind::Bus,
        who: Who::Host,
    })?;
    Ok(lines)
}

/// The line of a file.
fn file_line(alloc: Global, number: u8) -> Result<ScriptLine, WantOfMemory>
    requires { number < 16 }
    ensures { IfOk result (λ line. line ≡ file_line number) }
{
    Ok(ScriptLine::File {
        path: file_path(alloc, number)?,
        content: file_content(alloc, number)?,
    })
}

/// The line of a document.
fn doc_line(alloc: Global, number: u8) -> Result<ScriptLine, WantOfMemory>
    requires { number < 16 }
    ensures { IfOk result (λ line. line ≡ doc_line number) }
{
    let mut grants = List::new(alloc);
    grants.push(GrantRecord {
        app: List::copied(alloc, app_name(u32::from(number % APPS)).as_bytes())?,
        rights: READ_AND_WRITE,
    })?;
    Ok(ScriptLine::Doc {
        id: DocId {
            number: u32::from(number),
        },
        reusable: true,
        strict: false,
        path: file_path(alloc, number)?,
        grants,
    })
}

/// The line that opens the mount of an application.
fn mount_line(alloc: Global, app: u8) -> Result<ScriptLine, WantOfMemory>
    requires { app < 4 }
    ensures { IfOk result (λ line. line ≡ mount_line app) }
{
    Ok(ScriptLine::Open {
        seat: u32::from(app) + 1,
        kind: Kind::Mount,
        who: Who::App(app_id(alloc, u32::from(app))?),
    })
}

/// The path of a file.
fn file_path(alloc: Global, number: u8) -> Result<HostPath, WantOfMemory>
    requires { number < 16 }
    ensures { IfOk result (λ path. path ≡ file_path number) }
{
    let text = [b'/', b'f', b'/', b'0' + number / 10, b'0' + number % 10];
    match HostPath::read(alloc, &text) {
        Ok(path) => Ok(path),
        Err(NameError::Memory) => Err(WantOfMemory),
        Err(NameError::BadName { at: _ }) => unreachable!(),
    }
}

/// The bytes of a file.
fn file_content(alloc: Global, number: u8) -> Result<ByteList, WantOfMemory>
    ensures { IfOk result (λ content. content ≡ file_content number) }
{
    filled(alloc, FILE_LEN, number)
}

/// So many times a byte.
fn filled(alloc: Global, len: usize, byte: u8) -> Result<ByteList, WantOfMemory>
    ensures { IfOk result (λ bytes. bytes ≡ replicate len byte) }
{
    let mut bytes = List::new(alloc);
    bytes.resize(len, byte)?;
    Ok(bytes)
}

/// The name of an application.
fn app_id(alloc: Global, app: u32) -> Result<AppId, WantOfMemory>
    ensures { IfOk result (λ name. name ≡ app_name app) }
{
    match AppId::read(alloc, app_name(app).as_bytes()) {
        Ok(name) => Ok(name),
        Err(NameError::Memory) => Err(WantOfMemory),
        Err(NameError::BadName { at: _ }) => unreachable!(),
    }
}
