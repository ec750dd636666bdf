//! The writer of scripts.

ghost use Rattle.std.specs.Prelude.{◌≡◌, ◌++◌, ◌∷◌, [], IfOk, OnOk};
ghost use Rattle.std.specs.Fmt.{decimal};
ghost use Rattle.script_lines.specs.Lines.{text_of, line_text, hex_text, grants_text, rows_text, flags_text, device_text, kind_text, who_text};
ghost use Rattle.script_form.specs.Order.{IsRead, IsScript};

use crate::joined::write_joined;
use portal_base::list::{ByteList, List};
use portal_base::memory::WantOfMemory;
use portal_base::names::doc_id::DocId;
use portal_base::names::host_path::HostPath;
use portal_base::who::{Kind, Who};
use portal_model::records::{EntryRecord, GrantRecord, Row};
use script_lines::script::{Device, Script, ScriptLine};
use std::alloc::Global;

/// Writes a script, each line with its line feed. [`read_script`] reads the same
/// script again.
///
/// [`read_script`]: crate::reader::read_script
pub fn write_script(alloc: Global, script: &Script) -> Result<ByteList, WantOfMemory>
    requires { IsScript script.now.lines }
    ensures text { IfOk result (λ text. text ≡ text_of script.now.lines) }
    ensures again { IfOk result (λ text. IsRead text script.now.lines) }
{
    let mut text = List::new(alloc);
    for line in script.lines.as_slice() {
        write_line(alloc, &mut text, line)?;
        text.push(b'\n')?;
    }
    Ok(text)
}

/// Writes a line, without its end.
fn write_line(alloc: Global, out: &mut ByteList, line: &ScriptLine) -> Result<(), WantOfMemory>
    ensures { OnOk result (out.new ≡ out.old ++ line_text line.now) }
{
    match line {
        ScriptLine::File { path, content } => write_file(alloc, out, path, content.as_slice()),
        ScriptLine::Doc {
            id,
            reusable,
            strict,
            path,
            grants,
        } => write_doc(out, *id, *reusable, *strict, path, grants.as_slice()),
        ScriptLine::Entry(entry) => write_entry(alloc, out, entry),
        ScriptLine::Fail { device, call } => write_fail(alloc, out, *device, *call),
        ScriptLine::Word { word } => write_word(out, *word),
        ScriptLine::Now { moment } => write_now(alloc, out, *moment),
        ScriptLine::Open { seat, kind, who } => write_open(alloc, out, *seat, *kind, who),
        ScriptLine::Data { seat, bytes } => write_data(alloc, out, *seat, bytes.as_slice()),
        ScriptLine::Close { seat } => write_close(alloc, out, *seat),
    }
}

/// Writes a word that others stand behind, and the space behind it.
fn put(out: &mut ByteList, word: &[u8]) -> Result<(), WantOfMemory>
    ensures { OnOk result (out.new ≡ out.old ++ (word.now ++ 32 ∷ [])) }
{
    out.extend_from_slice(word)?;
    out.push(b' ')
}

/// Writes a number.
fn write_number(alloc: Global, out: &mut ByteList, number: u64) -> Result<(), WantOfMemory>
    ensures { OnOk result (out.new ≡ out.old ++ decimal number) }
{
    let digits = format!(in alloc; "{number}")?;
    out.extend_from_slice(digits.as_bytes())
}

/// Writes a number that other words stand behind, and the space behind it.
fn put_number(alloc: Global, out: &mut ByteList, number: u64) -> Result<(), WantOfMemory>
    ensures { OnOk result (out.new ≡ out.old ++ (decimal number ++ 32 ∷ [])) }
{
    let digits = format!(in alloc; "{number}")?;
    put(out, digits.as_bytes())
}

/// Writes bytes as hexadecimal digits, or as `-` where there is none.
fn write_hex(alloc: Global, out: &mut ByteList, bytes: &[u8]) -> Result<(), WantOfMemory>
    ensures { OnOk result (out.new ≡ out.old ++ hex_text bytes.now) }
{
    match bytes {
        [] => out.push(b'-'),
        [_, ..] => {
            let digits = hex::encode(alloc, bytes)?;
            out.extend_from_slice(digits.as_bytes())
        }
    }
}

/// Writes `file PATH HEX`.
fn write_file(
    alloc: Global,
    out: &mut ByteList,
    path: &HostPath,
    content: &[u8],
) -> Result<(), WantOfMemory>
    ensures { OnOk result (out.new
        ≡ out.old ++ line_text (ScriptLine.File path.now content.now)) }
{
    put(out, b"file")?;
    put(out, path.as_bytes())?;
    write_hex(alloc, out, content)
}

/// The word of a document that a later addition may use again or not, and that is
/// strict or not.
fn flags(reusable: bool, strict: bool) -> &'static [u8]
    ensures { result.now ≡ flags_text reusable strict }
{
    match (reusable, strict) {
        (true, true) => b"rs",
        (true, false) => b"r",
        (false, true) => b"s",
        (false, false) => b"-",
    }
}

/// Writes grants, or `-` where there is none.
fn write_grants(out: &mut ByteList, grants: &[GrantRecord]) -> Result<(), WantOfMemory>
    ensures { OnOk result (out.new ≡ out.old ++ grants_text grants.now) }
{
    match grants {
        [] => out.push(b'-'),
        [_, ..] => write_joined(out, b',', grants),
    }
}

/// Writes `doc ID FLAGS PATH GRANTS`.
fn write_doc(
    out: &mut ByteList,
    id: DocId,
    reusable: bool,
    strict: bool,
    path: &HostPath,
    grants: &[GrantRecord],
) -> Result<(), WantOfMemory>
    ensures { OnOk result (out.new
        ≡ out.old ++ line_text (ScriptLine.Doc id reusable strict path.now grants.now)) }
{
    put(out, b"doc")?;
    put(out, &id.text())?;
    put(out, flags(reusable, strict))?;
    put(out, path.as_bytes())?;
    write_grants(out, grants)
}

/// Writes rows, or `-` where there is none.
fn write_rows(out: &mut ByteList, rows: &[Row]) -> Result<(), WantOfMemory>
    ensures { OnOk result (out.new ≡ out.old ++ rows_text rows.now) }
{
    match rows {
        [] => out.push(b'-'),
        [_, ..] => write_joined(out, b',', rows),
    }
}

/// Writes `entry TABLE ID HEX ROWS`.
fn write_entry(alloc: Global, out: &mut ByteList, entry: &EntryRecord) -> Result<(), WantOfMemory>
    ensures { OnOk result (out.new ≡ out.old ++ line_text (ScriptLine.Entry entry.now)) }
{
    put(out, b"entry")?;
    put(out, entry.table.as_bytes())?;
    put(out, entry.id.as_bytes())?;
    write_hex(alloc, out, entry.datum.as_slice())?;
    out.push(b' ')?;
    write_rows(out, entry.rows.as_slice())
}

/// The name of a device.
fn device_name(device: Device) -> &'static [u8]
    ensures { result.now ≡ device_text device }
{
    match device {
        Device::Tree => b"tree",
        Device::Keeper => b"keeper",
    }
}

/// Writes `fail tree K` or `fail keeper K`.
fn write_fail(
    alloc: Global,
    out: &mut ByteList,
    device: Device,
    call: u64,
) -> Result<(), WantOfMemory>
    ensures { OnOk result (out.new ≡ out.old ++ line_text (ScriptLine.Fail device call)) }
{
    put(out, b"fail")?;
    put(out, device_name(device))?;
    write_number(alloc, out, call)
}

/// Writes `word HEX`.
fn write_word(out: &mut ByteList, word: u32) -> Result<(), WantOfMemory>
    ensures { OnOk result (out.new ≡ out.old ++ line_text (ScriptLine.Word word)) }
{
    put(out, b"word")?;
    let id = DocId { number: word };
    out.extend_from_slice(&id.text())
}

/// Writes `now N`.
fn write_now(alloc: Global, out: &mut ByteList, moment: u64) -> Result<(), WantOfMemory>
    ensures { OnOk result (out.new ≡ out.old ++ line_text (ScriptLine.Now moment)) }
{
    put(out, b"now")?;
    write_number(alloc, out, moment)
}

/// The name of what a connection speaks.
fn kind_name(kind: Kind) -> &'static [u8]
    ensures { result.now ≡ kind_text kind }
{
    match kind {
        Kind::Bus => b"bus",
        Kind::Mount => b"mount",
    }
}

/// Writes whom a connection is bound to.
fn write_who(out: &mut ByteList, who: &Who) -> Result<(), WantOfMemory>
    ensures { OnOk result (out.new ≡ out.old ++ who_text who.now) }
{
    match who {
        Who::Host => out.extend_from_slice(b"host"),
        Who::App(app) => {
            out.extend_from_slice(b"app:")?;
            out.extend_from_slice(app.as_bytes())
        }
    }
}

/// Writes `open N KIND WHO`.
fn write_open(
    alloc: Global,
    out: &mut ByteList,
    seat: u32,
    kind: Kind,
    who: &Who,
) -> Result<(), WantOfMemory>
    ensures { OnOk result (out.new ≡ out.old ++ line_text (ScriptLine.Open seat kind who.now)) }
{
    put(out, b"open")?;
    put_number(alloc, out, u64::from(seat))?;
    put(out, kind_name(kind))?;
    write_who(out, who)
}

/// Writes `data N HEX`.
fn write_data(
    alloc: Global,
    out: &mut ByteList,
    seat: u32,
    bytes: &[u8],
) -> Result<(), WantOfMemory>
    ensures { OnOk result (out.new ≡ out.old ++ line_text (ScriptLine.Data seat bytes.now)) }
{
    put(out, b"data")?;
    put_number(alloc, out, u64::from(seat))?;
    write_hex(alloc, out, bytes)
}

/// Writes `close N`.
fn write_close(alloc: Global, out: &mut ByteList, seat: u32) -> Result<(), WantOfMemory>
    ensures { OnOk result (out.new ≡ out.old ++ line_text (ScriptLine.Close seat)) }
{
    put(out, b"close")?;
    write_number(alloc, out, u64::from(seat))
}
