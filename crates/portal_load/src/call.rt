//! The calls of the load, by the D-Bus Specification.

ghost use Rattle.std.specs.Prelude.{◌≡◌, [], ◌∷◌, ◌++◌, length, IfOk, OnOk};
ghost use Rattle.std.specs.Int.{w32};
ghost use Rattle.dbus_types.specs.declared.types.Endian.TheVariants.{Little};
ghost use Rattle.dbus_types.specs.declared.types.Value.TheVariants as V;
ghost use Rattle.dbus_values.specs.Spells.{number};
ghost use Rattle.dbus_values.specs.Spelling.{spelling, spellings};
ghost use Rattle.dbus_message.specs.Fields.{field_type};
ghost use Rattle.portal_base.specs.Names.{doc_text};
ghost use Rattle.portal_load.specs.Calls.{app_name, call_asked, call_fields, call_of, documents_interface, documents_path, member_at, read_and_write, rights_body};

use crate::draw::Draw;
use dbus_marshal::header_field::{write_path_field, write_signature_field, write_text_field};
use dbus_marshal::write::{overwrite_length, pad, write_all};
use dbus_types::message::METHOD_CALL;
use dbus_types::shared::Shared;
use dbus_types::types::{Value, WireType};
use portal_base::list::{ByteList, List};
use portal_base::memory::WantOfMemory;
use portal_base::names::doc_id::DocId;
use portal_base::text::Text;
use std::alloc::Global;

/// The object that is called.
const PATH: &[u8] = b"/org/freedesktop/portal/documents";

/// The interface whose member is called.
const INTERFACE: &[u8] = b"org.freedesktop.portal.Documents";

/// The code of the field PATH.
const PATH_CODE: u8 = 1;

/// The code of the field INTERFACE.
const INTERFACE_CODE: u8 = 2;

/// The code of the field MEMBER.
const MEMBER_CODE: u8 = 3;

/// The code of the field SIGNATURE.
const SIGNATURE_CODE: u8 = 8;

/// Where the length of the body stands.
const BODY_LENGTH_AT: usize = 4;

/// Where the array of the fields begins, with its length in bytes.
const FIELDS_AT: usize = 12;

/// The length in bytes of what stands ahead of the first field.
const FIXED_LEN: usize = 16;

/// The offset of the body is a multiple of this.
const BODY_ALIGNMENT: usize = 8;

/// The call of a request.
pub(crate) fn call_asked(alloc: Global, request: u32, draw: Draw) -> Result<ByteList, WantOfMemory>
    ensures { IfOk result (λ bytes. bytes ≡ call_asked request draw) }
{
    let body = rights_body(alloc, draw)?;
    call_of(alloc, request, member_at(draw.place), body.as_slice())
}

/// The name of an application.
pub(crate) fn app_name(app: u32) -> &'static str
    ensures { result.now ≡ app_name app }
{
    match app {
        0 => "app.a",
        1 => "app.b",
        2 => "app.c",
        _ => "app.d",
    }
}

/// The member that is called at a place.
fn member_at(place: u32) -> &'static str
    ensures { result.now ≡ member_at place }
{
    if place % 2 == 0 {
        "GrantPermissions"
    } else {
        "RevokePermissions"
    }
}

/// The values of the call: the document, the application and the rights.
fn rights_body(alloc: Global, draw: Draw) -> Result<List<Value>, WantOfMemory>
    ensures { IfOk result (λ body. body ≡ rights_body draw) }
{
    let document = DocId {
        number: draw.document,
    };
    let mut body = List::new(alloc);
    body.push(Value::Str(identifier(alloc, document)?))?;
    body.push(text_value(alloc, app_name(draw.app))?)?;
    body.push(read_and_write(alloc)?)?;
    Ok(body)
}

/// The eight digits of a document's identifier.
fn identifier(alloc: Global, document: DocId) -> Result<Text, WantOfMemory>
    ensures { IfOk result (λ text. text ≡ doc_text document.number) }
{
    // Digits are ASCII, of which nothing is replaced.
    let text = String::from_utf8_lossy(alloc, &document.text())?;
    Ok(Text::from_string(text))
}

/// A text as a value.
fn text_value(alloc: Global, text: &str) -> Result<Value, WantOfMemory>
    ensures { IfOk result (λ value. value ≡ V.Str text.now) }
{
    Ok(Value::Str(Text::copied(alloc, text)?))
}

/// The rights that are granted and revoked.
fn read_and_write(alloc: Global) -> Result<Value, WantOfMemory>
    ensures { IfOk result (λ value. value ≡ read_and_write) }
{
    let mut items = List::new(alloc);
    items.push(text_value(alloc, "read")?)?;
    items.push(text_value(alloc, "write")?)?;
    Ok(Value::Array {
        element: Shared::new(alloc, WireType::Str)?,
        items,
    })
}

/// A call of a member with these values. They are put behind the header, and
/// then their length into the header.
fn call_of(
    alloc: Global,
    serial: u32,
    member: &str,
    body: &[Value],
) -> Result<ByteList, WantOfMemory>
    ensures { IfOk result (λ bytes. bytes ≡ call_of serial member.now body.now) }
{
    let mut bytes = header(alloc, serial, member, body)?;
    pad(&mut bytes, BODY_ALIGNMENT)?;
    let start = bytes.len();
    write_all(&mut bytes, body)?;
    let len = bytes.len() - start;
    overwrite_length(&mut bytes, BODY_LENGTH_AT, len);
    Ok(bytes)
}

/// The header of a call up to its last field. Its body's length is still to be
/// put into it; that of the fields is put behind them.
fn header(
    alloc: Global,
    serial: u32,
    member: &str,
    body: &[Value],
) -> Result<ByteList, WantOfMemory>
    ensures { IfOk result (λ bytes. bytes ≡ (108 ∷ 1 ∷ 0 ∷ 1 ∷ 0 ∷ 0 ∷ 0 ∷ 0
        ∷ number Little w32 serial)
        ++ spelling Little 12 (V.Array field_type (call_fields member.now body.now))) }
{
    let mut bytes = List::new(alloc);
    // The lowest byte of each number comes first; there are no flags, and the
    // version of the protocol is 1.
    bytes.extend_from_slice(&[b'l', METHOD_CALL, 0, 1])?;
    bytes.extend_from_slice(&[0, 0, 0, 0])?;
    bytes.extend_from_slice(&serial.to_le_bytes())?;
    bytes.extend_from_slice(&[0, 0, 0, 0])?;
    put_fields(&mut bytes, member, body)?;
    let len = bytes.len() - FIXED_LEN;
    overwrite_length(&mut bytes, FIELDS_AT, len);
    Ok(bytes)
}

/// Puts the fields of a call, in rising order of their codes.
fn put_fields(out: &mut ByteList, member: &str, body: &[Value]) -> Result<(), WantOfMemory>
    ensures { OnOk result (out.new ≡ out.old
        ++ spellings Little (length out.old) (call_fields member.now body.now)) }
{
    write_path_field(out, PATH_CODE, PATH)?;
    write_text_field(out, INTERFACE_CODE, INTERFACE)?;
    write_text_field(out, MEMBER_CODE, member.as_bytes())?;
    write_signature_field(out, SIGNATURE_CODE, body)
}
