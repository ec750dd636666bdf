//! The fields in a message's header.
//!
//! Source: D-Bus Specification, "Header Fields".

ghost use Rattle.std.specs.Prelude.{◌≡◌, ◌==◌, ℕ, false, length, filter, find, Some};
ghost use Rattle.dbus_types.specs.declared.types.Value.{out-Value};
ghost use Rattle.std.specs.List.{list_all, position};
ghost use Rattle.std.specs.Option.{option_copied};
ghost use Rattle.dbus_message.specs.Fields.{known_codes, field_code as code_in, field_value as value_in, is_path_value as path_holds, is_text_value as text_holds, any_text, is_number_value as number_holds, is_signature_value as signature_holds, is_in_table as table_holds, is_field as field_holds, is_once as once, are_good as good, value_of as value_under, text_in as text_inside, number_in as number_inside, text_of as text_under, number_of as number_under, has as is_there, has_needed as needed_there};
ghost use Rattle.dbus_types.specs.Names.{is_interface_name, is_member_name};

use dbus_marshal::header::HeaderField;
use dbus_types::message::{ERROR, METHOD_CALL, METHOD_RETURN, SIGNAL};
use dbus_types::names::{is_interface, is_member};
use dbus_types::types::Value;
use portal_base::text::Text;
use std::mem;

/// The object that is called, or that signals: an object path.
pub(crate) const PATH: u8 = 1;

/// The interface of the call or the signal: the name of one.
pub(crate) const INTERFACE: u8 = 2;

/// The method or the signal: the name of a member.
pub(crate) const MEMBER: u8 = 3;

/// The name of an error, of the form of an interface's.
pub(crate) const ERROR_NAME: u8 = 4;

/// The serial of the call that is answered.
pub(crate) const REPLY_SERIAL: u8 = 5;

/// The connection that the message is for: a text that is not looked at.
pub(crate) const DESTINATION: u8 = 6;

/// The connection that it is from: a text that is not looked at.
pub(crate) const SENDER: u8 = 7;

/// The types of the body.
pub(crate) const SIGNATURE: u8 = 8;

/// How many file descriptors come with the message.
pub(crate) const UNIX_FDS: u8 = 9;

/// The highest code of the table: fields of higher ones may hold any value, and
/// nothing is read from them.
pub(crate) const HIGHEST_CODE: u8 = UNIX_FDS;

/// The code of a field.
#[tactic(auto, using(crate::proofs::Tables::code_in_field))]
pub(crate) fn field_code(field: &HeaderField) -> u8
    ensures { result ≡ code_in field.now }
{
    field.code
}

/// The value of a field.
#[tactic(auto, using(crate::proofs::Tables::value_in_field))]
fn field_value(field: &HeaderField) -> &Value
    ensures { value_in field.now ≡ Some result.now }
{
    &field.value
}

fn is_path_value(value: &Value) -> bool
    ensures { result ≡ path_holds (out-Value value.now) }
{
    match value {
        Value::ObjectPath(_) => true,
        _ => false,
    }
}

fn is_interface_value(value: &Value) -> bool
    ensures { result ≡ text_holds is_interface_name (out-Value value.now) }
{
    match value {
        Value::Str(text) => is_interface(text.as_bytes()),
        _ => false,
    }
}

fn is_member_value(value: &Value) -> bool
    ensures { result ≡ text_holds is_member_name (out-Value value.now) }
{
    match value {
        Value::Str(text) => is_member(text.as_bytes()),
        _ => false,
    }
}

fn is_text_value(value: &Value) -> bool
    ensures { result ≡ text_holds any_text (out-Value value.now) }
{
    match value {
        Value::Str(_) => true,
        _ => false,
    }
}

fn is_number_value(value: &Value) -> bool
    ensures { result ≡ number_holds (out-Value value.now) }
{
    match value {
        Value::U32(_) => true,
        _ => false,
    }
}

fn is_signature_value(value: &Value) -> bool
    ensures { result ≡ signature_holds (out-Value value.now) }
{
    match value {
        Value::Signature(_) => true,
        _ => false,
    }
}

/// Says whether a value may stand under a code.
fn is_in_table(code: u8, value: &Value) -> bool
    ensures { result ≡ table_holds code value.now }
{
    match code {
        0 => false,
        PATH => is_path_value(value),
        INTERFACE => is_interface_value(value),
        MEMBER => is_member_value(value),
        ERROR_NAME => is_interface_value(value),
        REPLY_SERIAL => is_number_value(value),
        // There is no bus that would route by these two names, so only their type is looked at.
        DESTINATION => is_text_value(value),
        SENDER => is_text_value(value),
        SIGNATURE => is_signature_value(value),
        UNIX_FDS => is_number_value(value),
        // Codes that aren't in the table are passed over, and may stand more than once.
        _ => true,
    }
}

/// Says whether the table of fields allows a field.
fn is_field(field: &HeaderField) -> bool
    ensures { result ≡ field_holds field.now }
{
    is_in_table(field_code(field), field_value(field))
}

fn all_fields(fields: &[HeaderField]) -> bool
    ensures { result ≡ list_all field_holds fields.now }
{
    fields.iter().all(|field| is_field(field))
}

/// How many fields have a code.
fn count_of(fields: &[HeaderField], code: u8) -> usize
    ensures { result ≡ length (filter (λ f. code_in f == code) fields.now) }
{
    fields
        .iter()
        .filter(|field| field_code(field) == code)
        .count()
}

/// Says whether no two fields have a code.
fn is_once(fields: &[HeaderField], code: u8) -> bool
    ensures { result ≡ once fields.now code }
{
    count_of(fields, code) <= 1
}

/// Says whether no known code stands twice.
fn all_once(fields: &[HeaderField]) -> bool
    ensures { result ≡ list_all (once fields.now) known_codes }
{
    is_once(fields, PATH)
        && is_once(fields, INTERFACE)
        && is_once(fields, MEMBER)
        && is_once(fields, ERROR_NAME)
        && is_once(fields, REPLY_SERIAL)
        && is_once(fields, DESTINATION)
        && is_once(fields, SENDER)
        && is_once(fields, SIGNATURE)
        && is_once(fields, UNIX_FDS)
}

/// Says whether the table of fields allows all, and no known code stands
/// twice.
pub(crate) fn are_good(fields: &[HeaderField]) -> bool
    ensures { result ≡ good fields.now }
{
    all_fields(fields) && all_once(fields)
}

/// The first field of a code.
fn find_field(fields: &[HeaderField], code: u8) -> Option<&HeaderField>
    ensures { option_copied result ≡ find (λ f. code_in f == code) fields.now }
{
    fields.iter().find(|field| field_code(field) == code)
}

/// The value under a code.
fn value_of(fields: &[HeaderField], code: u8) -> Option<&Value>
    ensures { option_copied result ≡ value_under code fields.now }
{
    match find_field(fields, code) {
        Some(field) => Some(field_value(field)),
        None => None,
    }
}

fn text_in(value: &Value) -> Option<&Text>
    ensures { option_copied result ≡ text_inside (out-Value value.now) }
{
    match value {
        Value::Str(text) => Some(text),
        Value::ObjectPath(text) => Some(text),
        Value::Signature(text) => Some(text),
        _ => None,
    }
}

fn number_in(value: &Value) -> Option<u32>
    ensures { result ≡ number_inside (out-Value value.now) }
{
    match value {
        Value::U32(number) => Some(*number),
        _ => None,
    }
}

/// The text under a code.
pub(crate) fn text_of(fields: &[HeaderField], code: u8) -> Option<&Text>
    ensures { option_copied result ≡ text_under code fields.now }
{
    match value_of(fields, code) {
        Some(value) => text_in(value),
        None => None,
    }
}

/// Where the first field of a code stands.
fn place_of(fields: &[HeaderField], code: u8) -> Option<usize>
    ensures { result ≡ position (λ f. code_in f == code) fields.now }
{
    fields.iter().position(|field| field_code(field) == code)
}

/// The value under a code, which is taken out of its field: a byte is left there.
fn take_value(fields: &mut Vec<HeaderField>, code: u8) -> Option<Value>
    ensures value { result ≡ value_under code fields.old.items }
    ensures others { (other : ℕ) → (other == code) ≡ false
        → value_under other fields.new.items ≡ value_under other fields.old.items }
{
    match place_of(fields.as_slice(), code) {
        Some(at) => {
            let field = &mut fields[at];
            // The text is moved out and not copied; who reads the fields behind that asks for
            // other codes.
            Some(mem::replace(&mut field.value, Value::Byte(0)))
        }
        None => None,
    }
}

/// The text that a value is.
fn into_text(value: Value) -> Option<Text>
    ensures { result ≡ text_inside (out-Value value) }
{
    match value {
        Value::Str(text) => Some(text),
        Value::ObjectPath(text) => Some(text),
        Value::Signature(text) => Some(text),
        _ => None,
    }
}

/// The text under a code, which is taken out of its field.
pub(crate) fn take_text(fields: &mut Vec<HeaderField>, code: u8) -> Option<Text>
    ensures text { result ≡ text_under code fields.old.items }
    ensures others { (other : ℕ) → (other == code) ≡ false
        → value_under other fields.new.items ≡ value_under other fields.old.items }
{
    match take_value(fields, code) {
        Some(value) => into_text(value),
        None => None,
    }
}

/// The number under a code.
pub(crate) fn number_of(fields: &[HeaderField], code: u8) -> Option<u32>
    ensures { result ≡ number_under code fields.now }
{
    match value_of(fields, code) {
        Some(value) => number_in(value),
        None => None,
    }
}

fn has(fields: &[HeaderField], code: u8) -> bool
    ensures { result ≡ is_there code fields.now }
{
    value_of(fields, code).is_some()
}

/// Says whether a message of a type has the fields that it needs.
pub(crate) fn has_needed(kind: u8, fields: &[HeaderField]) -> bool
    ensures { result ≡ needed_there kind fields.now }
{
    match kind {
        METHOD_CALL => has(fields, PATH) && has(fields, MEMBER),
        METHOD_RETURN => has(fields, REPLY_SERIAL),
        ERROR => has(fields, ERROR_NAME) && has(fields, REPLY_SERIAL),
        SIGNAL => has(fields, PATH) && has(fields, INTERFACE) && has(fields, MEMBER),
        _ => true,
    }
}
