//! The body of a message.
//!
//! Source: D-Bus Specification, "Message Format", and of the field SIGNATURE
//! "Header Fields".

ghost use Rattle.std.specs.Option.{option_copied};
ghost use Rattle.dbus_message.specs.Answers.{IsReadTypes, IsReadBody, IsReadContent};

use crate::error::{MessageError, broken};
use crate::rule;
use dbus_marshal::read::read_value;
use dbus_types::errors::SignatureError;
use dbus_types::signature::read_signature;
use dbus_types::types::{Endian, Value, WireType};
use portal_base::list::List;
use portal_base::text::Text;
use std::alloc::Global;

/// The types of a message's body, and its values.
#[derive(Debug, Drop)]
pub(crate) struct Content {
    pub(crate) types: List<WireType>,
    pub(crate) values: List<Value>,
}

/// The types of a signature.
fn read_types(alloc: Global, signature: &[u8]) -> Result<List<WireType>, MessageError>
    ensures { IsReadTypes signature.now result }
{
    match read_signature(alloc, signature) {
        Ok(types) => Ok(types),
        Err(SignatureError::Memory) => Err(MessageError::Memory),
        Err(_) => Err(MessageError::Bad { rule: rule::BODY }),
    }
}

/// The values of a body that has these types.
fn read_body(
    alloc: Global,
    endian: Endian,
    bytes: &[u8],
    types: &[WireType],
) -> Result<List<Value>, MessageError>
    ensures { IsReadBody endian bytes.now types.now result }
{
    let mut values = List::new(alloc);
    let mut next = 0;
    for kind in types {
        match read_value(alloc, endian, bytes, next, kind) {
            Ok(read) => {
                values.push(read.value)?;
                next = read.next;
            }
            Err(error) => return Err(broken(rule::BODY, error)),
        }
    }
    if next < bytes.len() {
        return Err(MessageError::Bad { rule: rule::BODY });
    }
    Ok(values)
}

/// The body of a message, where its SIGNATURE may be there.
pub(crate) fn read_content(
    alloc: Global,
    endian: Endian,
    signature: Option<&Text>,
    bytes: &[u8],
) -> Result<Content, MessageError>
    ensures { IsReadContent endian (option_copied signature.entry) bytes.now result }
{
    match signature {
        Some(text) => {
            let types = match read_types(alloc, text.as_bytes()) {
                Ok(types) => types,
                Err(error) => return Err(error),
            };
            match read_body(alloc, endian, bytes, types.as_slice()) {
                Ok(values) => Ok(Content { types, values }),
                Err(error) => Err(error),
            }
        }
        None => {
            // Such a body breaks the rule that it be explained, and not the one that it be a
            // spelling.
            if !bytes.is_empty() {
                return Err(MessageError::Bad {
                    rule: rule::EXPLAINED,
                });
            }
            Ok(Content {
                types: List::new(alloc),
                values: List::new(alloc),
            })
        }
    }
}
