//! Values that words make from the inside, one on top of the other.

use dbus_types::equal::is_byte;
use dbus_types::shared::Shared;
use dbus_types::signature::read_single;
use dbus_types::types::{Value, WireType};
use portal_base::boxed::Boxed;
use portal_base::list::{ByteList, List};
use portal_base::text::Text;
use std::alloc::Global;
use vector_lines::error::LineError;
use vector_lines::notation::{self, small_number};

/// The longest signature, in bytes.
const LONGEST: usize = 255;

/// The type that a word spells.
pub fn type_of(alloc: Global, word: &str) -> Result<WireType, LineError> {
    if word.len() > LONGEST {
        return Err(LineError::BadLine);
    }
    Ok(read_single(alloc, word.as_bytes())?)
}

/// The values that words leave, the last one made on top. `byte:N`, `bool:N`, `u32:N`, `text:T`,
/// `path:T` and `signature:T` make a value; `variant` puts the top one into a variant, `entry` the
/// top two into a dict entry, `struct:N` the top N into a struct, and `array:TYPE:N` the top N into
/// an array of this type.
pub fn made_by(alloc: Global, words: &str) -> Result<List<Value>, LineError> {
    let mut made = List::new(alloc);
    for word in words.split_whitespace() {
        put(alloc, &mut made, word)?;
    }
    Ok(made)
}

fn put(alloc: Global, made: &mut List<Value>, word: &str) -> Result<(), LineError> {
    let (kind, rest) = halves(word);
    let value = match kind {
        "variant" => Value::Variant(taken(alloc, made)?),
        "entry" => entry(alloc, made)?,
        "struct" => Value::Struct(taken_from(alloc, made, rest)?),
        "array" => array(alloc, made, rest)?,
        _ => leaf(alloc, kind, rest)?,
    };
    Ok(made.push(value)?)
}

/// What stands on each side of the colon.
fn halves(word: &str) -> (&str, &str) {
    word.split_once(':').unwrap_or((word, ""))
}

/// Takes the value on top.
fn taken(alloc: Global, made: &mut List<Value>) -> Result<Boxed<Value>, LineError> {
    match made.pop() {
        Some(value) => Ok(Boxed::new(alloc, value)?),
        None => Err(LineError::BadLine),
    }
}

/// Takes the values on top, of which there are to be so many.
fn taken_from(
    alloc: Global,
    made: &mut List<Value>,
    count: &str,
) -> Result<List<Value>, LineError> {
    let count = small_number(count)? as usize;
    let at = made.len().checked_sub(count).ok_or(LineError::BadLine)?;
    let mut values = List::new(alloc);
    for _ in 0..count {
        if at < made.len() {
            values.push(made.remove(at))?;
        }
    }
    Ok(values)
}

/// A dict entry of the top two.
fn entry(alloc: Global, made: &mut List<Value>) -> Result<Value, LineError> {
    let value = taken(alloc, made)?;
    match taken(alloc, made) {
        Ok(key) => Ok(Value::DictEntry { key, value }),
        Err(error) => {
            drop(value);
            Err(error)
        }
    }
}

/// An array of the top ones, packed where they are bytes.
fn array(alloc: Global, made: &mut List<Value>, words: &str) -> Result<Value, LineError> {
    let (kind, count) = halves(words);
    let items = taken_from(alloc, made, count)?;
    match type_of(alloc, kind) {
        Ok(WireType::Array(element)) => packed(alloc, element, items),
        _ => Err(LineError::BadLine),
    }
}

fn packed(
    alloc: Global,
    element: Shared<WireType>,
    items: List<Value>,
) -> Result<Value, LineError> {
    if !is_byte(element.get()) {
        return Ok(Value::Array { element, items });
    }
    match bytes_of(alloc, items.as_slice()) {
        Ok(Some(bytes)) => Ok(Value::Bytes(bytes)),
        Ok(None) => Ok(Value::Array { element, items }),
        Err(error) => Err(error),
    }
}

/// The bytes that values are, if they are bytes.
fn bytes_of(alloc: Global, values: &[Value]) -> Result<Option<ByteList>, LineError> {
    let mut bytes = List::new(alloc);
    for value in values {
        match value {
            Value::Byte(byte) => bytes.push(*byte)?,
            _ => return Ok(None),
        }
    }
    Ok(Some(bytes))
}

/// A value that holds no other.
fn leaf(alloc: Global, kind: &str, rest: &str) -> Result<Value, LineError> {
    match kind {
        "byte" => Ok(Value::Byte(byte(rest)?)),
        "bool" => Ok(Value::Bool(small_number(rest)? != 0)),
        "u32" => Ok(Value::U32(small_number(rest)?)),
        "text" => Ok(Value::Str(text(alloc, rest)?)),
        "path" => Ok(Value::ObjectPath(text(alloc, rest)?)),
        "signature" => Ok(Value::Signature(text(alloc, rest)?)),
        _ => Err(LineError::BadLine),
    }
}

/// A number of eight bits in decimal digits.
pub fn byte(word: &str) -> Result<u8, LineError> {
    word.parse::<u8>().map_err(|_| LineError::BadLine)
}

fn text(alloc: Global, word: &str) -> Result<Text, LineError> {
    let bytes = notation::text(alloc, word)?;
    let text = String::from_utf8_lossy(alloc, bytes.as_slice())?;
    Ok(Text::from_string(text))
}
