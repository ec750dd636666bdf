//! The data of an entry of the permission store.

ghost use Rattle.std.specs.Prelude.{◌≡◌, IfOk};
ghost use Rattle.record_keeper.specs.Reading.{ReadsDatum};

use dbus_marshal::error::ReadError;
use dbus_marshal::read::read_value;
use dbus_types::types::{Endian, Value, WireType};
use portal_base::memory::WantOfMemory;
use portal_model::datum::holds_handle;
use std::alloc::Global;

/// The variant whose whole spelling the bytes are, with the lowest byte of
/// each number first; `None` where they are none, or it holds a handle.
pub fn read_datum(alloc: Global, bytes: &[u8]) -> Result<Option<Value>, WantOfMemory>
    ensures { IfOk result (λ read. ReadsDatum bytes.now read) }
{
    let read = match read_value(alloc, Endian::Little, bytes, 0, &WireType::Variant) {
        Ok(read) => read,
        Err(error) => {
            return match error {
                ReadError::Memory => Err(WantOfMemory),
                _ => Ok(None),
            };
        }
    };
    if read.next != bytes.len() || holds_handle(&read.value) {
        return Ok(None);
    }
    Ok(Some(read.value))
}
