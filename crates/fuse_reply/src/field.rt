//! The fields of a frame, and their spelling.

ghost use Rattle.std.specs.Prelude.{◌≡◌, ◌++◌, length, IsOk, OnOk};
ghost use Rattle.byteorder.specs.Endian.{little_bytes};
ghost use Rattle.fuse_reply.specs.Fields.{spelled, spelled_field};
ghost use Rattle.fuse_reply.specs.Rooms.{HasRoom, TakesRoom};

use byteorder::{ByteOrder, LittleEndian};
use portal_base::memory::WantOfMemory;

/// A number of a frame, by its width.
#[derive(Clone, Copy, PartialEq, Eq)]
pub enum Field {
    /// Two bytes.
    Two(u16),
    /// Four bytes.
    Four(u32),
    /// Eight bytes.
    Eight(u64),
}

/// Puts the spelling of some fields, one after another, at the end. Where that has room no memory
/// is wanted.
pub fn put(bytes: &mut Vec<u8>, fields: &[Field]) -> Result<(), WantOfMemory>
    ensures items { OnOk result (bytes.new.items ≡ bytes.old.items ++ spelled fields.now) }
    ensures room { HasRoom bytes.old (length (spelled fields.now)) → IsOk result }
    ensures takes { TakesRoom bytes.old (length (spelled fields.now)) bytes.new }
{
    for field in fields {
        put_field(bytes, *field)?;
    }
    Ok(())
}

fn put_field(bytes: &mut Vec<u8>, field: Field) -> Result<(), WantOfMemory>
    ensures items { OnOk result (bytes.new.items ≡ bytes.old.items ++ spelled_field field) }
    ensures room { HasRoom bytes.old (length (spelled_field field)) → IsOk result }
    ensures takes { TakesRoom bytes.old (length (spelled_field field)) bytes.new }
{
    match field {
        Field::Two(number) => put_two(bytes, number),
        Field::Four(number) => put_four(bytes, number),
        Field::Eight(number) => put_eight(bytes, number),
    }
}

fn put_two(bytes: &mut Vec<u8>, number: u16) -> Result<(), WantOfMemory>
    ensures items { OnOk result (bytes.new.items ≡ bytes.old.items ++ little_bytes 2 number) }
    ensures room { HasRoom bytes.old (length (little_bytes 2 number)) → IsOk result }
    ensures takes { TakesRoom bytes.old (length (little_bytes 2 number)) bytes.new }
{
    let mut spelling = [0; 2];
    LittleEndian::write_u16(&mut spelling, number);
    put_bytes(bytes, &spelling)
}

fn put_four(bytes: &mut Vec<u8>, number: u32) -> Result<(), WantOfMemory>
    ensures items { OnOk result (bytes.new.items ≡ bytes.old.items ++ little_bytes 4 number) }
    ensures room { HasRoom bytes.old (length (little_bytes 4 number)) → IsOk result }
    ensures takes { TakesRoom bytes.old (length (little_bytes 4 number)) bytes.new }
{
    let mut spelling = [0; 4];
    LittleEndian::write_u32(&mut spelling, number);
    put_bytes(bytes, &spelling)
}

fn put_eight(bytes: &mut Vec<u8>, number: u64) -> Result<(), WantOfMemory>
    ensures items { OnOk result (bytes.new.items ≡ bytes.old.items ++ little_bytes 8 number) }
    ensures room { HasRoom bytes.old (length (little_bytes 8 number)) → IsOk result }
    ensures takes { TakesRoom bytes.old (length (little_bytes 8 number)) bytes.new }
{
    let mut spelling = [0; 8];
    LittleEndian::write_u64(&mut spelling, number);
    put_bytes(bytes, &spelling)
}

/// Puts bytes at the end. Where they have room no memory is wanted.
pub fn put_bytes(bytes: &mut Vec<u8>, more: &[u8]) -> Result<(), WantOfMemory>
    ensures items { OnOk result (bytes.new.items ≡ bytes.old.items ++ more.now) }
    ensures room { HasRoom bytes.old (length more.now) → IsOk result }
    ensures takes { TakesRoom bytes.old (length more.now) bytes.new }
{
    bytes.extend_from_slice(more)?;
    Ok(())
}
