//! The lines that the server says.

ghost use Rattle.std.specs.Prelude.{◌≡◌, IfOk};
ghost use Rattle.dbus_auth.specs.Reply.{ok_line, data_line, rejected_line, error_line};

use portal_base::list::ByteList;
use portal_base::memory::WantOfMemory;
use std::alloc::Global;

/// `OK` and the server's GUID.
pub fn ok_line(alloc: Global, guid: &[u8; 16]) -> Result<ByteList, WantOfMemory>
    ensures { IfOk result (λ reply. reply ≡ ok_line guid.now) }
{
    let digits = hex::encode(alloc, guid.as_slice())?;
    let mut reply = ByteList::copied(alloc, b"OK ")?;
    reply.extend_from_slice(digits.as_bytes())?;
    reply.extend_from_slice(b"\r\n")?;
    Ok(reply)
}

/// `DATA`, which asks the client for its data.
pub fn data_line(alloc: Global) -> Result<ByteList, WantOfMemory>
    ensures { IfOk result (λ reply. reply ≡ data_line) }
{
    ByteList::copied(alloc, b"DATA\r\n")
}

/// `REJECTED` and the one mechanism that there is.
pub fn rejected_line(alloc: Global) -> Result<ByteList, WantOfMemory>
    ensures { IfOk result (λ reply. reply ≡ rejected_line) }
{
    ByteList::copied(alloc, b"REJECTED EXTERNAL\r\n")
}

/// `ERROR`, for a line that is not understood or has no place here.
pub fn error_line(alloc: Global) -> Result<ByteList, WantOfMemory>
    ensures { IfOk result (λ reply. reply ≡ error_line) }
{
    ByteList::copied(alloc, b"ERROR\r\n")
}
