//! The flags of open(2), with which FUSE_OPEN and FUSE_CREATE open a file.

ghost use Rattle.std.specs.Prelude.{◌≡◌, ◌&&◌, not};
ghost use Rattle.portal_model.specs.Open.{file_handle, has_no_mode, mode_reads, mode_writes, opens_to_write, truncates};

use portal_base::files::FileName;
use portal_model::handle::Handle;
use portal_model::state::Document;

/// How many modes the two low bits of the flags (O_ACCMODE) tell apart.
const MODES: u32 = 4;
/// To read.
const O_RDONLY: u32 = 0;
/// To write.
const O_WRONLY: u32 = 1;
/// To do both.
const O_RDWR: u32 = 2;
/// The one that is none of these.
const NO_MODE: u32 = 3;
/// The bit of the flags that says that the file is cut to no bytes.
const O_TRUNC: u32 = 0o1000;

/// The file of a document that was opened with these flags, at a node.
pub fn file_handle(document: &Document, name: FileName, node: u64, flags: u32) -> Handle
    ensures { result ≡ file_handle document.now name node flags }
{
    Handle::File {
        name,
        node,
        document: document.id,
        strict: document.strict,
        read: mode_reads(flags),
        write: mode_writes(flags),
    }
}

/// Says whether the flags name no mode.
pub fn has_no_mode(flags: u32) -> bool
    ensures { result ≡ has_no_mode flags }
{
    flags % MODES == NO_MODE
}

/// Says whether a file is opened to read.
fn mode_reads(flags: u32) -> bool
    ensures { result ≡ mode_reads flags }
{
    matches!(flags % MODES, O_RDONLY | O_RDWR)
}

/// Says whether a file is opened to write.
fn mode_writes(flags: u32) -> bool
    ensures { result ≡ mode_writes flags }
{
    matches!(flags % MODES, O_WRONLY | O_RDWR)
}

/// Says whether a file is cut to no bytes.
pub fn truncates(flags: u32) -> bool
    ensures { result ≡ truncates flags }
{
    flags / O_TRUNC % 2 == 1
}

/// Says whether a file is opened to be changed.
pub fn opens_to_write(flags: u32) -> bool
    ensures { result ≡ opens_to_write flags }
{
    // POSIX leaves open what O_TRUNC does in a mode that reads: here it needs `write`, and makes
    // the file empty.
    mode_writes(flags) || truncates(flags)
}

/// Says whether a file is opened to be changed by one who may not write it.
pub fn is_denied(flags: u32, may_write: bool) -> bool
    ensures { result ≡ (opens_to_write flags && not may_write) }
{
    // Permissions are asked where a file is opened; of the requests that go by a handle only those
    // on a strict document ask again.
    opens_to_write(flags) && !may_write
}
