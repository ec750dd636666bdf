//! Where a frame ends, and the number that its reply carries.

ghost use Rattle.std.specs.Prelude.{◌≡◌, ◌+◌, ◌≤◌, drop, length};
ghost use Rattle.fuse_wire.specs.Frames.{header_len, split_of, header_of, number_at};

use byteorder::{ByteOrder, LittleEndian};
use portal_base::split::Split;

/// The length of `fuse_in_header`, in bytes.
pub const HEADER_LEN: usize = 40;

/// The longest frame that is taken, in bytes: a header, the body of a write and
/// the 128 KiB that it may carry, rounded up to a page.
pub const LONGEST: u32 = 135_168;

/// The rule that a frame breaks whose stated length is below that of a header
/// or above the longest.
pub const LENGTH_RULE: u32 = 14;

/// What stands at the front of a stream of frames.
pub fn split(bytes: &[u8]) -> Split
    ensures { result ≡ split_of bytes.now }
{
    if bytes.len() < HEADER_LEN {
        return Split::More;
    }
    let len = u32_at(bytes, 0);
    if (len as usize) < HEADER_LEN || len > LONGEST {
        return Split::Bad { rule: LENGTH_RULE };
    }
    let len = len as usize;
    if bytes.len() < len {
        Split::More
    } else {
        Split::Whole { len }
    }
}

/// The header of a frame: the fields of `fuse_in_header` that requests are told
/// by, in their order.
#[derive(Clone, Copy, PartialEq, Eq)]
pub struct InHeader {
    /// The length of the whole frame.
    pub len: u32,
    /// What is asked.
    pub opcode: u32,
    /// The number that the reply has to carry.
    pub unique: u64,
    /// The node that is asked of.
    pub nodeid: u64,
    /// The user that asks.
    pub uid: u32,
    /// The user's group.
    pub gid: u32,
    /// The process that asks.
    pub pid: u32,
}

/// Reads the header of a frame.
pub fn header_of(frame: &[u8]) -> InHeader
    requires { header_len ≤ length frame.now }
    ensures { result ≡ header_of frame.now }
{
    InHeader {
        len: u32_at(frame, 0),
        opcode: u32_at(frame, 4),
        unique: u64_at(frame, 8),
        nodeid: u64_at(frame, 16),
        uid: u32_at(frame, 24),
        gid: u32_at(frame, 28),
        pid: u32_at(frame, 32),
    }
}

/// The number that a frame's reply has to carry.
pub fn unique_of(frame: &[u8]) -> u64
    requires { header_len ≤ length frame.now }
    ensures { result ≡ (header_of frame.now).unique }
{
    u64_at(frame, 8)
}

/// The number in the four bytes at an offset.
pub fn u32_at(bytes: &[u8], at: usize) -> u32
    requires { at + 4 ≤ length bytes.now }
    ensures { result ≡ number_at at 4 bytes.now }
{
    LittleEndian::read_u32(&bytes[at..])
}

/// The number in the eight bytes at an offset.
pub fn u64_at(bytes: &[u8], at: usize) -> u64
    requires { at + 8 ≤ length bytes.now }
    ensures { result ≡ number_at at 8 bytes.now }
{
    LittleEndian::read_u64(&bytes[at..])
}

/// The bytes from an offset on.
pub fn behind(bytes: &[u8], at: usize) -> &[u8]
    requires { at ≤ length bytes.now }
    ensures { result.now ≡ drop at bytes.now }
{
    &bytes[at..]
}
