//! FUSE_INIT: what both sides of a connection speak.

ghost use Rattle.std.specs.Prelude.{◌≡◌};
ghost use Rattle.fuse_wire.specs.Init.{init_answer, init_ask, is_too_old};

use crate::frame::u32_at;
use portal_model::errno::EPROTO;
use portal_model::reply::NodeAnswer;

/// The major version of the protocol that is spoken.
const FUSE_KERNEL_VERSION: u32 = 7;
/// Its minor version.
const FUSE_KERNEL_MINOR_VERSION: u32 = 31;
/// The least minor version that is spoken, whose `fuse_init_out` is the first
/// of 64 bytes.
const LEAST_MINOR_VERSION: u32 = 23;

/// FUSE_ATOMIC_O_TRUNC: a file is opened and emptied by one request.
const FUSE_ATOMIC_O_TRUNC: u32 = 8;
/// FUSE_BIG_WRITES: a write carries more than a page.
const FUSE_BIG_WRITES: u32 = 32;
// FUSE_EXPORT_SUPPORT is not among them: so `.` and `..` are no names to look up.
/// The abilities that are granted, where they are asked for.
const GRANTED_FLAGS: u32 = FUSE_ATOMIC_O_TRUNC | FUSE_BIG_WRITES;

/// How much is read ahead at most, in bytes.
const MAX_READAHEAD: u32 = 131_072;
/// How many requests may wait that nobody waits for.
const MAX_BACKGROUND: u16 = 16;
/// With how many of them the connection counts as congested.
const CONGESTION_THRESHOLD: u16 = 12;
/// How much is written at most, in bytes.
const MAX_WRITE: u32 = 131_072;
/// The unit of moments, in nanoseconds.
const TIME_GRAN: u32 = 1;

/// The length of `fuse_init_in`.
const INIT_IN_LEN: usize = 16;

/// What a kernel asks for: the fields of `fuse_init_in`.
#[derive(Clone, Copy, PartialEq, Eq)]
pub struct InitIn {
    /// The major version that it speaks.
    pub major: u32,
    /// The minor version.
    pub minor: u32,
    /// How much it would read ahead, in bytes.
    pub max_readahead: u32,
    /// What it is able to do.
    pub flags: u32,
}

/// What a FUSE_INIT with this body is answered, or `None` where the body is too
/// short. What stands behind the struct is not looked at.
pub fn init(body: &[u8]) -> Option<NodeAnswer>
    ensures { result ≡ init_ask body.now }
{
    // Of all bodies this one alone may be longer than its struct, which newer kernels make longer.
    if body.len() < INIT_IN_LEN {
        return None;
    }
    Some(init_answer(InitIn {
        major: u32_at(body, 0),
        minor: u32_at(body, 4),
        max_readahead: u32_at(body, 8),
        flags: u32_at(body, 12),
    }))
}

/// What is spoken with a kernel that asks for this. One of a later major
/// version is told the own version alone, and asks again.
fn init_answer(asked: InitIn) -> NodeAnswer
    ensures { result ≡ init_answer asked }
{
    if is_too_old(asked) {
        return NodeAnswer::Error { errno: EPROTO };
    }
    if asked.major > FUSE_KERNEL_VERSION {
        return NodeAnswer::Init {
            major: FUSE_KERNEL_VERSION,
            minor: FUSE_KERNEL_MINOR_VERSION,
            readahead: 0,
            flags: 0,
            background: 0,
            congestion: 0,
            max_write: 0,
            time_gran: 0,
        };
    }
    NodeAnswer::Init {
        major: FUSE_KERNEL_VERSION,
        minor: FUSE_KERNEL_MINOR_VERSION,
        readahead: asked.max_readahead.min(MAX_READAHEAD),
        flags: asked.flags & GRANTED_FLAGS,
        background: MAX_BACKGROUND,
        congestion: CONGESTION_THRESHOLD,
        max_write: MAX_WRITE,
        time_gran: TIME_GRAN,
    }
}

fn is_too_old(asked: InitIn) -> bool
    ensures { result ≡ is_too_old asked }
{
    asked.major < FUSE_KERNEL_VERSION
        || (asked.major == FUSE_KERNEL_VERSION && asked.minor < LEAST_MINOR_VERSION)
}
