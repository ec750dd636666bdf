//! How a stream is cut into items.

ghost use Rattle.std.specs.Prelude.{◌≡◌, ◌+◌, ◌≤◌, length, take, None, Option};
ghost use Rattle.session.specs.Cuts.{Cuts, first_phase, zero_byte_cut, line_cut, cut_of, line_len};
ghost use Rattle.session.specs.Cuts.{no_item};
ghost use Rattle.session.specs.declared.served.Stop.TheVariants as stop;

use crate::parts::{behind, front};
use crate::served::Stop;
use dbus_auth::{Auth, LONGEST_LINE};
use memchr::memmem;
use portal_base::split::Split;
use portal_base::who::Kind;

/// What is due next on a stream.
#[derive(Debug, Drop)]
pub enum Phase {
    /// The zero byte that opens a bus connection.
    ZeroByte,
    /// A line of the handshake.
    Handshake(Auth),
    /// A message.
    Messages,
    /// A frame.
    Frames,
}

/// The rule that the first byte of a bus connection breaks if it isn't 0.
pub const ZERO_BYTE_RULE: u32 = 12;

/// What ends a line of the handshake (D-Bus Specification, "Authentication
/// Protocol", "Protocol Overview").
pub const CR_LF: [u8; 2] = [b'\r', b'\n'];

/// What is due first on a connection of a kind.
pub fn first_phase(kind: Kind) -> Phase
    ensures { result ≡ first_phase kind }
{
    match kind {
        Kind::Bus => Phase::ZeroByte,
        Kind::Mount => Phase::Frames,
    }
}

/// The length of the whole item at the front of a stream, in bytes, or what stands
/// there in its place.
///
/// Its first `seen` bytes were too few for an item. They aren't searched again.
pub fn next_cut(phase: &Phase, bytes: &[u8], seen: usize) -> Result<usize, Stop>
    requires within { seen ≤ length bytes.now }
    requires too_few { Cuts phase.now (take seen bytes.now) (no_item stop.More) }
    ensures { Cuts phase.now bytes.now result }
{
    match phase {
        Phase::ZeroByte => cut_zero_byte(bytes),
        Phase::Handshake(_) => cut_line(bytes, seen),
        Phase::Messages => cut_of(dbus_message::split::split(bytes)),
        Phase::Frames => cut_of(fuse_wire::frame::split(bytes)),
    }
}

fn cut_of(split: Split) -> Result<usize, Stop>
    ensures { result ≡ cut_of split }
{
    match split {
        Split::More => Err(Stop::More),
        Split::Whole { len } => Ok(len),
        Split::Bad { rule } => Err(Stop::Bad { rule }),
    }
}

fn cut_zero_byte(bytes: &[u8]) -> Result<usize, Stop>
    ensures { result ≡ zero_byte_cut bytes.now }
{
    match bytes {
        [] => Err(Stop::More),
        [0, ..] => Ok(1),
        _ => Err(Stop::Bad {
            rule: ZERO_BYTE_RULE,
        }),
    }
}

fn cut_line(bytes: &[u8], seen: usize) -> Result<usize, Stop>
    requires within { seen ≤ length bytes.now }
    requires too_few { no_item stop.More ≡ line_cut (take seen bytes.now) }
    ensures { result ≡ line_cut bytes.now }
{
    match line_len(front(bytes, bytes.len().min(LONGEST_LINE)), seen) {
        Some(len) => Ok(len),
        None if bytes.len() < LONGEST_LINE => Err(Stop::More),
        None => Err(Stop::TooLong),
    }
}

/// The length of the first line, with its CR LF. No line ends in the first
/// `seen` bytes; the last of them may be its CR.
fn line_len(bytes: &[u8], seen: usize) -> Option<usize>
    requires within { seen ≤ length bytes.now }
    requires none { line_len (take seen bytes.now) ≡ None }
    ensures { result ≡ line_len bytes.now }
{
    let from = seen.saturating_sub(1);
    match memmem::find(behind(bytes, from), &CR_LF) {
        Some(at) => Some(from + at + CR_LF.len()),
        None => None,
    }
}
