//! The load.

ghost use Rattle.std.specs.Prelude.{◌≡◌, ◌≤◌, ◌<◌, IfOk};
ghost use Rattle.portal_load.specs.Lines.{bytes_of, line_of, load_of, most_requests, seat_of};

use crate::ahead::{HOST_SEAT, lines_ahead};
use crate::call::call_asked;
use crate::draw::{Asked, Draw, FIRST, draw_of, next};
use crate::frame::frame_asked;
use portal_base::list::ByteList;
use portal_base::memory::WantOfMemory;
use script_lines::script::{Script, ScriptLine};
use std::alloc::Global;

/// A script of requests.
#[derive(Drop)]
pub struct Load {
    /// Its lines. Each request has one, and all stand at the end.
    pub script: Script,
    /// How many requests there are.
    pub requests: u32,
}

/// The load of so many requests, of which there may be 100,000.
pub fn generate(alloc: Global, count: u32) -> Result<Load, WantOfMemory>
    requires some { 1 ≤ count }
    requires most { count ≤ most_requests }
    ensures { IfOk result (λ load. load ≡ load_of count) }
{
    let mut lines = lines_ahead(alloc)?;
    let mut number = FIRST;
    for before in 0..count {
        number = next(number);
        let draw = draw_of((number >> 32) as u32);
        lines.push(line_of(alloc, before + 1, draw)?)?;
    }
    Ok(Load {
        script: Script { lines },
        requests: count,
    })
}

/// The line of a request.
fn line_of(alloc: Global, request: u32, draw: Draw) -> Result<ScriptLine, WantOfMemory>
    requires app { draw.app < 4 }
    requires place { draw.place < 1024 }
    ensures { IfOk result (λ line. line ≡ line_of request draw) }
{
    Ok(ScriptLine::Data {
        seat: seat_of(draw),
        bytes: bytes_of(alloc, request, draw)?,
    })
}

/// The connection of a request.
fn seat_of(draw: Draw) -> u32
    requires { draw.app < 4 }
    ensures { result ≡ seat_of draw.asked draw }
{
    match draw.asked {
        Asked::Rights => HOST_SEAT,
        _ => draw.app + 1,
    }
}

/// The bytes of a request.
fn bytes_of(alloc: Global, request: u32, draw: Draw) -> Result<ByteList, WantOfMemory>
    requires { draw.place < 1024 }
    ensures { IfOk result (λ bytes. bytes ≡ bytes_of draw.asked request draw) }
{
    match draw.asked {
        Asked::Rights => call_asked(alloc, request, draw),
        _ => frame_asked(alloc, request, draw),
    }
}
