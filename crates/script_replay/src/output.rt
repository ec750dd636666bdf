//! The lines of the output.

ghost use Rattle.std.specs.Prelude.{◌≡◌, IfOk, None};
ghost use Rattle.script_replay.specs.Texts.{out_line as line_of_piece, end_line as line_of_ending};
ghost use Rattle.script_replay.specs.Texts.{ending_words};

use portal_base::list::{ByteList, List};
use portal_base::memory::WantOfMemory;
use portal_base::outside::{Sink, WriteAnswer};
use session::served::Served;
use std::alloc::Global;

/// A sink that takes all, and keeps nothing.
#[derive(Drop)]
pub struct NoSink;

impl Sink for NoSink {
    ghost told = { λ _. None };

    ghost faults = { λ _. 0 };

    fn write(&mut self, _bytes: &[u8]) -> WriteAnswer {
        WriteAnswer::Done
    }
}

/// The line `out N HEX` of a piece that is written on a connection.
pub fn out_line(alloc: Global, seat: u32, piece: &[u8]) -> Result<ByteList, WantOfMemory>
    ensures { IfOk result (λ line. line ≡ line_of_piece seat piece.now) }
{
    let mut line = List::new(alloc);
    let number = format!(in alloc; "{seat}")?;
    let digits = hex::encode(alloc, piece)?;
    line.extend_from_slice(b"out ")?;
    line.extend_from_slice(number.as_bytes())?;
    line.extend_from_slice(b" ")?;
    line.extend_from_slice(digits.as_bytes())?;
    line.extend_from_slice(b"\n")?;
    Ok(line)
}

/// The line `end N ..` of a connection that ended so. No connection of a script
/// ends otherwise than between items, inside one, at one that breaks a rule or
/// at a line that is too long; of another ending nothing is said.
pub fn end_line(alloc: Global, seat: u32, served: Served) -> Result<ByteList, WantOfMemory>
    ensures { IfOk result (λ line. line ≡ line_of_ending seat served) }
{
    let mut line = List::new(alloc);
    let number = format!(in alloc; "{seat}")?;
    let words = ending(alloc, served)?;
    line.extend_from_slice(b"end ")?;
    line.extend_from_slice(number.as_bytes())?;
    line.extend_from_slice(b" ")?;
    line.extend_from_slice(words.as_slice())?;
    line.extend_from_slice(b"\n")?;
    Ok(line)
}

/// How a connection ended, in words.
fn ending(alloc: Global, served: Served) -> Result<ByteList, WantOfMemory>
    ensures { IfOk result (λ words. words ≡ ending_words served) }
{
    let text = match served {
        Served::Ended => format!(in alloc; "ended")?,
        Served::Cut { rest } => format!(in alloc; "cut {rest}")?,
        Served::Malformed { at, rule } => format!(in alloc; "malformed {at} {rule}")?,
        Served::LineTooLong { at } => format!(in alloc; "long {at}")?,
        _ => String::new(alloc),
    };
    Ok(List::from_vec(text.into_bytes()))
}
