//! Random streams, each of which is served and polled.

use crate::client::{Line, Manner, line_of, words_of};
use crate::cuts::is_same;
use crate::dice::Dice;
use crate::served::served;
use crate::steps::Steps;
use futures::test::MockTask;
use portal_base::list::{ByteList, List};
use std::alloc::Global;
use vector_lines::error::VectorError;
use vector_lines::notation::{bytes, cut, number};
use vector_lines::output::Output;

/// `alike SEED COUNT WHO KIND OPTIONS BYTES | ITEM | ITEM ..`: how many of so many random
/// streams come to the same, each served by `serve_connection` and polled in a random
/// manner. A stream is the bytes and up to seven of the items behind them; now and then its
/// end is missing, or one of its bytes is another. The option is `limit`, as `Words` says.
pub fn alike(task: &MockTask, alloc: Global, rest: &str) -> Result<Output, VectorError> {
    let (seed, rest) = cut(rest);
    let (count, rest) = cut(rest);
    let mut dice = Dice::new(number(seed)?);
    let count = number(count)?;
    let (words, items) = rest.split_once('|').unwrap_or((rest, ""));
    let words = words_of(words);
    let bytes = bytes(alloc, words.bytes)?;
    let line = line_of(&words, bytes.as_slice())?;
    let alike = count_alike(task, alloc, &line, items, &mut dice, count)?;
    let mut out = Output::new(alloc);
    out.number(alike);
    out.text(" of ");
    out.number(count);
    out.text(" alike");
    Ok(out)
}

/// How many of so many streams come to the same.
fn count_alike(
    task: &MockTask,
    alloc: Global,
    line: &Line<'_>,
    items: &str,
    dice: &mut Dice,
    count: u64,
) -> Result<u64, VectorError> {
    let items = items_of(alloc, items)?;
    let mut alike = 0u64;
    for _ in 0..count {
        if is_next_alike(task, alloc, line, items.as_slice(), dice)? {
            alike = alike.saturating_add(1);
        }
    }
    Ok(alike)
}

/// The items of a line.
fn items_of(alloc: Global, words: &str) -> Result<List<ByteList>, VectorError> {
    let mut items = List::new(alloc);
    for item in words.split('|') {
        items.push(bytes(alloc, item)?)?;
    }
    Ok(items)
}

/// Whether the next stream comes to the same.
fn is_next_alike(
    task: &MockTask,
    alloc: Global,
    line: &Line<'_>,
    items: &[ByteList],
    dice: &mut Dice,
) -> Result<bool, VectorError> {
    let stream = stream(alloc, dice, line.bytes, items)?;
    let manner = any_manner(dice);
    is_stream_alike(task, alloc, line, stream.as_slice(), manner)
}

/// Whether the connection of a line comes to the same that gets these bytes, polled in this
/// manner.
fn is_stream_alike<'a>(
    task: &MockTask,
    alloc: Global,
    line: &'a Line<'a>,
    bytes: &'a [u8],
    manner: Manner<'a>,
) -> Result<bool, VectorError> {
    is_alike(task, alloc, &line.with(bytes, manner))
}

/// Whether a connection comes to the same, served and polled.
fn is_alike(task: &MockTask, alloc: Global, line: &Line<'_>) -> Result<bool, VectorError> {
    let waited = served(alloc, line)?;
    is_same(task, alloc, line, &waited)
}

/// A random stream.
fn stream(
    alloc: Global,
    dice: &mut Dice,
    front: &[u8],
    items: &[ByteList],
) -> Result<ByteList, VectorError> {
    let mut bytes = List::copied(alloc, front)?;
    for _ in 0..dice.below(8) {
        if let Some(item) = items.get(dice.below(items.len() as u64) as usize) {
            bytes.extend_from_slice(item.as_slice())?;
        }
    }
    broken(alloc, dice, bytes)
}

/// The bytes as they are, or without their end, or with another byte among them.
fn broken(alloc: Global, dice: &mut Dice, bytes: ByteList) -> Result<ByteList, VectorError> {
    let all = bytes.as_slice();
    let at = dice.below(all.len() as u64) as usize;
    let (front, back) = all.split_at(at.min(all.len()));
    match dice.below(4) {
        0 => Ok(List::copied(alloc, front)?),
        1 => spoiled(alloc, front, (dice.below(256) & 0xff) as u8, back),
        _ => Ok(bytes),
    }
}

/// The bytes in front, a byte, and those at the back but for the first.
fn spoiled(alloc: Global, front: &[u8], byte: u8, back: &[u8]) -> Result<ByteList, VectorError> {
    let mut bytes = List::copied(alloc, front)?;
    bytes.push(byte)?;
    if let [_, rest @ ..] = back {
        bytes.extend_from_slice(rest)?;
    }
    Ok(bytes)
}

/// A random manner. No call fails, and the desk isn't busy at each try, since it would
/// never answer.
fn any_manner<'a>(dice: &mut Dice) -> Manner<'a> {
    let busy = match dice.below(4) {
        0 => 0,
        every => every.saturating_add(1),
    };
    Manner {
        reads: any_steps(dice, 200),
        writes: any_steps(dice, 50),
        busy,
    }
}

/// Random steps.
fn any_steps<'a>(dice: &mut Dice, most: u64) -> Steps<'a> {
    let seed = dice.below(u64::MAX);
    Steps::Drawn(Dice::new(seed), dice.below(most).saturating_add(1))
}
