//! The limits of a line's portal.

ghost use Rattle.std.specs.Prelude.{◌<◌, ◌^◌, IfOk};

use crate::words::number_or;
use portal_base::limits::Limits;
use vector_lines::error::LineError;

/// `-`, or words with commas between: `history=N`, `documents=N`, `made=N`, `handles=N`,
/// `queued=N` and `bytes=N`.
pub fn limits_of(words: &str) -> Result<Limits, LineError>
    ensures made { IfOk result (λ limits. limits.made < 2 ^ 32) }
    ensures queued { IfOk result (λ limits. limits.queued < 2 ^ 32) }
{
    Ok(Limits {
        documents: limit(words, "documents=", 65_536)?,
        made: limit(words, "made=", 1_048_576)?,
        history: limit(words, "history=", 536_870_912)?,
        handles: limit(words, "handles=", 1_024)?,
        queued: limit(words, "queued=", 16)?,
        file_bytes: limit(words, "bytes=", 268_435_456)?,
    })
}

/// The number behind a key, or another where there is no such word.
fn limit(words: &str, key: &str, other: u32) -> Result<u64, LineError>
    ensures { IfOk result (λ limit. limit < 2 ^ 32) }
{
    Ok(u64::from(number_or(words, ',', key, other)?))
}
