//! The two parts of a text.

ghost use Rattle.std.specs.Prelude.{MatchOption};
ghost use Rattle.script_lines.specs.Reading.{CutsAt, IsFree};
ghost use Rattle.script_command.specs.Parting.{IsParted, IsUnparted};
ghost use Rattle.script_replay.specs.Texts.{line_feed};

/// The line that parts a text, without its line feed.
const PARTING: &[u8] = b"====";

/// What stands ahead of the first line `====`, and what stands behind it.
pub fn part(text: &[u8]) -> Option<(&[u8], &[u8])>
    ensures { MatchOption result (IsUnparted text.entry.now)
        (λ parts. IsParted text.entry.now parts.0.now parts.1.now) }
{
    let mut rest = text;
    while let Some((line, behind)) = cut_line(rest) {
        if line == PARTING {
            let ahead = text.len() - rest.len();
            return Some((&text[..ahead], behind));
        }
        rest = behind;
    }
    None
}

/// The first line, without its line feed, and what stands behind it.
fn cut_line(text: &[u8]) -> Option<(&[u8], &[u8])>
    ensures { MatchOption result (IsFree line_feed text.entry.now)
        (λ halves. CutsAt line_feed text.entry.now halves.0.now halves.1.now) }
{
    // A line is one with its line feed. `====` without one is the last line of the first script,
    // and parts nothing.
    let end = text.iter().position(|byte| *byte == b'\n')?;
    Some((&text[..end], &text[end + 1..]))
}
