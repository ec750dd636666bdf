//! The reader of scripts.

ghost use Rattle.std.specs.Prelude.{◌≡◌, IfOk, IfErr, MatchOption};
ghost use Rattle.script_form.specs.Order.{IsRead, IsScript, NoneStands};
ghost use Rattle.script_form.specs.Faults.{IsRefused};
ghost use Rattle.script_form.specs.Preceding.{Tracks};
ghost use Rattle.script_form.specs.Next.{TakesLine};

use crate::error::ScriptError;
use crate::preceding::Preceding;
use portal_base::memory::WantOfMemory;
use script_lines::line::read_line;
use script_lines::script::Script;
use script_lines::words::cut;
use std::alloc::Global;

/// Reads a script.
///
/// A text is a script where it is lines of the ten forms, each with its line
/// feed, and each keeps the rules of lines beside those before it. Else the
/// error tells the number of the first line that doesn't.
pub fn read_script(alloc: Global, text: &[u8]) -> Result<Script, ScriptError>
    ensures read { IfOk result (λ script. IsRead text.now script.lines) }
    ensures refused { IfErr result (IsRefused text.now) }
{
    let mut preceding = Preceding::new(alloc)?;
    let mut rest = text;
    while !rest.is_empty() {
        let number = preceding.lines.as_slice().len() as u64 + 1;
        let Some(after) = read_next(alloc, &mut preceding, rest)? else {
            return Err(ScriptError::AtLine(number));
        };
        rest = after;
    }
    Ok(script_of(preceding))
}

/// The lines that were read.
fn script_of(preceding: Preceding) -> Script
    ensures { result.lines ≡ preceding.lines }
{
    let Preceding {
        lines,
        begun: _,
        numbers: _,
        documents: _,
        ids: _,
        keys: _,
        paths: _,
        named: _,
    } = preceding;
    Script { lines }
}

/// Takes the line at the front of a text that may stand behind those so far;
/// what is left behind it, or `None` where no such line is there, and nothing is
/// known of what is kept of the lines then.
fn read_next<'a>(
    alloc: Global,
    preceding: &mut Preceding,
    text: &'a [u8],
) -> Result<Option<&'a [u8]>, WantOfMemory>
    requires tracks { Tracks preceding.old }
    requires good { IsScript preceding.old.lines }
    ensures { IfOk result (λ after. MatchOption after
        (NoneStands preceding.old.lines text.entry.now)
        (λ a. TakesLine preceding.old.lines text.entry.now preceding.new.lines a.now
        × Tracks preceding.new)) }
{
    let Some((line, after)) = cut(text, b'\n') else {
        return Ok(None);
    };
    let Some(line) = read_line(alloc, line)? else {
        return Ok(None);
    };
    let allowed = preceding.allows(alloc, &line)?;
    if !allowed {
        return Ok(None);
    }
    preceding.push(alloc, line)?;
    if preceding.names_too_many() {
        return Ok(None);
    }
    Ok(Some(after))
}
