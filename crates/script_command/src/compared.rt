//! The line of two runs that are compared.

ghost use Rattle.std.specs.Prelude.{◌≡◌, IfOk};
ghost use Rattle.script_command.specs.Worlds.{match_line as line_of_match};

use app_trace::TraceMatch;
use portal_base::list::{ByteList, List};
use portal_base::memory::WantOfMemory;
use std::alloc::Global;

/// The line that says how the traces of two runs compare.
pub fn match_line(alloc: Global, found: TraceMatch) -> Result<ByteList, WantOfMemory>
    ensures { IfOk result (λ line. line ≡ line_of_match found) }
{
    let text = match found {
        TraceMatch::Same => format!(in alloc; "same trace, same replies\n")?,
        TraceMatch::Opening => format!(in alloc; "opening views differ\n")?,
        TraceMatch::At(place) => format!(in alloc; "traces differ at {place}\n")?,
    };
    Ok(List::from_vec(text.into_bytes()))
}
