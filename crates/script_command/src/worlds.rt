//! Two scripts, compared as an application sees their runs.

ghost use Rattle.std.specs.Prelude.{◌≡◌, ◌≤◌, ℕ, ◌<◌, ◌^◌, List, IfErr, IfOk, length};
ghost use Rattle.app_trace.specs.Told.{trace_told};
ghost use Rattle.portal_base.specs.Outside.{onto};
ghost use Rattle.script_lines.specs.Lines.{text_of};
ghost use Rattle.script_form.specs.Order.{IsRead, IsScript};
ghost use Rattle.script_command.specs.Inputs.{script_limit};
ghost use Rattle.script_command.specs.Runs.{Risen};
ghost use Rattle.script_command.specs.Worlds.{AreScripts, RunsCompare, Compares, IsTraceIn, OneRefused};
ghost use Rattle.script_command.specs.Worlds.{PartsRefused, ScriptsCompare, Tells, TextRefused};
ghost use Rattle.script_command.specs.Worlds.{number_behind as number_in_text};

use crate::compared::match_line;
use crate::parting::part;
use crate::world::trace_in;
use app_trace::{Trace, TraceMatch, same_trace};
use portal_base::memory::WantOfMemory;
use portal_base::names::AppId;
use portal_base::outside::{Sink, WriteAnswer};
use script_form::error::ScriptError;
use script_form::reader::read_script;
use script_lines::script::{Script, ScriptLine};
use script_replay::status::Status;
use std::alloc::Global;

/// Two scripts.
#[derive(Drop)]
struct TwoScripts {
    first: Script,
    second: Script,
}

/// Runs the two scripts of a text, one after the other, and writes how the traces
/// of an application in their histories compare.
pub fn worlds<K: Sink>(alloc: Global, app: &AppId, text: &[u8], sink: &mut K) -> Status
    requires { length text.now ≤ script_limit }
    ensures compares { (pieces : List (List ℕ)) × (K.told sink.new ≡ onto (K.told sink.old) pieces)
        × Compares app.now text.now pieces result }
    ensures risen { Risen result 0 0 (K.faults sink.old) (K.faults sink.new) }
{
    match read_two(alloc, text) {
        Ok(scripts) => compare_once(alloc, app, scripts, sink),
        Err(ScriptError::AtLine(line)) => Status::ScriptFault { line },
        Err(ScriptError::Memory) => Status::Memory,
    }
}

// ---- reading

/// The two scripts of a text.
fn read_two(alloc: Global, text: &[u8]) -> Result<TwoScripts, ScriptError>
    requires { length text.now ≤ script_limit }
    ensures ok { IfOk result (λ two. AreScripts text.now two.first.lines two.second.lines) }
    ensures short_first { IfOk result (λ two. length (text_of two.first.lines) ≤ script_limit) }
    ensures short_second { IfOk result (λ two. length (text_of two.second.lines) ≤ script_limit) }
    ensures err { IfErr result (TextRefused text.now) }
{
    match part(text) {
        Some((first, second)) => read_parts(alloc, first, second),
        None => Err(refused_alone(alloc, text)),
    }
}

/// The two scripts that these texts are.
fn read_parts(alloc: Global, first: &[u8], second: &[u8]) -> Result<TwoScripts, ScriptError>
    requires short_first { length first.now ≤ script_limit }
    requires short_second { length second.now ≤ script_limit }
    ensures first { IfOk result (λ two. IsRead first.now two.first.lines) }
    ensures second { IfOk result (λ two. IsRead second.now two.second.lines) }
    ensures err { IfErr result (PartsRefused first.now second.now) }
{
    let first = read_script(alloc, first)?;
    match read_script(alloc, second) {
        Ok(second) => Ok(TwoScripts { first, second }),
        Err(ScriptError::AtLine(line)) => {
            let line = number_behind(first.lines.as_slice(), line);
            drop(first);
            Err(ScriptError::AtLine(line))
        }
        Err(ScriptError::Memory) => {
            drop(first);
            Err(ScriptError::Memory)
        }
    }
}

/// What is refused of a text without the second script: the first line that is none
/// of a script, or the line behind the last.
fn refused_alone(alloc: Global, text: &[u8]) -> ScriptError
    requires { length text.now ≤ script_limit }
    ensures { OneRefused text.now result }
{
    match read_script(alloc, text) {
        Ok(script) => ScriptError::AtLine(script.lines.len() as u64 + 1),
        Err(error) => error,
    }
}

/// The number in the whole text of a line of the second script.
fn number_behind(first: &[ScriptLine], line: u64) -> u64
    requires { number_in_text first.now line < 2 ^ 64 }
    ensures { result ≡ number_in_text first.now line }
{
    first.len() as u64 + 1 + line
}

// ---- running

/// Runs two scripts, which are gone then.
fn compare_once<K: Sink>(alloc: Global, app: &AppId, scripts: TwoScripts, sink: &mut K) -> Status
    requires first { IsScript scripts.first.lines }
    requires second { IsScript scripts.second.lines }
    requires short_first { length (text_of scripts.first.lines) ≤ script_limit }
    requires short_second { length (text_of scripts.second.lines) ≤ script_limit }
    ensures compares { (pieces : List (List ℕ)) × (K.told sink.new ≡ onto (K.told sink.old) pieces)
        × ScriptsCompare app.now scripts.first.lines scripts.second.lines pieces result }
    ensures risen { Risen result 0 0 (K.faults sink.old) (K.faults sink.new) }
{
    compare(alloc, app, &scripts, sink)
}

/// Runs two scripts, and writes how the traces of an application compare.
fn compare<K: Sink>(alloc: Global, app: &AppId, scripts: &TwoScripts, sink: &mut K) -> Status
    requires first { IsScript scripts.now.first.lines }
    requires second { IsScript scripts.now.second.lines }
    requires short_first { length (text_of scripts.now.first.lines) ≤ script_limit }
    requires short_second { length (text_of scripts.now.second.lines) ≤ script_limit }
    ensures compares { (pieces : List (List ℕ)) × (K.told sink.new ≡ onto (K.told sink.old) pieces)
        × ScriptsCompare app.now scripts.now.first.lines scripts.now.second.lines pieces result }
    ensures risen { Risen result 0 0 (K.faults sink.old) (K.faults sink.new) }
{
    match traces_compared(alloc, app, scripts) {
        Ok(found) => tell(alloc, found, sink),
        Err(WantOfMemory) => Status::Memory,
    }
}

/// Runs two scripts, and says how the traces of an application compare.
fn traces_compared(
    alloc: Global,
    app: &AppId,
    scripts: &TwoScripts,
) -> Result<TraceMatch, WantOfMemory>
    requires first { IsScript scripts.now.first.lines }
    requires second { IsScript scripts.now.second.lines }
    requires short_first { length (text_of scripts.now.first.lines) ≤ script_limit }
    requires short_second { length (text_of scripts.now.second.lines) ≤ script_limit }
    ensures { IfOk result
        (RunsCompare app.now scripts.now.first.lines scripts.now.second.lines) }
{
    let first = trace_in(alloc, app, &scripts.first)?;
    let found = compared_with(alloc, app, &first, scripts);
    drop(first);
    found
}

/// Runs the second script, and compares with the trace in the first.
fn compared_with(
    alloc: Global,
    app: &AppId,
    first: &Trace,
    scripts: &TwoScripts,
) -> Result<TraceMatch, WantOfMemory>
    requires trace { IsTraceIn app.now scripts.now.first.lines (trace_told first.now) }
    requires second { IsScript scripts.now.second.lines }
    requires short { length (text_of scripts.now.second.lines) ≤ script_limit }
    ensures { IfOk result
        (RunsCompare app.now scripts.now.first.lines scripts.now.second.lines) }
{
    let second = trace_in(alloc, app, &scripts.second)?;
    let found = same_trace(first, &second);
    drop(second);
    Ok(found)
}

/// Writes how traces compare.
fn tell<K: Sink>(alloc: Global, found: TraceMatch, sink: &mut K) -> Status
    ensures tells { (pieces : List (List ℕ)) × (K.told sink.new ≡ onto (K.told sink.old) pieces)
        × Tells found pieces result }
    ensures risen { Risen result 0 0 (K.faults sink.old) (K.faults sink.new) }
{
    let Ok(line) = match_line(alloc, found) else {
        return Status::Memory;
    };
    match sink.write(line.as_slice()) {
        WriteAnswer::Done => Status::Done,
        WriteAnswer::Failed => Status::WriteFault,
    }
}
