//! The run of one script, as an application sees it.

ghost use Rattle.std.specs.Prelude.{◌≤◌, IfOk, OnOk, length};
ghost use Rattle.app_trace.specs.Told.{trace_told};
ghost use Rattle.script_lines.specs.Lines.{text_of};
ghost use Rattle.script_form.specs.Order.{IsScript};
ghost use Rattle.script_command.specs.Inputs.{script_limit};
ghost use Rattle.script_replay.specs.Started.{StartsScript};
ghost use Rattle.script_command.specs.Worlds.{IsTraceIn, RanAt};

use crate::opening::opening_over_tree;
use app_trace::Trace;
use history_trace::trace_of;
use portal_base::memory::WantOfMemory;
use portal_base::names::AppId;
use script_lines::script::Script;
use script_replay::output::NoSink;
use script_replay::replay::run_lines;
use script_replay::settings::settings;
use script_replay::start::{ScriptPortal, start};
use std::alloc::Global;

/// The trace of an application in the history of a script, which is run. Its output
/// is dropped.
pub fn trace_in(alloc: Global, app: &AppId, script: &Script) -> Result<Trace, WantOfMemory>
    requires script { IsScript script.now.lines }
    requires short { length (text_of script.now.lines) ≤ script_limit }
    ensures { IfOk result (λ trace. IsTraceIn app.now script.now.lines (trace_told trace)) }
{
    match start(alloc, script) {
        Ok(portal) => trace_once(alloc, app, portal, script),
        Err(WantOfMemory) => Err(WantOfMemory),
    }
}

/// The trace over the portal that a script opens, which is gone then.
fn trace_once(
    alloc: Global,
    app: &AppId,
    portal: ScriptPortal,
    script: &Script,
) -> Result<Trace, WantOfMemory>
    requires starts { StartsScript script.now.lines portal }
    requires script { IsScript script.now.lines }
    requires short { length (text_of script.now.lines) ≤ script_limit }
    ensures { IfOk result (λ trace. IsTraceIn app.now script.now.lines (trace_told trace)) }
{
    let mut portal = portal;
    trace_over(alloc, app, &mut portal, script)
}

/// The trace over the portal that a script opens.
fn trace_over(
    alloc: Global,
    app: &AppId,
    portal: &mut ScriptPortal,
    script: &Script,
) -> Result<Trace, WantOfMemory>
    requires starts { StartsScript script.now.lines portal.old }
    requires script { IsScript script.now.lines }
    requires short { length (text_of script.now.lines) ≤ script_limit }
    ensures { IfOk result (λ trace. IsTraceIn app.now script.now.lines (trace_told trace)) }
{
    run_quietly(alloc, portal, script)?;
    trace_at(alloc, app, portal, script)
}

/// Runs a script over the portal that it opens. Its output is dropped.
fn run_quietly(
    alloc: Global,
    portal: &mut ScriptPortal,
    script: &Script,
) -> Result<(), WantOfMemory>
    requires starts { StartsScript script.now.lines portal.old }
    requires script { IsScript script.now.lines }
    requires short { length (text_of script.now.lines) ≤ script_limit }
    ensures { OnOk result (RanAt script.now.lines portal.new) }
{
    let settings = settings(alloc)?;
    let lines = script.lines.as_slice();
    match run_lines(alloc, portal, &settings, lines, &mut NoSink) {
        Ok(()) => Ok(()),
        // No write fails, so there was no memory.
        Err(_) => Err(WantOfMemory),
    }
}

/// The trace in the history of a portal at which a script was run.
fn trace_at(
    alloc: Global,
    app: &AppId,
    portal: &ScriptPortal,
    script: &Script,
) -> Result<Trace, WantOfMemory>
    requires ran { RanAt script.now.lines portal.now }
    requires script { IsScript script.now.lines }
    ensures { IfOk result (λ trace. IsTraceIn app.now script.now.lines (trace_told trace)) }
{
    let opening = opening_over_tree(alloc, script)?;
    let trace = trace_of(alloc, &opening, app, portal.history());
    drop(opening);
    trace
}
