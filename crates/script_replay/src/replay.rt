//! Running a script.

ghost use Rattle.std.specs.Prelude.{◌≡◌, [], IfErr, OnOk};
ghost use Rattle.portal_steps.specs.Story.{state_first};
ghost use Rattle.script_replay.specs.Plays.{PlaysAll, PlayStops, status_of};
ghost use Rattle.script_replay.specs.Scenes.{run_settings};
ghost use Rattle.script_replay.specs.Steps.{MayPlay, scene};

use crate::connections::Connections;
use crate::error::LineError;
use crate::line::run_line;
use crate::start::ScriptPortal;
use crate::status::Status;
use portal_base::limits::Settings;
use portal_base::outside::Sink;
use script_lines::script::ScriptLine;
use std::alloc::Global;

/// Runs the lines of a script in order. An error says how the run ended at one
/// that was not run.
pub fn run_lines<K: Sink>(
    alloc: Global,
    portal: &mut ScriptPortal,
    settings: &Settings,
    lines: &[ScriptLine],
    sink: &mut K,
) -> Result<(), Status>
    requires may { MayPlay [] portal.old [] lines.now }
    requires settings { settings.now ≡ run_settings }
    ensures opening { state_first portal.new.story ≡ state_first portal.old.story }
    ensures ok { OnOk result (PlaysAll portal.old portal.new lines.now (K.told sink.old)
        (K.told sink.new)) }
    ensures counts { OnOk result (K.faults sink.new ≡ K.faults sink.old) }
    ensures err { IfErr result (PlayStops (scene portal.old []) lines.now (K.told sink.old)
        (K.faults sink.old) (K.told sink.new) (K.faults sink.new)) }
{
    let mut connections = Connections::new(alloc);
    for line in lines {
        match run_line(alloc, portal, &mut connections, settings, line, sink) {
            Ok(()) => {}
            Err(error) => return Err(status_of(error)),
        }
    }
    Ok(())
}

/// How a run ends of which a line is not run.
fn status_of(error: LineError) -> Status
    ensures { result ≡ status_of error }
{
    match error {
        LineError::WriteFault => Status::WriteFault,
        LineError::Memory => Status::Memory,
    }
}
