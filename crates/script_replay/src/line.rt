//! Running one line of a script.

ghost use Rattle.std.specs.Prelude.{◌≡◌, ◌≤◌, ◌<◌, [], ◌∷◌, ◌++◌, Some, map, true, IfErr, IfOk, OnOk};
ghost use Rattle.portal_base.specs.Outside.{onto};
ghost use Rattle.portal_steps.specs.Story.{state_first, state_now};
ghost use Rattle.portal_model.specs.declared.request.Request.{Request};
ghost use Rattle.portal_model.specs.Seated.{bound};
ghost use Rattle.session.specs.Sessions.{ending};
ghost use Rattle.script_replay.specs.Scenes.{run_settings};
ghost use Rattle.script_replay.specs.Seats.{Asked};
ghost use Rattle.script_replay.specs.Steps.{MayRun, Opens, Runs, Breaks, WritesShort, binding, scene};
ghost use Rattle.script_replay.specs.Texts.{out_line as line_of_piece, end_line as line_of_ending};

use crate::connections::Connections;
use crate::error::LineError;
use crate::output::{end_line, out_line};
use crate::seats::{begin, end, hear};
use crate::start::ScriptPortal;
use portal_base::limits::Settings;
use portal_base::list::{ByteList, List};
use portal_base::outside::{Sink, WriteAnswer};
use portal_base::who::{Kind, Who};
use script_lines::script::ScriptLine;
use session::session::Session;
use std::alloc::Global;

/// Runs a line: a connection is opened or closed at the portal, bytes come on
/// one, or its clock is set, and each line of output is written as one piece.
/// Where there is no memory, nothing is written.
pub fn run_line<K: Sink>(
    alloc: Global,
    portal: &mut ScriptPortal,
    connections: &mut Connections,
    settings: &Settings,
    line: &ScriptLine,
    sink: &mut K,
) -> Result<(), LineError>
    requires may { MayRun portal.old connections.old line.now }
    requires settings { settings.now ≡ run_settings }
    ensures opening { state_first portal.new.story ≡ state_first portal.old.story }
    ensures ok { OnOk result (Runs portal.old connections.old portal.new connections.new line.now
        (K.told sink.old) (K.told sink.new)) }
    ensures counts { OnOk result (K.faults sink.new ≡ K.faults sink.old) }
    ensures err { IfErr result (Breaks (scene portal.old connections.old) line.now (K.told sink.old)
        (K.faults sink.old) (K.told sink.new) (K.faults sink.new)) }
{
    match line {
        ScriptLine::File { .. } => Ok(()),
        ScriptLine::Doc { .. } => Ok(()),
        ScriptLine::Entry(_) => Ok(()),
        ScriptLine::Fail { .. } => Ok(()),
        ScriptLine::Word { .. } => Ok(()),
        ScriptLine::Now { moment } => {
            portal.set_clock(*moment);
            Ok(())
        }
        ScriptLine::Open { seat, kind, who } => {
            open(alloc, portal, connections, settings, *seat, *kind, who)
        }
        ScriptLine::Data { seat, bytes } => data(alloc, portal, connections, *seat, bytes, sink),
        ScriptLine::Close { seat } => close(alloc, portal, connections, *seat, sink),
    }
}

fn open(
    alloc: Global,
    portal: &mut ScriptPortal,
    connections: &mut Connections,
    settings: &Settings,
    seat: u32,
    kind: Kind,
    who: &Who,
) -> Result<(), LineError>
    requires may { MayRun portal.old connections.old (ScriptLine.Open seat kind who.now) }
    requires settings { settings.now ≡ run_settings }
    ensures opening { state_first portal.new.story ≡ state_first portal.old.story }
    ensures ok { OnOk result (Opens portal.old connections.old portal.new connections.new
        (ScriptLine.Open seat kind who.now)) }
    ensures err { IfErr result (λ e. e ≡ LineError.Memory) }
{
    let session = begin(alloc, portal, seat, who, kind, settings)?;
    connections.put(seat, session)?;
    Ok(())
}

fn data<K: Sink>(
    alloc: Global,
    portal: &mut ScriptPortal,
    connections: &mut Connections,
    seat: u32,
    bytes: &ByteList,
    sink: &mut K,
) -> Result<(), LineError>
    requires may { MayRun portal.old connections.old (ScriptLine.Data seat bytes.now) }
    ensures opening { state_first portal.new.story ≡ state_first portal.old.story }
    ensures ok { OnOk result (Runs portal.old connections.old portal.new connections.new
        (ScriptLine.Data seat bytes.now) (K.told sink.old) (K.told sink.new)) }
    ensures counts { OnOk result (K.faults sink.new ≡ K.faults sink.old) }
    ensures err { IfErr result (Breaks (scene portal.old connections.old)
        (ScriptLine.Data seat bytes.now) (K.told sink.old) (K.faults sink.old) (K.told sink.new)
        (K.faults sink.new)) }
{
    let mut session = match connections.take(seat) {
        Some(session) => session,
        // A connection may end by itself; what comes behind that is passed over, as no line of a
        // script may be faulty for what its bytes meant.
        None => return Ok(()),
    };
    // The output of a line is put into words before any of it is written: of a line at which there
    // is no memory nothing is.
    let heard = hear(alloc, portal, seat, &mut session, bytes.as_slice())?;
    let lines = out_lines(alloc, seat, heard.written.pieces().as_slice())?;
    if heard.is_over {
        let all = leave(alloc, portal, seat, session, lines)?;
        return write_lines(all.as_slice(), sink);
    }
    connections.put(seat, session)?;
    write_lines(lines.as_slice(), sink)
}

fn close<K: Sink>(
    alloc: Global,
    portal: &mut ScriptPortal,
    connections: &mut Connections,
    seat: u32,
    sink: &mut K,
) -> Result<(), LineError>
    requires may { MayRun portal.old connections.old (ScriptLine.Close seat) }
    ensures opening { state_first portal.new.story ≡ state_first portal.old.story }
    ensures ok { OnOk result (Runs portal.old connections.old portal.new connections.new
        (ScriptLine.Close seat) (K.told sink.old) (K.told sink.new)) }
    ensures counts { OnOk result (K.faults sink.new ≡ K.faults sink.old) }
    ensures err { IfErr result (Breaks (scene portal.old connections.old) (ScriptLine.Close seat)
        (K.told sink.old) (K.faults sink.old) (K.told sink.new) (K.faults sink.new)) }
{
    match connections.take(seat) {
        Some(session) => {
            let all = leave(alloc, portal, seat, session, List::new(alloc))?;
            write_lines(all.as_slice(), sink)
        }
        None => Ok(()),
    }
}

/// Closes the connection of a session, and puts how it ended behind lines of output.
fn leave(
    alloc: Global,
    portal: &mut ScriptPortal,
    seat: u32,
    session: Session,
    mut lines: List<ByteList>,
) -> Result<List<ByteList>, LineError>
    requires told { (state_first portal.old.story).told ≡ true }
    requires seat { 1 ≤ seat }
    requires open { bound (state_now portal.old.story) seat ≡ Some (binding session) }
    ensures opening { state_first portal.new.story ≡ state_first portal.old.story }
    ensures left { Asked portal.old portal.new seat (Request.Leave ∷ []) }
    ensures ok { IfOk result (λ all. all
        ≡ lines ++ line_of_ending seat (ending session.fed session.rest) ∷ []) }
    ensures err { IfErr result (λ e. e ≡ LineError.Memory) }
{
    let served = end(alloc, portal, seat, session);
    let line = end_line(alloc, seat, served)?;
    lines.push(line)?;
    Ok(lines)
}

/// A line of output for each piece.
fn out_lines(alloc: Global, seat: u32, pieces: &[ByteList]) -> Result<List<ByteList>, LineError>
    ensures ok { IfOk result (λ lines. lines ≡ map (line_of_piece seat) pieces.now) }
    ensures err { IfErr result (λ e. e ≡ LineError.Memory) }
{
    let mut lines = List::new(alloc);
    for piece in pieces {
        let line = out_line(alloc, seat, piece.as_slice())?;
        lines.push(line)?;
    }
    Ok(lines)
}

/// Writes lines, each as one piece.
fn write_lines<K: Sink>(lines: &[ByteList], sink: &mut K) -> Result<(), LineError>
    ensures ok { OnOk result (K.told sink.new ≡ onto (K.told sink.old) lines.now) }
    ensures counts { OnOk result (K.faults sink.new ≡ K.faults sink.old) }
    ensures err { IfErr result (WritesShort lines.now (K.told sink.old) (K.faults sink.old)
        (K.told sink.new) (K.faults sink.new)) }
{
    for line in lines {
        match write(sink, line.as_slice()) {
            Ok(()) => {}
            Err(error) => return Err(error),
        }
    }
    Ok(())
}

/// Writes one piece.
fn write<K: Sink>(sink: &mut K, piece: &[u8]) -> Result<(), LineError>
    ensures ok { OnOk result (K.told sink.new ≡ onto (K.told sink.old) (piece.now ∷ [])) }
    ensures counts { OnOk result (K.faults sink.new ≡ K.faults sink.old) }
    ensures err { IfErr result (WritesShort (piece.now ∷ []) (K.told sink.old) (K.faults sink.old)
        (K.told sink.new) (K.faults sink.new)) }
{
    match sink.write(piece) {
        WriteAnswer::Done => Ok(()),
        WriteAnswer::Failed => Err(LineError::WriteFault),
    }
}
