//! The program: its words, its input and its output.

ghost use Rattle.std.specs.Prelude.{◌≡◌, ◌≤◌, ℕ, List, length};
ghost use Rattle.portal_base.specs.Outside.{onto};
ghost use Rattle.script_lines.specs.Lines.{text_of};
ghost use Rattle.script_form.specs.Order.{IsScript};
ghost use Rattle.script_command.specs.Commands.{replay_words};
ghost use Rattle.script_command.specs.Generated.{RanAny};
ghost use Rattle.script_command.specs.Inputs.{script_limit};
ghost use Rattle.script_command.specs.Runs.{Ran, Replays, Risen};
ghost use Rattle.script_replay.specs.Started.{StartsScript};
ghost use Rattle.script_command.specs.Worlds.{RanWorlds};

use crate::command::{Command, command_of};
use crate::generate::generate;
use crate::input::{InputError, read_to_end};
use crate::worlds::worlds;
use portal_base::memory::WantOfMemory;
use portal_base::names::AppId;
use portal_base::outside::{Sink, Source};
use portal_base::text::Text;
use script_form::error::ScriptError;
use script_form::reader::read_script;
use script_lines::script::Script;
use script_replay::replay::run_lines;
use script_replay::settings::settings;
use script_replay::start::{ScriptPortal, start};
use script_replay::status::Status;
use std::alloc::Global;

/// Runs the program with these words, which are those after its name.
///
/// With `replay` the source's script is run, and its output goes to the sink.
/// The source is read to its end, and the whole of it is found to be a script,
/// before the first line is run. With `worlds APP` it is found to be two scripts;
/// both are run, and one line says how the traces of the application compare. With
/// `generate N` the load of so many requests is run, nothing is read, and five lines
/// say what became of them.
pub fn run<S: Source, K: Sink>(
    alloc: Global,
    words: &[Text],
    source: &mut S,
    sink: &mut K,
) -> Status
    ensures ran { RanAny words.now (S.left source.old) (S.left source.new) (K.told sink.old)
        (K.told sink.new) result }
    ensures risen { Risen result (S.faults source.old) (S.faults source.new) (K.faults sink.old)
        (K.faults sink.new) }
{
    match command_of(alloc, words) {
        Ok(Some(Command::Replay)) => replay_source(alloc, source, sink),
        Ok(Some(Command::Worlds { app })) => compare_once(alloc, app, source, sink),
        Ok(Some(Command::Generate { count })) => generate(alloc, count, sink),
        Ok(None) => Status::Usage,
        Err(WantOfMemory) => Status::Memory,
    }
}

/// Compares the scripts of a source for an application, whose name is gone then.
fn compare_once<S: Source, K: Sink>(
    alloc: Global,
    app: AppId,
    source: &mut S,
    sink: &mut K,
) -> Status
    ensures ran { RanWorlds app (S.left source.old) (S.left source.new) (K.told sink.old)
        (K.told sink.new) result }
    ensures risen { Risen result (S.faults source.old) (S.faults source.new) (K.faults sink.old)
        (K.faults sink.new) }
{
    compare_source(alloc, &app, source, sink)
}

/// Reads a source to its end, and compares the two scripts that it gave.
fn compare_source<S: Source, K: Sink>(
    alloc: Global,
    app: &AppId,
    source: &mut S,
    sink: &mut K,
) -> Status
    ensures ran { RanWorlds app.now (S.left source.old) (S.left source.new) (K.told sink.old)
        (K.told sink.new) result }
    ensures risen { Risen result (S.faults source.old) (S.faults source.new) (K.faults sink.old)
        (K.faults sink.new) }
{
    match read_to_end(alloc, source) {
        Ok(text) => worlds(alloc, app, text.as_slice(), sink),
        Err(InputError::Failed) => Status::ReadFault,
        Err(InputError::TooLong) => Status::TooLong,
        Err(InputError::Memory) => Status::Memory,
    }
}

/// Reads a source to its end, and runs the script that it gave.
fn replay_source<S: Source, K: Sink>(alloc: Global, source: &mut S, sink: &mut K) -> Status
    ensures ran { Ran replay_words (S.left source.old) (S.left source.new) (K.told sink.old)
        (K.told sink.new) result }
    ensures risen { Risen result (S.faults source.old) (S.faults source.new) (K.faults sink.old)
        (K.faults sink.new) }
{
    match read_to_end(alloc, source) {
        Ok(text) => replay(alloc, text.as_slice(), sink),
        Err(InputError::Failed) => Status::ReadFault,
        Err(InputError::TooLong) => Status::TooLong,
        Err(InputError::Memory) => Status::Memory,
    }
}

/// Runs the script that a text is.
fn replay<K: Sink>(alloc: Global, text: &[u8], sink: &mut K) -> Status
    requires { length text.now ≤ script_limit }
    ensures replays { (pieces : List (List ℕ)) × (K.told sink.new ≡ onto (K.told sink.old) pieces)
        × Replays text.now pieces result }
    ensures risen { Risen result 0 0 (K.faults sink.old) (K.faults sink.new) }
{
    match read_script(alloc, text) {
        Ok(script) => replay_script(alloc, &script, sink),
        Err(ScriptError::AtLine(line)) => Status::ScriptFault { line },
        Err(ScriptError::Memory) => Status::Memory,
    }
}

/// Runs a script.
fn replay_script<K: Sink>(alloc: Global, script: &Script, sink: &mut K) -> Status
    requires script { IsScript script.now.lines }
    requires short { length (text_of script.now.lines) ≤ script_limit }
    ensures replays { (pieces : List (List ℕ)) × (K.told sink.new ≡ onto (K.told sink.old) pieces)
        × Replays (text_of script.now.lines) pieces result }
    ensures risen { Risen result 0 0 (K.faults sink.old) (K.faults sink.new) }
{
    match start(alloc, script) {
        Ok(portal) => replay_once(alloc, portal, script, sink),
        Err(WantOfMemory) => Status::Memory,
    }
}

/// Runs a script over the portal that it opens, which is gone then.
fn replay_once<K: Sink>(
    alloc: Global,
    portal: ScriptPortal,
    script: &Script,
    sink: &mut K,
) -> Status
    requires starts { StartsScript script.now.lines portal }
    requires script { IsScript script.now.lines }
    requires short { length (text_of script.now.lines) ≤ script_limit }
    ensures replays { (pieces : List (List ℕ)) × (K.told sink.new ≡ onto (K.told sink.old) pieces)
        × Replays (text_of script.now.lines) pieces result }
    ensures risen { Risen result 0 0 (K.faults sink.old) (K.faults sink.new) }
{
    // The portal is let go in a function of its own, which has one way out: each way out of a
    // function that lets a portal go is proved for itself.
    let mut portal = portal;
    replay_over(alloc, &mut portal, script, sink)
}

/// Runs a script over the portal that it opens.
fn replay_over<K: Sink>(
    alloc: Global,
    portal: &mut ScriptPortal,
    script: &Script,
    sink: &mut K,
) -> Status
    requires starts { StartsScript script.now.lines portal.old }
    requires script { IsScript script.now.lines }
    requires short { length (text_of script.now.lines) ≤ script_limit }
    ensures replays { (pieces : List (List ℕ)) × (K.told sink.new ≡ onto (K.told sink.old) pieces)
        × Replays (text_of script.now.lines) pieces result }
    ensures risen { Risen result 0 0 (K.faults sink.old) (K.faults sink.new) }
{
    let Ok(settings) = settings(alloc) else {
        return Status::Memory;
    };
    match run_lines(alloc, portal, &settings, script.lines.as_slice(), sink) {
        Ok(()) => Status::Done,
        Err(status) => status,
    }
}
