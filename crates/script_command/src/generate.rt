//! Running a generated load.

ghost use Rattle.std.specs.Prelude.{◌≡◌, ◌≤◌, ◌++◌, ◌∷◌, [], ℕ, List, true, IfErr, IfOk, OnOk};
ghost use Rattle.portal_base.specs.Outside.{onto};
ghost use Rattle.portal_steps.specs.Story.{state_first};
ghost use Rattle.portal_load.specs.Lines.{most_requests};
ghost use Rattle.script_command.specs.Generated.{Generates, RanLoad, WritesLines};
ghost use Rattle.script_command.specs.Generated.{count_line as line_of_count, five_lines, lines_of_load, load_lines_at};
ghost use Rattle.script_command.specs.Runs.{Risen};
ghost use Rattle.script_replay.specs.Started.{StartsScript};

use portal_base::list::{ByteList, List};
use portal_base::memory::WantOfMemory;
use portal_base::outside::{Sink, WriteAnswer};
use portal_core::storied::Storied;
use portal_load::load::{Load, generate as load_of};
use script_replay::counted::CountedPortal;
use script_replay::output::NoSink;
use script_replay::replay::run_lines;
use script_replay::settings::settings;
use script_replay::start::start;
use script_replay::status::Status;
use std::alloc::Global;

/// Runs the load of so many requests, and writes five lines that say what
/// became of them.
pub fn generate<K: Sink>(alloc: Global, count: u32, sink: &mut K) -> Status
    requires some { 1 ≤ count }
    requires most { count ≤ most_requests }
    ensures generates { (pieces : List (List ℕ)) × (K.told sink.new ≡ onto (K.told sink.old) pieces)
        × Generates count pieces result }
    ensures risen { Risen result 0 0 (K.faults sink.old) (K.faults sink.new) }
{
    match load_of(alloc, count) {
        Ok(load) => run_and_tell(alloc, &load, sink),
        Err(_) => Status::Memory,
    }
}

/// Runs a load, and writes the five lines.
fn run_and_tell<K: Sink>(alloc: Global, load: &Load, sink: &mut K) -> Status
    requires load { load.now.script.lines ≡ lines_of_load load.now.requests }
    requires most { load.now.requests ≤ most_requests }
    ensures generates { (pieces : List (List ℕ)) × (K.told sink.new ≡ onto (K.told sink.old) pieces)
        × Generates load.now.requests pieces result }
    ensures risen { Risen result 0 0 (K.faults sink.old) (K.faults sink.new) }
{
    match start(alloc, &load.script) {
        Ok(portal) => run_once(alloc, portal, load, sink),
        Err(WantOfMemory) => Status::Memory,
    }
}

/// Runs a load over the portal that its script opens, which is gone then.
fn run_once<K: Sink>(alloc: Global, portal: CountedPortal, load: &Load, sink: &mut K) -> Status
    requires starts { StartsScript load.now.script.lines portal }
    requires load { load.now.script.lines ≡ lines_of_load load.now.requests }
    requires most { load.now.requests ≤ most_requests }
    ensures generates { (pieces : List (List ℕ)) × (K.told sink.new ≡ onto (K.told sink.old) pieces)
        × Generates load.now.requests pieces result }
    ensures risen { Risen result 0 0 (K.faults sink.old) (K.faults sink.new) }
{
    let mut portal = portal;
    run_over(alloc, &mut portal, load, sink)
}

/// Runs a load over the portal that its script opens.
fn run_over<K: Sink>(alloc: Global, portal: &mut CountedPortal, load: &Load, sink: &mut K) -> Status
    requires starts { StartsScript load.now.script.lines portal.old }
    requires load { load.now.script.lines ≡ lines_of_load load.now.requests }
    requires most { load.now.requests ≤ most_requests }
    ensures generates { (pieces : List (List ℕ)) × (K.told sink.new ≡ onto (K.told sink.old) pieces)
        × Generates load.now.requests pieces result }
    ensures risen { Risen result 0 0 (K.faults sink.old) (K.faults sink.new) }
{
    match run_load(alloc, portal, load) {
        Ok(()) => tell(alloc, load.requests, portal, sink),
        Err(status) => status,
    }
}

/// Runs the lines of a load. The sink takes all, so where they aren't run to
/// their end there was no memory.
fn run_load(alloc: Global, portal: &mut CountedPortal, load: &Load) -> Result<(), Status>
    requires starts { StartsScript load.now.script.lines portal.old }
    requires load { load.now.script.lines ≡ lines_of_load load.now.requests }
    requires most { load.now.requests ≤ most_requests }
    ensures ran { OnOk result (RanLoad load.now.requests portal.new) }
    ensures err { IfErr result (λ status. status ≡ Status.Memory) }
{
    let Ok(settings) = settings(alloc) else {
        return Err(Status::Memory);
    };
    let mut sink = NoSink;
    run_lines(
        alloc,
        portal,
        &settings,
        load.script.lines.as_slice(),
        &mut sink,
    )
}

/// Writes the five lines that say what became of the requests of a load.
fn tell<K: Sink>(alloc: Global, count: u32, portal: &CountedPortal, sink: &mut K) -> Status
    requires { RanLoad count portal.now }
    ensures generates { (pieces : List (List ℕ)) × (K.told sink.new ≡ onto (K.told sink.old) pieces)
        × Generates count pieces result }
    ensures risen { Risen result 0 0 (K.faults sink.old) (K.faults sink.new) }
{
    let Ok(lines) = load_lines(alloc, count, portal) else {
        return Status::Memory;
    };
    if write_lines(lines.as_slice(), sink) {
        return Status::Done;
    }
    Status::WriteFault
}

/// The five lines that say what became of the requests of a load.
fn load_lines(
    alloc: Global,
    count: u32,
    portal: &CountedPortal,
) -> Result<List<ByteList>, WantOfMemory>
    requires { (state_first portal.now.story).told ≡ true }
    ensures { IfOk result (λ lines. lines ≡ load_lines_at count portal.now.story) }
{
    five_lines(
        alloc,
        u64::from(count),
        portal.done(),
        portal.refused(),
        portal.entry_count(),
        portal.cost(),
    )
}

/// The five lines that say these numbers.
fn five_lines(
    alloc: Global,
    requests: u64,
    done: u64,
    refused: u64,
    entries: u64,
    cost: u64,
) -> Result<List<ByteList>, WantOfMemory>
    ensures { IfOk result (λ lines. lines ≡ five_lines requests done refused entries cost) }
{
    let mut lines = List::new(alloc);
    add_line(alloc, &mut lines, b"requests", requests)?;
    add_line(alloc, &mut lines, b"done", done)?;
    add_line(alloc, &mut lines, b"refused", refused)?;
    add_line(alloc, &mut lines, b"history", entries)?;
    add_line(alloc, &mut lines, b"cost", cost)?;
    Ok(lines)
}

/// Puts the line `WORD N` behind lines.
fn add_line(
    alloc: Global,
    lines: &mut List<ByteList>,
    word: &[u8],
    number: u64,
) -> Result<(), WantOfMemory>
    ensures { OnOk result (lines.new ≡ lines.old ++ line_of_count word.now number ∷ []) }
{
    let line = count_line(alloc, word, number)?;
    lines.push(line)?;
    Ok(())
}

/// The line `WORD N`.
fn count_line(alloc: Global, word: &[u8], number: u64) -> Result<ByteList, WantOfMemory>
    ensures { IfOk result (λ line. line ≡ line_of_count word.now number) }
{
    let mut line = List::new(alloc);
    let digits = format!(in alloc; "{number}")?;
    line.extend_from_slice(word)?;
    line.extend_from_slice(b" ")?;
    line.extend_from_slice(digits.as_bytes())?;
    line.extend_from_slice(b"\n")?;
    Ok(line)
}

/// Writes lines, each as one piece. It is `false` where a write failed.
fn write_lines<K: Sink>(lines: &[ByteList], sink: &mut K) -> bool
    ensures { WritesLines lines.now (K.told sink.old) (K.faults sink.old) (K.told sink.new)
        (K.faults sink.new) result }
{
    for line in lines {
        match sink.write(line.as_slice()) {
            WriteAnswer::Done => {}
            WriteAnswer::Failed => return false,
        }
    }
    true
}
