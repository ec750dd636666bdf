//! One entry of a history, asked again.

ghost use Rattle.std.specs.Prelude.{◌≡◌, ◌++◌, ◌≤◌, ◌≢◌, false, map, true, IfOk, OnOk};
ghost use Rattle.named_paths.specs.OpenNumbers.{Cover};
ghost use Rattle.portal_model.specs.State.{State, held_in};
ghost use Rattle.trace_items.specs.Awaited.{Shows};
ghost use Rattle.app_trace.specs.Told.{item_told};
ghost use Rattle.app_world.specs.Touched.{is_done as was_done};
ghost use Rattle.app_world.specs.World.{items_of};
ghost use Rattle.portal_steps.specs.Story.{cost_with, limit_of, state_now};
ghost use Rattle.portal_model.specs.Lawful.{Lawful};
ghost use Rattle.portal_model.specs.Opening.{is_told};
ghost use Rattle.portal_model.specs.Step.{after, reply_at};
ghost use Rattle.history_trace.specs.Replayed.{GoesOn, HasRoom, Replies};

use crate::beginning::QuietPortal;
use app_trace::TraceItem;
use named_paths::{OpenNumbers, follow};
use portal_base::list::List;
use portal_base::memory::{Replica, WantOfMemory};
use portal_base::names::AppId;
use portal_base::outside::ListWords;
use portal_model::entry::{Entry, Fault};
use portal_model::reply::{Refused, Reply};
use portal_model::request::Request;
use std::alloc::Global;
use trace_items::lent::connection_of;
use trace_items::{Lent, come, foresee, is_done};
use tree_files::TreeFiles;

/// Asks an entry again, appends what it tells the application, and lets the
/// numbers of open handles and the files be those behind it.
pub(crate) fn replay(
    alloc: Global,
    portal: &mut QuietPortal,
    app: &AppId,
    entry: &Entry,
    numbers: &mut OpenNumbers,
    files: &mut TreeFiles,
    items: &mut List<TraceItem>,
) -> Result<(), WantOfMemory>
    requires lawful { Lawful (state_now portal.old.story) entry.now }
    requires room { HasRoom portal.old.story entry.now }
    requires covered { Cover numbers.old (state_now portal.old.story).handles }
    requires files { held_in (state_now portal.old.story) ≡ files.old }
    ensures goes { OnOk result (GoesOn portal.old.story entry.now portal.new.story) }
    ensures covered { OnOk result (Cover numbers.new
        (after (state_now portal.old.story) entry.now).handles) }
    ensures files { OnOk result (files.new
        ≡ held_in (after (state_now portal.old.story) entry.now)) }
    ensures items { OnOk result (map item_told items.new ≡ map item_told items.old
        ++ items_of app.now (state_now portal.old.story) entry.now) }
{
    tell_again(alloc, portal, app, entry, numbers, files, items)?;
    follow_entry(alloc, portal, entry, numbers)?;
    Ok(())
}

/// Asks an entry again, appends what it tells the application, and lets the
/// files be those behind it.
fn tell_again(
    alloc: Global,
    portal: &mut QuietPortal,
    app: &AppId,
    entry: &Entry,
    numbers: &OpenNumbers,
    files: &mut TreeFiles,
    items: &mut List<TraceItem>,
) -> Result<(), WantOfMemory>
    requires lawful { Lawful (state_now portal.old.story) entry.now }
    requires room { HasRoom portal.old.story entry.now }
    requires covered { Cover numbers.now (state_now portal.old.story).handles }
    requires files { held_in (state_now portal.old.story) ≡ files.old }
    ensures goes { OnOk result (GoesOn portal.old.story entry.now portal.new.story) }
    ensures files { OnOk result (files.new
        ≡ held_in (after (state_now portal.old.story) entry.now)) }
    ensures items { OnOk result (map item_told items.new ≡ map item_told items.old
        ++ items_of app.now (state_now portal.old.story) entry.now) }
{
    portal.known();
    let awaited = foresee(alloc, &lent(portal, numbers, files), app, entry)?;
    match ask_again(alloc, portal, entry) {
        Ok(done) => {
            portal.known();
            come(alloc, items, files, awaited, done)
        }
        Err(error) => {
            drop(awaited);
            Err(error)
        }
    }
}

/// Lets the numbers of open handles be those behind an entry that was asked again.
fn follow_entry(
    alloc: Global,
    portal: &QuietPortal,
    entry: &Entry,
    numbers: &mut OpenNumbers,
) -> Result<(), WantOfMemory>
    ensures { OnOk result ((s : State) → Cover numbers.old s.handles →
        state_now portal.now.story ≡ after s entry.now →
        Cover numbers.new (state_now portal.now.story).handles) }
{
    portal.known();
    let connection = connection_of(portal.connections(), entry.seat);
    follow(
        alloc,
        numbers,
        portal.handles(),
        connection,
        entry.seat,
        &entry.request,
    )
}

/// What a portal lends, with the numbers of its open handles and the files of its
/// tree.
fn lent<'a>(portal: &'a QuietPortal, numbers: &'a OpenNumbers, files: &'a TreeFiles) -> Lent<'a>
    requires told { is_told portal.now.story.began ≡ true }
    requires covered { Cover numbers.now (state_now portal.now.story).handles }
    requires files { held_in (state_now portal.now.story) ≡ files.now }
    ensures { Shows result (state_now portal.now.story) }
{
    Lent {
        book: portal.book(),
        connections: portal.connections(),
        handles: portal.handles(),
        namings: portal.namings(),
        temps: portal.temps(),
        numbers,
        files,
    }
}

/// Asks what the entry asked, or has its seat collect where a device failed in
/// it. Says whether the entry was done.
fn ask_again(alloc: Global, portal: &mut QuietPortal, entry: &Entry) -> Result<bool, WantOfMemory>
    requires lawful { Lawful (state_now portal.old.story) entry.now }
    requires room { HasRoom portal.old.story entry.now }
    ensures goes { OnOk result (GoesOn portal.old.story entry.now portal.new.story) }
    ensures done { IfOk result (λ done. done
        ≡ was_done (reply_at (state_now portal.old.story) entry.now).answer) }
{
    match entry.given.fault {
        Fault::None => ask_the_same(alloc, portal, entry),
        // The portal here stands over devices that never fail, and a request that met a fault
        // changed nothing: so the seat is only told what waited for it.
        Fault::Tree | Fault::Keeper => {
            collect(alloc, portal, entry)?;
            Ok(false)
        }
    }
}

/// Asks what an entry asked in which no device failed. Says whether it was
/// done.
fn ask_the_same(
    alloc: Global,
    portal: &mut QuietPortal,
    entry: &Entry,
) -> Result<bool, WantOfMemory>
    requires lawful { Lawful (state_now portal.old.story) entry.now }
    requires unfaulted { entry.now.given.fault ≡ Fault.None }
    requires room { HasRoom portal.old.story entry.now }
    ensures goes { OnOk result (GoesOn portal.old.story entry.now portal.new.story) }
    ensures done { IfOk result (λ done. done
        ≡ was_done (reply_at (state_now portal.old.story) entry.now).answer) }
{
    let words = ListWords::new(entry.given.words.replica(alloc)?);
    set_outside(portal, entry.given.now.unwrap_or(0), words);
    let request = entry.request.replica(alloc)?;
    let reply = ask(alloc, portal, entry.seat, request)?;
    Ok(is_done(&reply.answer))
}

/// Has the seat of an entry collect in which a device failed, and which
/// therefore was not done.
fn collect(alloc: Global, portal: &mut QuietPortal, entry: &Entry) -> Result<(), WantOfMemory>
    requires lawful { Lawful (state_now portal.old.story) entry.now }
    requires faulted { entry.now.given.fault ≢ Fault.None }
    requires room { HasRoom portal.old.story entry.now }
    ensures goes { OnOk result (GoesOn portal.old.story entry.now portal.new.story) }
    ensures undone { was_done (reply_at (state_now portal.old.story) entry.now).answer ≡ false }
{
    portal.known();
    let reply = ask(alloc, portal, entry.seat, Request::Collect)?;
    drop(reply);
    Ok(())
}

/// Sets the clock and the words to come.
fn set_outside(portal: &mut QuietPortal, now: u64, words: ListWords)
    ensures { portal.new ≡ record portal.old { clock = now; words = words } }
{
    portal.clock_mut().set(now);
    *portal.words_mut() = words;
}

/// Asks a request, for which the history has room.
fn ask(
    alloc: Global,
    portal: &mut QuietPortal,
    seat: u32,
    request: Request,
) -> Result<Reply, WantOfMemory>
    requires told { is_told portal.old.story.began ≡ true }
    requires room { cost_with portal.old.story request ≤ limit_of portal.old.story }
    ensures { IfOk result (Replies portal.old seat request portal.new) }
{
    match portal.ask(alloc, seat, request) {
        Ok(reply) => Ok(reply),
        Err(Refused::Memory) => Err(WantOfMemory),
        Err(Refused::Full { .. }) => unreachable!(),
    }
}
