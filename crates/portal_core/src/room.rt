//! Room that is taken ahead of a request.

ghost use Rattle.std.specs.Prelude.{◌≡◌, ◌+◌, ◌≤◌, ◌↔◌, [], length, IfOk, IsOk, IsTrue, OnErr, OnOk, unwrap_or};
ghost use Rattle.change_signals.specs.Unsent.{AtSeat, holding, unsent_on};

use change_signals::Outboxes;
use file_ops::LookRooms;
use inode_table::InodeTable;
use portal_base::list::List;
use portal_base::memory::WantOfMemory;
use portal_history::History;
use portal_model::reply::Change;
use portal_model::state::Connection;
use std::alloc::Global;

/// Takes room for `more` entries and for the Leaves of these connections behind them, and
/// for `ahead` further ones as far as there is memory.
pub(crate) fn make_room(
    history: &mut History,
    connections: &[Connection],
    more: u32,
    ahead: u32,
) -> Result<(), WantOfMemory>
    ensures room { OnOk result (length connections.now + more ≤ history.new.spare) }
    ensures entries { history.new.entries ≡ history.old.entries }
    ensures limit { history.new.limit ≡ history.old.limit }
    ensures spare { history.old.spare ≤ history.new.spare }
    ensures reserved { length connections.now + more ≤ history.old.spare → IsOk result }
    ensures err { OnErr result (history.new ≡ history.old) }
{
    if take_room(history, connections, more.saturating_add(ahead)).is_ok() {
        return Ok(());
    }
    take_room(history, connections, more)
}

/// Takes room for `more` entries and for the Leaves of these connections behind them.
fn take_room(
    history: &mut History,
    connections: &[Connection],
    more: u32,
) -> Result<(), WantOfMemory>
    ensures room { OnOk result (length connections.now + more ≤ history.new.spare) }
    ensures entries { history.new.entries ≡ history.old.entries }
    ensures limit { history.new.limit ≡ history.old.limit }
    ensures spare { history.old.spare ≤ history.new.spare }
    ensures reserved { length connections.now + more ≤ history.old.spare → IsOk result }
    ensures err { OnErr result (history.new ≡ history.old) }
{
    if has_room(history, connections, more) {
        return Ok(());
    }
    // More entries than a `u32` counts need more memory than there is.
    let Ok(leaves) = u32::try_from(connections.len()) else {
        return Err(WantOfMemory);
    };
    match leaves.checked_add(more) {
        Some(count) => history.reserve(count),
        None => Err(WantOfMemory),
    }
}

/// Says whether there is room for `more` entries and for the Leaves of these connections.
fn has_room(history: &History, connections: &[Connection], more: u32) -> bool
    ensures { IsTrue result ↔ (length connections.now + more ≤ history.now.spare) }
{
    match history.spare().checked_sub(connections.len() as u64) {
        Some(free) => u64::from(more) <= free,
        None => false,
    }
}

/// Takes memory for the counts and the looks of one request and of `ahead` further ones,
/// as far as there is any.
pub(crate) fn keep_ahead(alloc: Global, counts: &mut InodeTable, rooms: &mut LookRooms, ahead: u32)
    ensures counts { counts.new.counts ≡ counts.old.counts }
    ensures room { counts.old.room ≤ counts.new.room }
    ensures rooms { rooms.old ≤ rooms.new }
{
    let _counted = counts.reserve(ahead.saturating_add(1));
    let _lent = rooms.reserve(alloc, ahead);
}

/// Takes room for an entry and for the Leaves of these connections behind it, and
/// what the connection of a seat waits for. Want of memory leaves that to wait. Room for
/// `ahead` further entries is taken as far as there is memory.
pub(crate) fn taken(
    history: &mut History,
    outboxes: &mut Outboxes,
    connections: &[Connection],
    seat: u32,
    ahead: u32,
) -> Result<List<Change>, WantOfMemory>
    ensures room { OnOk result (length connections.now + 1 ≤ history.new.spare) }
    ensures signals { IfOk result (λ signals. signals
        ≡ unwrap_or (unsent_on outboxes.old seat) []) }
    ensures rest { OnOk result (AtSeat (holding []) outboxes.old outboxes.new seat) }
    ensures entries { history.new.entries ≡ history.old.entries }
    ensures limit { history.new.limit ≡ history.old.limit }
    ensures spare { history.old.spare ≤ history.new.spare }
    ensures outboxes { OnErr result (outboxes.new ≡ outboxes.old) }
{
    make_room(history, connections, 1, ahead)?;
    Ok(outboxes.take(seat)?)
}
