//! A request of a seat.

ghost use Rattle.std.specs.Prelude.{◌≡◌, ◌+◌, ◌<◌, ◌≤◌, IfOk, IsOk, OnErr, false, length, option_copied, true};
ghost use Rattle.node_looks.specs.Done.{MayRead, Reads, Wants};
ghost use Rattle.file_ops.specs.SeatNames.{NamesKept, own_tables};
ghost use Rattle.file_ops.specs.SeatTemps.{TempsKept};
ghost use Rattle.file_ops.specs.Wanting.{calls_in_vain, fits_in_room, may_call_in_vain, may_change_file};
ghost use Rattle.node_serving.specs.Counted.{Counts};
ghost use Rattle.node_serving.specs.Seats.{AreEntered, IsServedIn, ServesSeat, refused_here};
ghost use Rattle.portal_model.specs.State.{State, connection_of as open_connection};
ghost use Rattle.portal_model.specs.Step.{mount_of as open_mount};

use crate::counted::count;
use crate::numbered::number;
use file_ops::{FileBook, LookRooms, NodeCall, NodeDone, serve_node};
use folder_documents::Namings;
use host_tree::HostTree;
use inode_table::InodeTable;
use open_handles::Handles;
use portal_base::list::List;
use portal_base::memory::WantOfMemory;
use portal_base::outside::Clock;
use portal_base::who::Kind;
use portal_model::entry::Fault;
use portal_model::reply::{Answer, Code};
use portal_model::request::NodeRequest;
use portal_model::state::Connection;
use save_files::Temps;
use std::alloc::Global;

/// Serves a request of a seat on a node.
///
/// A seat without an open mount is answered `NotHere`. The node of an entry that
/// is answered has one look-up more in the counts, for which room is taken before
/// the tree is asked, and what the kernel forgets is taken back; where a handle is
/// opened, its number is the last that the connection was given. What a connection has
/// named stands in `namings`, and its temporaries in `temps`, and neither in the
/// connection.
///
/// Where memory is wanted, the connections, the counts, the open handles, what was
/// named, the temporaries and the files are as before. A request that takes all its
/// room first, or asks nothing of the tree, has then not called it, and one that can't
/// change a file never reads the clock.
///
/// A GETATTR, ACCESS, FLUSH, RELEASE, RELEASEDIR, FORGET or BATCH_FORGET, and a LOOKUP in a
/// root, in the folder of all views or in a document's folder, wants no memory where there
/// is one of `rooms`, and room for one more count; any request takes one of each at most.
pub fn serve<T: HostTree, C: Clock>(
    alloc: Global,
    rooms: &mut LookRooms,
    book: &FileBook,
    connections: &mut List<Connection>,
    handles: &mut Handles,
    namings: &mut Namings,
    temps: &mut Temps,
    counts: &mut InodeTable,
    tree: &mut T,
    clock: &mut C,
    seat: u32,
    request: &NodeRequest,
) -> Result<NodeDone, WantOfMemory>
    requires { AreEntered connections.old handles.old (own_tables namings.old temps.old) }
    ensures ok { IfOk result (λ done. (s : State) →
        IsServedIn s book.now connections.old handles.old (own_tables namings.old temps.old)
        (T.is tree.old).told → ServesSeat s seat request.now (T.is tree.old) done
        connections.new handles.new (own_tables namings.new temps.new) (T.is tree.new)) }
    ensures clock { IfOk result (λ done. Reads C.reads clock.old done.now clock.new) }
    ensures counts { IfOk result (λ done.
        Counts seat request.now done.answer counts.old.counts counts.new.counts) }
    ensures count { length connections.new ≡ length connections.old }
    ensures err { OnErr result (Wants (calls_in_vain request.now) handles.old (T.is tree.old)
        handles.new (T.is tree.new)) }
    ensures names_err { OnErr result (NamesKept namings.old namings.new) }
    ensures temps_err { OnErr result (TempsKept temps.old temps.new) }
    ensures clock_err { OnErr result (MayRead C.reads clock.old clock.new) }
    ensures unasked { may_call_in_vain request.now ≡ false
        → OnErr result (tree.new ≡ tree.old) }
    ensures unread { may_change_file request.now.op ≡ false → clock.new ≡ clock.old }
    ensures connections { OnErr result (connections.new ≡ connections.old) }
    ensures kept { OnErr result (counts.new.counts ≡ counts.old.counts) }
    ensures reserved { fits_in_room request.now ≡ true → 0 < rooms.old → 0 < counts.old.room
        → IsOk result }
    ensures rooms { rooms.old ≤ rooms.new + 1 }
    ensures room { counts.old.room ≤ counts.new.room + 1 }
{
    // Room for the count is taken ahead of the request, which can't be undone behind it.
    counts.reserve(1)?;
    let Some(connection) = mount_of(connections.as_slice(), seat) else {
        return Ok(not_here(alloc));
    };
    let call = NodeCall {
        seat,
        who: &connection.who,
        request,
    };
    let done = serve_node(
        alloc, rooms, book, handles, namings, temps, tree, clock, &call,
    )?;
    count(counts, seat, request, &done.answer);
    number(alloc, connections, seat, &done.answer);
    Ok(done)
}

/// What a seat without an open mount is answered.
fn not_here(alloc: Global) -> NodeDone
    ensures { result ≡ refused_here }
{
    NodeDone {
        answer: Answer::Refused(Code::NotHere),
        looks: List::new(alloc),
        listed: None,
        now: None,
        generation: None,
        fault: Fault::None,
    }
}

/// The open connection of a seat, where it is a mount.
fn mount_of(connections: &[Connection], seat: u32) -> Option<&Connection>
    ensures { option_copied result ≡ open_mount (open_connection connections.now seat) }
{
    let connection = connection_of(connections, seat)?;
    match connection.kind {
        Kind::Mount => Some(connection),
        Kind::Bus => None,
    }
}

/// The open connection of a seat.
fn connection_of(connections: &[Connection], seat: u32) -> Option<&Connection>
    ensures { option_copied result ≡ open_connection connections.now seat }
{
    connections
        .iter()
        .find(|connection| connection.seat == seat)
}
