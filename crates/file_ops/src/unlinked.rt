//! FUSE_UNLINK: a temporary is gone from the folder of its document.

ghost use Rattle.std.specs.Prelude.{◌≡◌, IfOk, List, None, OnErr, Some};
ghost use Rattle.host_tree.specs.Trees.{TreeIs};
ghost use Rattle.open_handles.specs.Opened.{HandleTable};
ghost use Rattle.portal_model.specs.declared.naming.Naming.{Naming as NamingNow};
ghost use Rattle.portal_model.specs.State.{State};
ghost use Rattle.portal_model.specs.Unlink.{unlink, unlink_at};
ghost use Rattle.app_view.specs.Books.{Lends};
ghost use Rattle.file_ops.specs.Creates.{Saving};
ghost use Rattle.file_ops.specs.Homes.{home_told};
ghost use Rattle.file_ops.specs.Renames.{IsRemoved, IsUncalledThere, removing_by};
ghost use Rattle.file_ops.specs.Tries.{refuses};
ghost use Rattle.file_ops.specs.declared.unlinked.Removing.TheVariants as Removing;
ghost use Rattle.file_ops.specs.SeatNames.{namings_on, seat_sight};
ghost use Rattle.file_ops.specs.SeatTemps.{HeldTemps, temps_on};

use crate::homes::{HomeSeen, What, see};
use crate::numbered::by_number;
use crate::temporaries::{drop_temp, own_called};
use crate::tried::{Ended, Tried, room_for_looks};
use app_view::ViewBook;
use folder_documents::Namings;
use host_tree::{HostTree, LookAnswer};
use node_looks::entry::{is_name_of, is_too_long};
use node_looks::served::{NodeCall, NodeDone};
use node_looks::sight::seen_place;
use portal_base::memory::WantOfMemory;
use portal_model::errno::{EACCES, ENAMETOOLONG, ENOENT, ENOTDIR, EPERM};
use portal_model::reply::NodeAnswer;
use save_files::Temps;
use std::alloc::Global;

/// What an UNLINK comes to by what is seen at the folder.
pub(crate) enum Removing {
    /// It is refused.
    Refused(Tried),
    /// The temporary of this number is removed.
    Temp(u32),
}

/// Answers a caller's UNLINK of a name in a folder, which has to be that of a document that
/// isn't a folder itself: a temporary of the connection is gone; what is open of its file
/// stays.
///
/// At a node of a file a look is taken, and at or below a document that is a folder. Where
/// memory is wanting the tree wasn't called.
pub(crate) fn unlink<T: HostTree>(
    alloc: Global,
    book: &ViewBook,
    namings: &Namings,
    temps: &mut Temps,
    tree: &mut T,
    call: &NodeCall,
    name: &[u8],
) -> Result<NodeDone, WantOfMemory>
    ensures ok { (table : HandleTable) (names : List NamingNow) (has : HeldTemps) →
        namings_on namings.now call.now.seat ≡ Some names →
        temps_on temps.old.seats call.now.seat ≡ Some has → IfOk result (λ done.
        (s : State) → Lends book.now s → Saving (unlink name.now has.temps
        (seat_sight s call.now.who.now names has.temps call.now.request.now.node))
        call.now.seat table temps.old (T.is tree.old) done table temps.new (T.is tree.new)) }
    ensures unclocked { IfOk result (λ done. done.now ≡ None) }
    ensures err { OnErr result (tree.new ≡ tree.old) }
    ensures temps_err { OnErr result (temps.new ≡ temps.old) }
{
    let room = room_for_looks(alloc)?;
    match removes(book, namings, temps, tree, call, name) {
        Removing::Refused(tried) => Ok(tried.done(room)),
        Removing::Temp(k) => {
            drop_temp(temps, call.seat, k);
            Ok(Tried::unlooked(Ended::told(NodeAnswer::Empty)).done(room))
        }
    }
}

/// What the request comes to.
fn removes<T: HostTree>(
    book: &ViewBook,
    namings: &Namings,
    temps: &Temps,
    tree: &mut T,
    call: &NodeCall,
    name: &[u8],
) -> Removing
    ensures removed { (names : List NamingNow) (has : HeldTemps) →
        namings_on namings.now call.now.seat ≡ Some names →
        temps_on temps.now.seats call.now.seat ≡ Some has → (s : State) → Lends book.now s →
        IsRemoved (unlink name.now has.temps
        (seat_sight s call.now.who.now names has.temps call.now.request.now.node))
        (T.is tree.old) result (T.is tree.new) }
    ensures uncalled { IsUncalledThere result }
{
    if is_too_long(name) {
        return Removing::Refused(Tried::unlooked(Ended::refused(ENAMETOOLONG)));
    }
    let node = call.request.node;
    let own = by_number(namings, temps, call.seat, node);
    let seen = see(tree, seen_place(book, call.who, node, own));
    match seen.what {
        What::Nothing(errno) => refused_behind(seen.look, errno),
        What::File => refused_behind(seen.look, ENOTDIR),
        What::Folder(None) => refused_behind(seen.look, EPERM),
        What::Folder(Some(home)) => removing_in(temps, call.seat, home, name),
    }
}

/// A refusal behind the look that was taken.
fn refused_behind(look: Option<LookAnswer>, errno: u32) -> Removing
    ensures { result ≡ Removing.Refused (record { look = look; ended = refuses errno }) }
{
    Removing::Refused(Tried {
        look,
        ended: Ended::refused(errno),
    })
}

/// What the request comes to in the folder of a document.
fn removing_in(temps: &Temps, seat: u32, home: HomeSeen, name: &[u8]) -> Removing
    ensures removed { (has : HeldTemps) (tree : TreeIs) →
        temps_on temps.now.seats seat ≡ Some has →
        IsRemoved (unlink_at name.now has.temps (Some (home_told home.entry))) tree result tree }
    ensures uncalled { IsUncalledThere result }
{
    let HomeSeen {
        view,
        document,
        may_write,
    } = home;
    if is_name_of(&document.path, name) {
        return refused_behind(None, EPERM);
    }
    match own_called(temps, seat, view, document.id, name) {
        None => refused_behind(None, ENOENT),
        Some(own) => removing_temp(may_write, own.k),
    }
}

/// What the request comes to on a temporary of the folder.
fn removing_temp(may_write: bool, k: u32) -> Removing
    ensures { result ≡ removing_by may_write k }
{
    if may_write {
        Removing::Temp(k)
    } else {
        refused_behind(None, EACCES)
    }
}
