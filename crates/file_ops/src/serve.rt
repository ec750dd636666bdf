//! Any request on a node.

ghost use Rattle.std.specs.Prelude.{◌≡◌, ◌+◌, ◌<◌, ◌≤◌, ◌^◌, IfOk, IfSome, IsOk, IsSome, None, OnErr, false, option_map, true};
ghost use Rattle.app_view.specs.Books.{Lends};
ghost use Rattle.folder_documents.specs.Named.{named_on};
ghost use Rattle.open_handles.specs.Opened.{HandleTable, opened_on};
ghost use Rattle.portal_model.specs.declared.request.NodeOp.TheVariants as NodeOp;
ghost use Rattle.portal_model.specs.State.{State};
ghost use Rattle.save_files.specs.Own.{own_on};
ghost use Rattle.node_looks.specs.Done.{MayRead, Reads, Wants};
ghost use Rattle.node_looks.specs.Sights.{is_below, naming_by, node_seen, sight_of, temp_by, view_of};
ghost use Rattle.node_looks.specs.TreeCalls.{WasCalledUpTo};
ghost use Rattle.file_ops.specs.Creates.{is_nowhere};
ghost use Rattle.file_ops.specs.SeatNames.{DoesNaming, IsNamedOn, NamesKept, OwnTables, own_tables};
ghost use Rattle.file_ops.specs.SeatTemps.{IsTempOn, TempsKept};
ghost use Rattle.file_ops.specs.Wanting.{calls_in_vain, fits_in_room, may_be_below, may_call_in_vain, may_change_file};

use crate::children::{create_below, lookup_below, parent_of};
use crate::created::{create_in_folder, create_nowhere, folder_of};
use crate::folders::open_dir;
use crate::numbered::by_number;
use crate::opening::open;
use crate::renamed::{RenameCall, rename};
use crate::resized::set_attr;
use crate::temporaries::own_file;
use crate::unlinked::unlink;
use crate::written::write;
use folder_documents::Namings;
use host_tree::HostTree;
use node_looks::entry::lookup;
use node_looks::rooms::LookRooms;
use node_looks::served::{ByNumber, FileBook, NodeCall, NodeDone};
use node_looks::sight::{SeenPlace, seen_place};
use node_looks::{access, flush, forget, fsync, get_attr, read, read_dir, release, release_dir};
use open_handles::Handles;
use portal_base::memory::WantOfMemory;
use portal_base::outside::Clock;
use portal_model::request::NodeOp;
use save_files::Temps;
use std::alloc::Global;

/// Answers a request on a node, of a seat that was entered and not left among the open
/// handles, among what was named and among the temporaries. Each takes what its own call
/// says.
///
/// Where memory is wanted, the open handles, what was named, the temporaries and the
/// files are as before. The tree may have been called in vain by a SETATTR, OPEN,
/// CREATE, READ, WRITE, FSYNC, OPENDIR or RENAME, by a LOOKUP at a node of a document's
/// file, of a name below a folder that is a document or of a temporary, and the clock
/// read by a SETATTR, OPEN, CREATE or WRITE; no other request that wants memory has
/// called the tree, and none reads the clock. So CREATE, SETATTR and OPEN call it twice
/// at most, and the others once; at those nodes LOOKUP and OPENDIR call it twice at most,
/// and CREATE three times. A GETATTR or ACCESS wants no memory where there is one of
/// `rooms`, of which it takes one at most, nor does a LOOKUP in a root, in the folder of
/// all views or in a document's folder; a FLUSH, RELEASE, RELEASEDIR, FORGET or
/// BATCH_FORGET never does.
pub fn serve_node<T: HostTree, C: Clock>(
    alloc: Global,
    rooms: &mut LookRooms,
    book: &FileBook,
    handles: &mut Handles,
    namings: &mut Namings,
    temps: &mut Temps,
    tree: &mut T,
    clock: &mut C,
    call: &NodeCall,
) -> Result<NodeDone, WantOfMemory>
    requires entered { IsSome (opened_on handles.old.seats call.now.seat) }
    requires named { IsSome (named_on namings.old call.now.seat) }
    requires kept { IsSome (own_on temps.old.seats call.now.seat) }
    ensures ok { IfOk result (λ done. DoesNaming book.now call.now handles.old
        (own_tables namings.old temps.old) (T.is tree.old) done handles.new
        (own_tables namings.new temps.new) (T.is tree.new)) }
    ensures clock { IfOk result (λ done. Reads C.reads clock.old done.now clock.new) }
    ensures err { OnErr result (Wants (calls_in_vain call.now.request.now) handles.old
        (T.is tree.old) handles.new (T.is tree.new)) }
    ensures names_err { OnErr result (NamesKept namings.old namings.new) }
    ensures temps_err { OnErr result (TempsKept temps.old temps.new) }
    ensures clock_err { OnErr result (MayRead C.reads clock.old clock.new) }
    ensures unasked { may_call_in_vain call.now.request.now ≡ false
        → OnErr result (tree.new ≡ tree.old) }
    ensures unread { may_change_file call.now.request.now.op ≡ false
        → clock.new ≡ clock.old }
    ensures reserved { fits_in_room call.now.request.now ≡ true → 0 < rooms.old
        → IsOk result }
    ensures rooms { rooms.old ≤ rooms.new + 1 }
{
    let NodeCall { who, request, seat } = *call;
    let node = request.node;
    match &request.op {
        NodeOp::Lookup { name } => {
            let name = name.as_slice();
            look_up(alloc, rooms, book, namings, temps, tree, call, name)
        }
        NodeOp::Forget { .. } => Ok(forget(alloc)),
        NodeOp::BatchForget { .. } => Ok(forget(alloc)),
        NodeOp::GetAttr { flags, fh } => {
            let own = by_number(namings, temps, seat, node);
            get_attr(alloc, rooms, book, handles, tree, call, own, *flags, *fh)
        }
        NodeOp::SetAttr { valid, fh, size } => {
            let own = by_number(namings, temps, seat, node);
            let handle = handles.get(seat, *fh);
            set_attr(alloc, book, tree, clock, call, own, handle, *valid, *size)
        }
        NodeOp::Open { flags } => {
            let own = by_number(namings, temps, seat, node);
            open(alloc, book, handles, tree, clock, call, own, *flags)
        }
        NodeOp::Create { name, flags } => {
            let name = name.as_slice();
            make_file(
                alloc, book, handles, namings, temps, tree, clock, call, name, *flags,
            )
        }
        NodeOp::Read { fh, offset, size } => {
            read(alloc, book, handles, tree, call, *fh, *offset, *size)
        }
        NodeOp::Write {
            fh,
            offset,
            content,
        } => {
            let handle = handles.get(seat, *fh);
            write(
                alloc,
                book,
                tree,
                clock,
                call,
                handle,
                *offset,
                content.as_slice(),
            )
        }
        NodeOp::Flush { fh } => Ok(flush(alloc, handles, call, *fh)),
        NodeOp::Fsync { fh } => fsync(alloc, handles, tree, call, *fh),
        NodeOp::Release { fh } => Ok(release(alloc, handles, call, *fh)),
        NodeOp::OpenDir => {
            let own = by_number(namings, temps, seat, node);
            open_dir(alloc, book, handles, temps, tree, call, own)
        }
        NodeOp::ReadDir { fh, offset, size } => {
            read_dir(alloc, handles, call, *fh, *offset, *size)
        }
        NodeOp::ReleaseDir { fh } => Ok(release_dir(alloc, handles, call, *fh)),
        NodeOp::Access { mask } => {
            let own = by_number(namings, temps, seat, node);
            access(alloc, rooms, &book.view, tree, who, request, own, *mask)
        }
        NodeOp::Rename {
            new_parent,
            flags,
            old_name,
            new_name,
        } => {
            let asked = RenameCall {
                flags: *flags,
                old_name: old_name.as_slice(),
                new_name: new_name.as_slice(),
            };
            rename(
                alloc,
                &book.view,
                namings,
                temps,
                tree,
                call,
                *new_parent,
                asked,
            )
        }
        NodeOp::Unlink { name } => {
            let name = name.as_slice();
            unlink(alloc, &book.view, namings, temps, tree, call, name)
        }
    }
}

/// Answers a LOOKUP: where a look tells what is there, names are numbered.
fn look_up<T: HostTree>(
    alloc: Global,
    rooms: &mut LookRooms,
    book: &FileBook,
    namings: &mut Namings,
    temps: &Temps,
    tree: &mut T,
    call: &NodeCall,
    name: &[u8],
) -> Result<NodeDone, WantOfMemory>
    requires { IsSome (named_on namings.old call.now.seat) }
    ensures ok { (table : HandleTable) → call.now.request.now.op ≡ NodeOp.Lookup name.now →
        IfOk result (λ done. DoesNaming book.now call.now table
        (own_tables namings.old temps.now) (T.is tree.old) done table
        (own_tables namings.new temps.now) (T.is tree.new)) }
    ensures unclocked { IfOk result (λ done. done.now ≡ None) }
    ensures err { OnErr result (WasCalledUpTo 2 (T.is tree.old) (T.is tree.new)) }
    ensures names_err { OnErr result (NamesKept namings.old namings.new) }
    ensures unasked { may_be_below call.now.request.now.node ≡ false →
        OnErr result (tree.new ≡ tree.old) }
    ensures reserved { may_be_below call.now.request.now.node ≡ false → 0 < rooms.old →
        IsOk result }
    ensures rooms { rooms.old ≤ rooms.new + 1 }
{
    let NodeCall { who, request, seat } = *call;
    let own = by_number(namings, temps, seat, request.node);
    match seen_place(&book.view, who, request.node, own) {
        Some(SeenPlace::Below { view, below }) => {
            let parent = parent_of(alloc, view, below)?;
            lookup_below(alloc, namings, tree, call, &parent, name)
        }
        place => look_up_plain(alloc, rooms, book, temps, tree, call, own, place, name),
    }
}

/// Answers a LOOKUP at a place that isn't at or below a folder that is a document: there no
/// names are numbered.
fn look_up_plain<T: HostTree>(
    alloc: Global,
    rooms: &mut LookRooms,
    book: &FileBook,
    temps: &Temps,
    tree: &mut T,
    call: &NodeCall,
    own: ByNumber,
    place: Option<SeenPlace>,
    name: &[u8],
) -> Result<NodeDone, WantOfMemory>
    requires plain { IfSome place (λ seen. is_below seen ≡ false) }
    requires small { IfSome place (λ seen. view_of seen < 2 ^ 28) }
    requires sight { (s : State) → Lends book.now.view s →
        node_seen s call.now.who.now own call.now.request.now.node
        ≡ option_map (sight_of book.now.view call.now.who.now) place }
    ensures ok { (table : HandleTable) (tables : OwnTables) → tables.temps ≡ temps.now →
        IsNamedOn tables.names call.now (naming_by own.entry) →
        IsTempOn tables.temps call.now (temp_by own.entry) →
        call.now.request.now.op ≡ NodeOp.Lookup name.now → IfOk result (λ done.
        DoesNaming book.now call.now table tables (T.is tree.old) done table tables
        (T.is tree.new)) }
    ensures unclocked { IfOk result (λ done. done.now ≡ None) }
    ensures err { OnErr result (tree.new ≡ tree.old) }
    ensures reserved { 0 < rooms.old → IsOk result }
    ensures rooms { rooms.old ≤ rooms.new + 1 }
{
    let NodeCall { who, request, seat } = *call;
    let file = own_file(temps, seat, place, name);
    lookup(
        alloc, rooms, &book.view, tree, who, request, place, file, name,
    )
}

/// Answers a CREATE: where a look tells what is there, names are numbered, and in the folder
/// of a document temporaries are.
fn make_file<T: HostTree, C: Clock>(
    alloc: Global,
    book: &FileBook,
    handles: &mut Handles,
    namings: &mut Namings,
    temps: &mut Temps,
    tree: &mut T,
    clock: &mut C,
    call: &NodeCall,
    name: &[u8],
    flags: u32,
) -> Result<NodeDone, WantOfMemory>
    requires entered { IsSome (opened_on handles.old.seats call.now.seat) }
    requires named { IsSome (named_on namings.old call.now.seat) }
    requires kept { IsSome (own_on temps.old.seats call.now.seat) }
    ensures ok { call.now.request.now.op ≡ NodeOp.Create name.now flags → IfOk result (λ done.
        DoesNaming book.now call.now handles.old (own_tables namings.old temps.old)
        (T.is tree.old) done handles.new (own_tables namings.new temps.new) (T.is tree.new)) }
    ensures clock { IfOk result (λ done. Reads C.reads clock.old done.now clock.new) }
    ensures err { OnErr result
        (Wants 3 handles.old (T.is tree.old) handles.new (T.is tree.new)) }
    ensures plain_err { may_be_below call.now.request.now.node ≡ false → OnErr result
        (Wants 2 handles.old (T.is tree.old) handles.new (T.is tree.new)) }
    ensures names_err { OnErr result (NamesKept namings.old namings.new) }
    ensures temps_err { OnErr result (TempsKept temps.old temps.new) }
    ensures clock_err { OnErr result (MayRead C.reads clock.old clock.new) }
{
    let NodeCall { who, request, seat } = *call;
    let own = by_number(namings, temps, seat, request.node);
    match seen_place(&book.view, who, request.node, own) {
        Some(SeenPlace::Below { view, below }) => {
            let parent = parent_of(alloc, view, below)?;
            create_below(
                alloc, handles, namings, tree, clock, call, &parent, name, flags,
            )
        }
        Some(SeenPlace::Folder { view, seen }) => {
            let folder = folder_of(alloc, view, seen)?;
            create_in_folder(
                alloc, handles, temps, tree, clock, call, &folder, name, flags,
            )
        }
        place => make_nowhere(alloc, book, tree, call, own, place, name, flags),
    }
}

/// Answers a CREATE at a place where no file can be made.
fn make_nowhere<T: HostTree>(
    alloc: Global,
    book: &FileBook,
    tree: &mut T,
    call: &NodeCall,
    own: ByNumber,
    place: Option<SeenPlace>,
    name: &[u8],
    flags: u32,
) -> Result<NodeDone, WantOfMemory>
    requires nowhere { IfSome place (λ seen. is_nowhere seen ≡ true) }
    requires sight { (s : State) → Lends book.now.view s →
        node_seen s call.now.who.now own call.now.request.now.node
        ≡ option_map (sight_of book.now.view call.now.who.now) place }
    ensures ok { (table : HandleTable) (tables : OwnTables) →
        IsNamedOn tables.names call.now (naming_by own.entry) →
        IsTempOn tables.temps call.now (temp_by own.entry) →
        call.now.request.now.op ≡ NodeOp.Create name.now flags → IfOk result (λ done.
        DoesNaming book.now call.now table tables (T.is tree.old) done table tables
        (T.is tree.new)) }
    ensures unclocked { IfOk result (λ done. done.now ≡ None) }
    ensures err { OnErr result (tree.new ≡ tree.old) }
{
    create_nowhere(alloc, tree, place, name, flags)
}
