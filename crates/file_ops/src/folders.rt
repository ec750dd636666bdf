//! FUSE_OPENDIR: a folder, and the entries that it has then.

ghost use Rattle.std.specs.Prelude.{◌≡◌, ℕ, ◌<◌, ◌^◌, [], ◌∷◌, IfOk, IfSome, IsSome, IsSomeAnd, List, None, OnErr, Option, Some, false, length, option_map, true};
ghost use Rattle.portal_base.specs.declared.files.Look.TheVariants as Look;
ghost use Rattle.host_tree.specs.Trees.{is_look_fault};
ghost use Rattle.open_handles.specs.Opened.{CanAdd, HandleTable, opened_on};
ghost use Rattle.portal_base.specs.declared.who.Who.{Who};
ghost use Rattle.portal_model.specs.declared.naming.Naming.{Naming as NamingNow};
ghost use Rattle.portal_model.specs.declared.temporary.Temp.{Temp as TempNow};
ghost use Rattle.portal_model.specs.declared.request.NodeOp.TheVariants as NodeOp;
ghost use Rattle.portal_model.specs.Errno.{enotdir};
ghost use Rattle.portal_model.specs.NodeVerdict.{at_file, at_name, by_look, errs_on_file, no_file, spot};
ghost use Rattle.portal_model.specs.declared.temporary.OwnTemp.{OwnTemp as OwnTempNow};
ghost use Rattle.portal_model.specs.OpenDir.{open_dir, open_dir_in};
ghost use Rattle.portal_model.specs.Place.{Exported, node_of, sight_of_place};
ghost use Rattle.portal_model.specs.State.{State};
ghost use Rattle.portal_model.specs.Walk.{AtPath, Looks};
ghost use Rattle.app_view.specs.Books.{Lends};
ghost use Rattle.app_view.specs.Places.{IsFolder, is_folder_place};
ghost use Rattle.app_view.specs.declared.book.ViewBook.{ViewBook};
ghost use Rattle.node_looks.specs.Done.{DoesWhere, DoneBy, Wants, done_with, room_in};
ghost use Rattle.file_ops.specs.OpenedFolders.{HasTemps, ListedBelow, Lists, ListsBehind, OpensBelow, folder_told, home_in};
ghost use Rattle.file_ops.specs.Wanting.{may_be_below};
ghost use Rattle.file_ops.specs.SeatTemps.{HeldTemps, temps_on};
ghost use Rattle.node_looks.specs.Sights.{naming_by, sight_of, temp_by, view_of};

use crate::opened::look_named;
use crate::temps_listed::names_of_temps;
use app_view::{SeenBelow, ViewBook, listing, listing_below, place_of};
use document_records::Document;
use host_tree::{HostTree, ListAnswer, LookAnswer};
use node_looks::asked::{Asked, done, refusal, refusal_on_file, room_for_look};
use node_looks::handed::{hand_out, take_room};
use node_looks::served::{ByNumber, FileBook, NodeCall, NodeDone};
use node_looks::sight::{SeenPlace, seen_at};
use open_handles::{Handle, Handles};
use portal_base::files::{ChildName, FileName, Look};
use portal_base::list::List;
use portal_base::memory::WantOfMemory;
use portal_base::names::HostPath;
use portal_model::entry::Fault;
use portal_model::errno::{EIO, EMFILE, ENOENT, ENOTDIR};
use portal_model::place::Place;
use portal_model::reply::{Answer, DirName, NodeAnswer};
use save_files::Temps;
use std::alloc::Global;

/// Answers a caller's OPENDIR of a folder: the next handle of its connection, which
/// was entered, keeps the entries that the folder has now.
///
/// `own` is what the connection has by the number in the node. Room for the handle is
/// taken first; a document's folder then takes one look at the tree, and has the
/// connection's temporaries behind the document's name. A folder that is a document, or
/// lies below one, takes its look ahead of the room, and then the names in it are
/// listed: so a request that wants memory has called the tree twice at most, and once at
/// the nodes of other folders. No document is looked at in which the view's subject has
/// no right: n documents or applications take about n log m steps, of m that there are.
pub fn open_dir<T: HostTree>(
    alloc: Global,
    book: &FileBook,
    handles: &mut Handles,
    temps: &Temps,
    tree: &mut T,
    call: &NodeCall,
    own: ByNumber,
) -> Result<NodeDone, WantOfMemory>
    requires { IsSome (opened_on handles.old.seats call.now.seat) }
    ensures ok { (has : HeldTemps) → temps_on temps.now.seats call.now.seat ≡ Some has →
        call.now.request.now.op ≡ NodeOp.OpenDir → IfOk result (λ done. DoesWhere
        (λ s. HasTemps call.now.request.now.node (naming_by own.entry) (temp_by own.entry)
        has.temps) book.now call.now handles.old (T.is tree.old) done handles.new
        (T.is tree.new)) }
    ensures unclocked { IfOk result (λ done. done.now ≡ None) }
    ensures err { OnErr result
        (Wants 2 handles.old (T.is tree.old) handles.new (T.is tree.new)) }
    ensures plain_err { may_be_below call.now.request.now.node ≡ false → OnErr result
        (Wants 1 handles.old (T.is tree.old) handles.new (T.is tree.new)) }
{
    let room = room_for_look(alloc)?;
    match place_of(call.request.node) {
        None => Ok(done(room, unlooked(refusal(ENOENT)))),
        Some(place) => at_place(
            alloc, room, &book.view, handles, temps, tree, call, own, place,
        ),
    }
}

/// What is done at a place.
fn at_place<T: HostTree>(
    alloc: Global,
    room: List<Look>,
    book: &ViewBook,
    handles: &mut Handles,
    temps: &Temps,
    tree: &mut T,
    call: &NodeCall,
    own: ByNumber,
    place: Place,
) -> Result<NodeDone, WantOfMemory>
    requires room { length room ≡ 1 }
    requires entered { IsSome (opened_on handles.old.seats call.now.seat) }
    requires node { node_of place ≡ call.now.request.now.node }
    ensures ok { (has : HeldTemps) → temps_on temps.now.seats call.now.seat ≡ Some has →
        IfOk result (λ done. (s : State) → Lends book.now s → DoneBy
        (open_dir call.now.request.now
        (sight_of_place s call.now.who.now (naming_by own.entry) (temp_by own.entry) place)
        (room_in handles.old call.now.seat) has.temps) NodeOp.OpenDir call.now.seat
        handles.old (T.is tree.old) done handles.new (T.is tree.new)) }
    ensures unclocked { IfOk result (λ done. done.now ≡ None) }
    ensures err { OnErr result
        (Wants 2 handles.old (T.is tree.old) handles.new (T.is tree.new)) }
    ensures plain_err { is_folder_place place ≡ true → OnErr result
        (Wants 1 handles.old (T.is tree.old) handles.new (T.is tree.new)) }
{
    match seen_at(book, call.who, place, own) {
        None => Ok(done(room, unlooked(refusal(ENOENT)))),
        Some(SeenPlace::File { seen, .. }) => Ok(done(room, in_file(tree, &seen.document.path))),
        Some(SeenPlace::Temporary { temp, .. }) => Ok(done(room, in_named(tree, temp.file))),
        Some(SeenPlace::Below { view, below }) => {
            in_below(alloc, room, handles, tree, call, view, below)
        }
        Some(folder) => {
            let asked = in_folder(alloc, book, handles, temps, tree, call, place, folder)?;
            Ok(done(room, asked))
        }
    }
}

/// What is done where a look tells whether there is a folder.
fn in_below<T: HostTree>(
    alloc: Global,
    room: List<Look>,
    handles: &mut Handles,
    tree: &mut T,
    call: &NodeCall,
    view: u32,
    below: SeenBelow,
) -> Result<NodeDone, WantOfMemory>
    requires room { length room ≡ 1 }
    requires entered { IsSome (opened_on handles.old.seats call.now.seat) }
    requires view { view < 2 ^ 28 }
    ensures ok { (temps : List OwnTempNow) → IfOk result (λ done. DoneBy
        (Looks (AtPath below.entry.path.now) (by_look view
        (spot below.entry.seen.document.now below.entry.path.now below.entry.seen.may_write)
        (no_file enotdir)
        (open_dir_in call.now.request.now (room_in handles.old call.now.seat) temps)))
        NodeOp.OpenDir call.now.seat handles.old (T.is tree.old) done handles.new
        (T.is tree.new)) }
    ensures unclocked { IfOk result (λ done. done.now ≡ None) }
    ensures err { OnErr result
        (Wants 2 handles.old (T.is tree.old) handles.new (T.is tree.new)) }
{
    let look = tree.look(below.path);
    match look {
        LookAnswer::Is(Look::Folder) => {
            opened_below(alloc, room, handles, tree, call, view, below)
        }
        LookAnswer::Is(Look::File { .. } | Look::Missing) | LookAnswer::Failed => {
            let answer = refusal_on_file(look, ENOTDIR);
            Ok(done(
                room,
                Asked {
                    answer,
                    look: Some(look),
                },
            ))
        }
    }
}

/// What is done in a folder behind the look that showed it.
fn opened_below<T: HostTree>(
    alloc: Global,
    room: List<Look>,
    handles: &mut Handles,
    tree: &mut T,
    call: &NodeCall,
    view: u32,
    below: SeenBelow,
) -> Result<NodeDone, WantOfMemory>
    requires room { length room ≡ 1 }
    requires entered { IsSome (opened_on handles.old.seats call.now.seat) }
    requires view { view < 2 ^ 28 }
    ensures ok { (temps : List OwnTempNow) → IfOk result (λ done. OpensBelow
        (open_dir_in call.now.request.now (room_in handles.old call.now.seat) temps
        (Exported view below.entry.seen.document.now below.entry.path.now
        below.entry.seen.may_write)) call.now.seat handles.old
        (T.is tree.old) done handles.new (T.is tree.new)) }
    ensures unclocked { IfOk result (λ done. done.now ≡ None) }
    ensures err { OnErr result
        (Wants 1 handles.old (T.is tree.old) handles.new (T.is tree.new)) }
{
    if !take_room(handles, call.seat)? {
        return Ok(behind_look(room, refusal(EMFILE), None, Fault::None));
    }
    match tree.list(below.path) {
        ListAnswer::Names(names) => {
            let answer = listed_below(alloc, handles, call, view, below, names.as_slice())?;
            Ok(behind_look(room, answer, Some(names), Fault::None))
        }
        ListAnswer::NotFolder => Ok(behind_look(room, refusal(ENOENT), None, Fault::None)),
        ListAnswer::Failed => Ok(behind_look(room, refusal(EIO), None, Fault::Tree)),
        ListAnswer::Memory => Err(WantOfMemory),
    }
}

/// What was done behind the look that showed a folder.
fn behind_look(
    mut room: List<Look>,
    answer: Answer,
    listed: Option<List<ChildName>>,
    fault: Fault,
) -> NodeDone
    requires { length room ≡ 1 }
    ensures { result ≡ record {
      answer = answer;
      looks = Look.Folder ∷ [];
      listed = listed;
      now = None;
      generation = None;
      fault = fault;
    } }
{
    room.set(0, Look::Folder);
    NodeDone {
        answer,
        looks: room,
        listed,
        now: None,
        generation: None,
        fault,
    }
}

/// The handle on the names in a folder.
fn listed_below(
    alloc: Global,
    handles: &mut Handles,
    call: &NodeCall,
    view: u32,
    below: SeenBelow,
    children: &[ChildName],
) -> Result<Answer, WantOfMemory>
    requires room { IsSomeAnd (opened_on handles.old.seats call.now.seat)
        (CanAdd handles.old.most) }
    requires view { view < 2 ^ 28 }
    ensures ok { IfOk result (λ answer. ListedBelow call.now.request.now view
        below.entry.seen.document.now below.entry.path.now children.now call.now.seat
        handles.old answer handles.new) }
    ensures err { OnErr result (handles.new ≡ handles.old) }
{
    let document = below.seen.document;
    let node = call.request.node;
    let names = listing_below(alloc, view, document, below.path, node, children)?;
    Ok(Answer::Node(NodeAnswer::Opened {
        fh: hand_out(handles, call.seat, Handle::Folder { node, names }),
    }))
}

/// The answer for a file, which has no entries.
fn in_file<T: HostTree>(tree: &mut T, path: &HostPath) -> Asked
    ensures { (seat : ℕ) (table : HandleTable) → DoneBy (at_file path.now (errs_on_file enotdir))
        NodeOp.OpenDir seat table (T.is tree.old) (done_with result) table (T.is tree.new) }
{
    let look = tree.look(path);
    Asked {
        answer: refusal_on_file(look, ENOTDIR),
        look: Some(look),
    }
}

/// The answer for a temporary, which has no entries.
fn in_named<T: HostTree>(tree: &mut T, name: &FileName) -> Asked
    ensures { (seat : ℕ) (table : HandleTable) → DoneBy (at_name name.now (errs_on_file enotdir))
        NodeOp.OpenDir seat table (T.is tree.old) (done_with result) table (T.is tree.new) }
{
    let look = look_named(tree, name);
    Asked {
        answer: refusal_on_file(look, ENOTDIR),
        look: Some(look),
    }
}

/// The answer for a folder.
fn in_folder<T: HostTree>(
    alloc: Global,
    book: &ViewBook,
    handles: &mut Handles,
    temps: &Temps,
    tree: &mut T,
    call: &NodeCall,
    place: Place,
    folder: SeenPlace,
) -> Result<Asked, WantOfMemory>
    requires entered { IsSome (opened_on handles.old.seats call.now.seat) }
    requires node { node_of place ≡ call.now.request.now.node }
    requires seen { (s : State) (naming : Option NamingNow) (temp : Option TempNow) →
        Lends book.now s → sight_of_place s call.now.who.now naming temp place
        ≡ Some (sight_of book.now call.now.who.now folder) }
    requires folder { IsFolder (Some (sight_of book.now call.now.who.now folder)) }
    requires small { view_of folder < 2 ^ 28 }
    ensures ok { (has : HeldTemps) → temps_on temps.now.seats call.now.seat ≡ Some has →
        IfOk result (λ asked. (s : State) (naming : Option NamingNow) (temp : Option TempNow) →
        Lends book.now s → DoneBy
        (open_dir call.now.request.now (sight_of_place s call.now.who.now naming temp place)
        (room_in handles.old call.now.seat) has.temps) NodeOp.OpenDir call.now.seat
        handles.old (T.is tree.old) (done_with asked) handles.new (T.is tree.new)) }
    ensures err { OnErr result
        (Wants 1 handles.old (T.is tree.old) handles.new (T.is tree.new)) }
{
    if !take_room(handles, call.seat)? {
        return Ok(unlooked(refusal(EMFILE)));
    }
    match document_in(folder) {
        Some(home) => {
            let own = names_of_temps(alloc, temps, call.seat, home.view, home.document.id)?;
            let look = tree.look(&home.document.path);
            Ok(Asked {
                answer: by_look(alloc, book, handles, call, place, own, look)?,
                look: Some(look),
            })
        }
        None => {
            let none = List::new(alloc);
            let answer = listed(alloc, book, handles, call, place, none, Look::Missing)?;
            Ok(unlooked(answer))
        }
    }
}

/// The folder of a document, in a view.
#[derive(Clone, Copy)]
struct FolderSeen<'a> {
    /// The view.
    view: u32,
    /// The document.
    document: &'a Document,
}

/// The document whose folder is seen.
fn document_in(folder: SeenPlace) -> Option<FolderSeen>
    ensures home { (book : ViewBook) (who : Who) →
        option_map folder_told result ≡ home_in (sight_of book who folder.entry) }
    ensures view { IfSome result (λ home. home.view ≡ view_of folder.entry) }
{
    match folder {
        SeenPlace::Folder { view, seen } => Some(FolderSeen {
            view,
            document: seen.document,
        }),
        SeenPlace::File { .. }
        | SeenPlace::Below { .. }
        | SeenPlace::Temporary { .. }
        | SeenPlace::Root { .. }
        | SeenPlace::Views => None,
    }
}

/// The answer for the folder of a document, by the look for its file. These entries come
/// behind those of the folder.
fn by_look(
    alloc: Global,
    book: &ViewBook,
    handles: &mut Handles,
    call: &NodeCall,
    place: Place,
    own: List<DirName>,
    look: LookAnswer,
) -> Result<Answer, WantOfMemory>
    requires room { IsSomeAnd (opened_on handles.old.seats call.now.seat)
        (CanAdd handles.old.most) }
    requires node { node_of place ≡ call.now.request.now.node }
    requires folder { (s : State) → Lends book.now s →
        IsFolder (sight_of_place s call.now.who.now None None place) }
    ensures ok { IfOk result (λ answer. (s : State) → Lends book.now s →
        ListsBehind call.now.request.now (sight_of_place s call.now.who.now None None place)
        call.now.seat look own handles.old answer handles.new) }
    ensures err { OnErr result ((handles.new ≡ handles.old) × (is_look_fault look ≡ false)) }
{
    match look {
        LookAnswer::Is(shown) => listed(alloc, book, handles, call, place, own, shown),
        LookAnswer::Failed => Ok(refusal(EIO)),
    }
}

/// The handle on the entries of a folder, where a look shows this, and on these behind
/// them.
fn listed(
    alloc: Global,
    book: &ViewBook,
    handles: &mut Handles,
    call: &NodeCall,
    place: Place,
    own: List<DirName>,
    look: Look,
) -> Result<Answer, WantOfMemory>
    requires room { IsSomeAnd (opened_on handles.old.seats call.now.seat)
        (CanAdd handles.old.most) }
    requires node { node_of place ≡ call.now.request.now.node }
    requires folder { (s : State) → Lends book.now s →
        IsFolder (sight_of_place s call.now.who.now None None place) }
    ensures ok { IfOk result (λ answer. (s : State) → Lends book.now s →
        Lists call.now.request.now (sight_of_place s call.now.who.now None None place)
        call.now.seat look own handles.old answer handles.new) }
    ensures err { OnErr result (handles.new ≡ handles.old) }
{
    // The handle keeps the listing of this moment, so that the offsets which the kernel reads on
    // from go on to mean the same entries.
    let mut names = listing(alloc, book, call.who, place, look)?;
    names.append(own)?;
    let handle = Handle::Folder {
        node: call.request.node,
        names,
    };
    Ok(Answer::Node(NodeAnswer::Opened {
        fh: hand_out(handles, call.seat, handle),
    }))
}

/// An answer for which no look was taken.
fn unlooked(answer: Answer) -> Asked
    ensures { result ≡ record { answer = answer; look = None } }
{
    Asked { answer, look: None }
}
