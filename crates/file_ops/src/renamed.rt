//! FUSE_RENAME and FUSE_RENAME2: a temporary gets another name in its folder, or its file
//! becomes the document's.

ghost use Rattle.std.specs.Prelude.{◌≡◌, IfOk, IfSome, IsSome, List, None, OnErr, Option, Some, true};
ghost use Rattle.host_tree.specs.Trees.{TreeIs};
ghost use Rattle.open_handles.specs.Opened.{HandleTable};
ghost use Rattle.portal_model.specs.declared.naming.Naming.{Naming as NamingNow};
ghost use Rattle.portal_model.specs.declared.temporary.Temp.{Temp as TempNow};
ghost use Rattle.portal_model.specs.declared.reply.NodeAnswer.TheVariants as NodeAnswer;
ghost use Rattle.portal_model.specs.Place.{Sight};
ghost use Rattle.portal_model.specs.Rename.{rename, rename_at, rename_temp, same_home};
ghost use Rattle.portal_model.specs.SeatNames.{own_temp};
ghost use Rattle.portal_model.specs.State.{State};
ghost use Rattle.app_view.specs.Books.{Lends};
ghost use Rattle.save_files.specs.Own.{Own as OwnNow, own_on, temp_of};
ghost use Rattle.node_looks.specs.TreeCalls.{WasCalledUpTo};
ghost use Rattle.file_ops.specs.Creates.{Saving};
ghost use Rattle.file_ops.specs.Homes.{IsSeenAs, home_told, is_home};
ghost use Rattle.file_ops.specs.Renames.{IsCommon, IsCommonHome, IsMoved, IsSomething, IsUncalled, Turned, call_told, number_left, rename_seen, save_walk};
ghost use Rattle.file_ops.specs.SeatNames.{namings_on, seat_sight};
ghost use Rattle.file_ops.specs.SeatTemps.{HeldTemps, TempsKept, temps_on};
ghost use Rattle.file_ops.specs.Tries.{done_of_ended, ended_of, moment_of, turned_so};

use crate::homes::{HomeSeen, SeenNode, What, see, shown_of};
use crate::numbered::by_number;
use crate::temporaries::{drop_temp, is_dots, own_called, rename_temp};
use crate::tried::{CallMade, Came, Ended, Tried, TriedBelow, came_of, room_below};
use app_view::ViewBook;
use folder_documents::Namings;
use host_tree::HostTree;
use node_looks::entry::{is_name_of, is_too_long};
use node_looks::served::{NodeCall, NodeDone};
use node_looks::sight::seen_place;
use portal_base::memory::WantOfMemory;
use portal_base::names::DocId;
use portal_model::errno::{EACCES, EINVAL, ENAMETOOLONG, ENOENT, ENOTDIR, EPERM, EXDEV};
use portal_model::reply::NodeAnswer;
use save_files::Temps;
use std::alloc::Global;

/// What a RENAME asks of the folder of the old name.
#[derive(Clone, Copy)]
pub(crate) struct RenameCall<'a> {
    /// The flags of renameat2(2).
    pub flags: u32,
    /// The name that there is.
    pub old_name: &'a [u8],
    /// The name that it gets.
    pub new_name: &'a [u8],
}

/// A temporary that gets another name in its folder.
#[derive(Clone, Copy)]
pub(crate) struct NamedTemp {
    /// Its number on the connection.
    pub k: u32,
    /// The view of its folder.
    pub view: u32,
    /// The document of its folder.
    pub document: DocId,
}

/// What a RENAME comes to by what is seen at both folders.
pub(crate) enum Moving {
    /// It is refused.
    Refused(TriedBelow),
    /// The file of the temporary of this number becomes the document's.
    Saved(u32),
    /// A temporary gets another name.
    Named(NamedTemp),
}

/// Answers a caller's RENAME of a name in one folder to a name in another: these have to
/// be one, the folder of a document that isn't a folder itself, and the old name has to be
/// that of a temporary of the connection. Onto the document's name its file becomes the
/// document's, which takes one call of the tree; onto another the temporary has that name,
/// and another temporary of the name is gone.
///
/// At a node of a file a look is taken, and at or below a document that is a folder. Where
/// memory is wanting the tree was called once at most, and no file and no temporary has
/// changed.
pub(crate) fn rename<T: HostTree>(
    alloc: Global,
    book: &ViewBook,
    namings: &Namings,
    temps: &mut Temps,
    tree: &mut T,
    call: &NodeCall,
    new_parent: u64,
    asked: RenameCall,
) -> Result<NodeDone, WantOfMemory>
    ensures ok { (table : HandleTable) (names : List NamingNow) (has : HeldTemps) →
        namings_on namings.now call.now.seat ≡ Some names →
        temps_on temps.old.seats call.now.seat ≡ Some has → IfOk result (λ done.
        (s : State) → Lends book.now s → Saving (rename (call_told asked.entry) has.temps
        (seat_sight s call.now.who.now names has.temps call.now.request.now.node)
        (seat_sight s call.now.who.now names has.temps new_parent)) call.now.seat table
        temps.old (T.is tree.old) done table temps.new (T.is tree.new)) }
    ensures unclocked { IfOk result (λ done. done.now ≡ None) }
    ensures err { OnErr result (WasCalledUpTo 1 (T.is tree.old) (T.is tree.new)) }
    ensures temps_err { OnErr result (TempsKept temps.old temps.new) }
{
    let room = room_below(alloc)?;
    match moves(book, namings, temps, tree, call, new_parent, asked) {
        Moving::Refused(tried) => Ok(tried.done(room)),
        Moving::Saved(k) => {
            let ended = saved(temps, tree, call.seat, k)?;
            Ok(TriedBelow::at_once(Tried::unlooked(ended)).done(room))
        }
        Moving::Named(named) => {
            let NamedTemp { k, view, document } = named;
            rename_temp(temps, call.seat, k, view, document, asked.new_name)?;
            let ended = Ended::told(NodeAnswer::Empty);
            Ok(TriedBelow::at_once(Tried::unlooked(ended)).done(room))
        }
    }
}

/// What the request comes to.
fn moves<T: HostTree>(
    book: &ViewBook,
    namings: &Namings,
    temps: &Temps,
    tree: &mut T,
    call: &NodeCall,
    new_parent: u64,
    asked: RenameCall,
) -> Moving
    ensures moved { (names : List NamingNow) (has : HeldTemps) →
        namings_on namings.now call.now.seat ≡ Some names →
        temps_on temps.now.seats call.now.seat ≡ Some has → (s : State) → Lends book.now s →
        IsMoved (rename (call_told asked.entry) has.temps
        (seat_sight s call.now.who.now names has.temps call.now.request.now.node)
        (seat_sight s call.now.who.now names has.temps new_parent)) asked.entry.new_name.now
        (own_on temps.now.seats call.now.seat) (T.is tree.old) result (T.is tree.new) }
    ensures there { IfSome (number_left result)
        (λ k. IsSome (temp_of (own_on temps.now.seats call.now.seat) k)) }
    ensures still { IfSome (number_left result) (λ k. tree.new ≡ tree.old) }
    ensures uncalled { IsUncalled result }
{
    if asked.flags != 0 {
        return Moving::Refused(TriedBelow::refused(EINVAL));
    }
    if is_too_long(asked.old_name) {
        return Moving::Refused(TriedBelow::refused(ENAMETOOLONG));
    }
    if is_too_long(asked.new_name) {
        return Moving::Refused(TriedBelow::refused(ENAMETOOLONG));
    }
    let node = call.request.node;
    let own = by_number(namings, temps, call.seat, node);
    let first = see(tree, seen_place(book, call.who, node, own));
    match first.what {
        // The folder of the new name isn't asked then.
        What::Nothing(errno) => Moving::Refused(TriedBelow::at_once(Tried {
            look: first.look,
            ended: Ended::refused(errno),
        })),
        What::File => moving_from(book, namings, temps, tree, call, new_parent, asked, first),
        What::Folder(_) => {
            moving_from(book, namings, temps, tree, call, new_parent, asked, first)
        }
    }
}

/// What the request comes to behind what is seen at the folder of the old name.
fn moving_from<T: HostTree>(
    book: &ViewBook,
    namings: &Namings,
    temps: &Temps,
    tree: &mut T,
    call: &NodeCall,
    new_parent: u64,
    asked: RenameCall,
    first: SeenNode,
) -> Moving
    requires { IsSomething first.what }
    ensures moved { (names : List NamingNow) (has : HeldTemps) (sight : Option Sight)
        (began : TreeIs) → namings_on namings.now call.now.seat ≡ Some names →
        temps_on temps.now.seats call.now.seat ≡ Some has →
        IsSeenAs sight began first.entry.look first.entry.what (T.is tree.old) →
        (s : State) → Lends book.now s → IsMoved (rename_seen (call_told asked.entry) has.temps
        sight (seat_sight s call.now.who.now names has.temps new_parent))
        asked.entry.new_name.now (own_on temps.now.seats call.now.seat) began result
        (T.is tree.new) }
    ensures there { IfSome (number_left result)
        (λ k. IsSome (temp_of (own_on temps.now.seats call.now.seat) k)) }
    ensures still { IfSome (number_left result)
        (λ k. (is_home first.entry.what ≡ true) × (tree.new ≡ tree.old)) }
    ensures uncalled { IsUncalled result }
{
    let own = by_number(namings, temps, call.seat, new_parent);
    let second = see(tree, seen_place(book, call.who, new_parent, own));
    match common_home(first.what, second.what) {
        Common::Refused(errno) => Moving::Refused(TriedBelow {
            first: shown_of(first.look),
            then: Tried {
                look: second.look,
                ended: Ended::refused(errno),
            },
        }),
        Common::Home(home) => moving_in(temps, call.seat, home, asked),
    }
}

/// The one folder that two nodes are.
#[derive(Clone, Copy)]
enum Common<'a> {
    /// The request is refused with this error.
    Refused(u32),
    /// The folder of a document in which temporaries may be.
    Home(HomeSeen<'a>),
}

/// The one folder in which temporaries may be that both are.
fn common_home<'a>(first: What<'a>, second: What<'a>) -> Common<'a>
    ensures { IsCommon first.entry second.entry result }
{
    match second {
        What::Nothing(errno) => Common::Refused(errno),
        What::File => Common::Refused(ENOTDIR),
        What::Folder(second) => match first {
            What::Nothing(errno) => Common::Refused(errno),
            What::File => Common::Refused(ENOTDIR),
            What::Folder(first) => same_home(first, second),
        },
    }
}

/// The one of two folders in which temporaries may be.
fn same_home<'a>(first: Option<HomeSeen<'a>>, second: Option<HomeSeen<'a>>) -> Common<'a>
    ensures { IsCommonHome first.entry second.entry result }
{
    match first {
        Some(first) => match second {
            Some(second) => one_home(first, second),
            None => Common::Refused(EPERM),
        },
        None => Common::Refused(EPERM),
    }
}

/// The one of two folders of documents, where they are one.
fn one_home<'a>(first: HomeSeen<'a>, second: HomeSeen<'a>) -> Common<'a>
    ensures { IsCommonHome (Some first.entry) (Some second.entry) result }
{
    if is_same(first, second) {
        Common::Home(first)
    } else {
        Common::Refused(EXDEV)
    }
}

/// Says whether two folders of documents are one.
fn is_same(first: HomeSeen, second: HomeSeen) -> bool
    ensures { result ≡ same_home (home_told first.entry) (home_told second.entry) }
{
    first.view == second.view && first.document.id.number == second.document.id.number
}

/// What the request comes to in the folder of a document.
fn moving_in(temps: &Temps, seat: u32, home: HomeSeen, asked: RenameCall) -> Moving
    ensures moved { (has : HeldTemps) (tree : TreeIs) →
        temps_on temps.now.seats seat ≡ Some has →
        IsMoved (rename_at (call_told asked.entry) has.temps (home_told home.entry))
        asked.entry.new_name.now (own_on temps.now.seats seat) tree result tree }
    ensures there { IfSome (number_left result)
        (λ k. IsSome (temp_of (own_on temps.now.seats seat) k)) }
    ensures uncalled { IsUncalled result }
{
    let HomeSeen { view, document, .. } = home;
    if is_name_of(&document.path, asked.old_name) {
        return Moving::Refused(TriedBelow::refused(EPERM));
    }
    match own_called(temps, seat, view, document.id, asked.old_name) {
        None => Moving::Refused(TriedBelow::refused(ENOENT)),
        Some(own) => moving_to(home, own.k, asked.new_name),
    }
}

/// What the request comes to on a temporary of the folder, by the name that it gets.
fn moving_to(home: HomeSeen, k: u32, name: &[u8]) -> Moving
    ensures moved { (temp : TempNow) (own : Option OwnNow) (tree : TreeIs) →
        temp_of own k ≡ Some temp → temp.view ≡ home.entry.view →
        temp.document ≡ home.entry.document.now.id → IsMoved
        (rename_temp (home_told home.entry) name.now (Some (own_temp k temp))) name.now own tree
        result tree }
    ensures number { IfSome (number_left result) (λ n. n ≡ k) }
    ensures uncalled { IsUncalled result }
{
    let HomeSeen {
        view,
        document,
        may_write,
    } = home;
    if !may_write {
        return Moving::Refused(TriedBelow::refused(EACCES));
    }
    if is_dots(name) {
        return Moving::Refused(TriedBelow::refused(EACCES));
    }
    if is_name_of(&document.path, name) {
        return Moving::Saved(k);
    }
    Moving::Named(NamedTemp {
        k,
        view,
        document: document.id,
    })
}

/// How the request ends where the file of a temporary becomes the document's.
fn saved<T: HostTree>(
    temps: &mut Temps,
    tree: &mut T,
    seat: u32,
    k: u32,
) -> Result<Ended, WantOfMemory>
    requires { IsSome (temp_of (own_on temps.old.seats seat) k) }
    ensures ok { (table : HandleTable) (temp : TempNow) →
        temp_of (own_on temps.old.seats seat) k ≡ Some temp → IfOk result (λ ended.
        Saving (save_walk k temp) seat table temps.old (T.is tree.old) (done_of_ended ended)
        table temps.new (T.is tree.new)) }
    ensures unclocked { IfOk result (λ ended. moment_of ended.call ≡ None) }
    ensures err { OnErr result (WasCalledUpTo 1 (T.is tree.old) (T.is tree.new)) }
    ensures temps_err { OnErr result (temps.new ≡ temps.old) }
{
    let came = turned(temps, tree, seat, k)?;
    match came {
        Came::Done => {
            drop_temp(temps, seat, k);
            Ok(ended_turned(Came::Done))
        }
        Came::NotFile => Ok(ended_turned(Came::NotFile)),
        Came::Failed => Ok(ended_turned(Came::Failed)),
    }
}

/// How the request ends by what the call came to.
fn ended_turned(came: Came) -> Ended
    ensures { result ≡ ended_of (turned_so came) NodeAnswer.Empty }
{
    let call = CallMade {
        now: None,
        generation: None,
        came,
    };
    Ended::of_call(call, NodeAnswer::Empty)
}

/// Makes the file of a temporary its path's present one.
fn turned<T: HostTree>(temps: &Temps, tree: &mut T, seat: u32, k: u32) -> Result<Came, WantOfMemory>
    requires { IsSome (temp_of (own_on temps.now.seats seat) k) }
    ensures ok { (temp : TempNow) → temp_of (own_on temps.now.seats seat) k ≡ Some temp →
        IfOk result (λ came. Turned temp.file (T.is tree.old) came (T.is tree.new)) }
    ensures err { OnErr result (WasCalledUpTo 1 (T.is tree.old) (T.is tree.new)) }
{
    match temps.get(seat, k) {
        Some(temp) => came_of(tree.turn(&temp.file)),
        None => unreachable!(),
    }
}
